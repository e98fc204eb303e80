// R1 to R3, the tests that every call of an image begins with (01, "Named refusals"). They are inlined by name: called, they cost an entry 20 instructions more.
ghost use Rattle.std.specs.Prelude.{◌≡◌, ◌+◌, length, IfOk};
ghost use Rattle.meaning.specs.Bytes.{longest_reply};
ghost use Rattle.meaning.specs.Fields.{memory_length};
ghost use Rattle.image.specs.Image.{plate_of_head};
ghost use Rattle.quicksetter.specs.Calls.{plate_held};
ghost use Rattle.quicksetter.specs.Cores.{refused_number, refusal_told, image_refusal};

use crate::events::{is_possible, is_sound};
use crate::given::{REFUSED, REFUSED_ANSWER};
use image::{CORE, LENGTH};
use line::Plate;
use wire::codes::LONGEST_REPLY;

// An impossible image, plate or state; memory of another length; too little room for a reply. Not board's `Refusal`: these have the numbers that C is told.
#[derive(Clone, Copy)]
pub(crate) enum Refusal {
    R1 = 1,
    R2 = 2,
    R3 = 3,
}

impl Refusal {
    pub(crate) fn number(self) -> usize
        ensures { result ≡ 256 + refused_number self }
    {
        REFUSED + self as usize
    }

    // That of a character and a poll.
    pub(crate) fn answer(self) -> u64
        ensures { result ≡ 0xFFFFFFFE00000100 + refused_number self }
    {
        REFUSED_ANSWER + self as u64
    }
}

// R1 alone, as if memory and room were as they must be.
#[inline(always)]
pub(crate) fn sound_plate(image: &[u8]) -> Result<Plate, Refusal>
    ensures refusal { refusal_told result ≡ image_refusal image.now (memory_length (plate_held image.now).total) longest_reply }
    ensures plate { IfOk result (λ p. p ≡ plate_of_head image.now) }
{
    if !image::is_ours(image) {
        return Err(Refusal::R1);
    }
    let plate = image::plate_in(image);
    if !is_possible(&image[CORE..LENGTH], plate) {
        return Err(Refusal::R1);
    }
    if !is_sound(&image[CORE..LENGTH]) {
        return Err(Refusal::R1);
    }
    Ok(plate)
}

#[inline(always)]
pub(crate) fn admitted(image: &[u8], memory: &[u8], room: &[u8]) -> Result<Plate, Refusal>
    ensures refusal { refusal_told result ≡ image_refusal image.now (length memory.now) (length room.now) }
    ensures plate { IfOk result (λ p. p ≡ plate_of_head image.now) }
{
    let plate = sound_plate(image)?;
    if memory.len() as u64 != plate.memory_length() {
        return Err(Refusal::R2);
    }
    if room.len() < LONGEST_REPLY {
        return Err(Refusal::R3);
    }
    Ok(plate)
}
