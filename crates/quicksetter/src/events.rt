// A character and a poll of an image (01, "Characters become frames"). Image, memory and room go one by one, as C lends them.
ghost use Rattle.std.specs.Prelude.{◌≡◌, List, ℕ, ◌+◌, ◌≤◌, length};
ghost use Rattle.meaning.specs.Bytes.{differ};
ghost use Rattle.meaning.specs.State as meaning;
ghost use Rattle.meaning.specs.State.{label_length, last_address, apart, none, own_byte};
ghost use Rattle.meaning.specs.Characters.{full_pause, remaining};
ghost use Rattle.meaning.specs.Demands.{waits};
ghost use Rattle.meaning.specs.Run as run;
ghost use Rattle.line.specs.Line.{plate_of, remaining_of};
ghost use Rattle.state.specs.Queue.{queue_of};
ghost use Rattle.state.specs.State.{state_with};
ghost use Rattle.image.specs.Image.{kept_at, core_length, state_in, held_in};
ghost use Rattle.quicksetter.specs.Calls.{plate_held, CalledWithSleep};
ghost use Rattle.quicksetter.specs.Cores.{possible, ImageUnrefused, ImageServable, ImageServed, ImageAnswered, ImageShuts, ImagePolls};

use crate::given::{NO_FRAME_OPEN, answer_number};
use crate::refusals::admitted;
use image::{ADDRESS, CODES, CORE, COUNTER, KEPT, LABEL, LENGTH, OFFSET, WAITING};
use line::{Judgement, OpenFrame, Plate};

// R1 of the plate and of the core, but for the waiting codes. What a host may get wrong comes first. A counter of three bytes is never too large.
pub(crate) fn is_possible(core: &[u8], plate: Plate) -> bool
    ensures { (l : List ℕ) → length l ≡ label_length → result ≡ possible (plate_of plate l) core.now }
{
    if !plate.is_ok() {
        return false;
    }
    if !image::is_core(core) {
        return false;
    }
    if !image::address_ok(core) {
        return false;
    }
    state::offset_fits(wire::number_at(core, OFFSET), plate.bits)
}

// R1 of the waiting codes; that none waits, as is usual, or one alone is told at once.
pub(crate) fn is_sound(core: &[u8]) -> bool
    requires { core_length ≤ length core.now }
    ensures { result ≡ apart (queue_of (state_in core.now).faults) }
{
    let waiting = wire::number_at(core, WAITING);
    if waiting == 0 {
        return true;
    }
    if waiting < 0x100 {
        return !state::locks(waiting as u8);
    }
    image::faults_in(core).waits_apart()
}

// Whether a code waits: one of the four places is not 00h.
fn waits(core: &[u8]) -> bool
    requires { core_length ≤ length core.now }
    ensures { result ≡ waits (queue_of (state_in core.now).faults) }
{
    wire::number_at(core, WAITING) != 0
}

fn is_open(core: &[u8]) -> bool
    requires { core_length ≤ length core.now }
    ensures { result ≡ (held_in core.now).line.begun }
{
    image::frame_in(core).begun
}

// How much of the pause of the core's open frame remains at that tick, None where no frame is open.
fn remaining(core: &[u8], tick: u32, pause: u64) -> Option<u64>
    requires { core_length ≤ length core.now }
    ensures { (p : meaning.Plate) → pause ≡ full_pause p → remaining_of result ≡ remaining p (held_in core.now) tick }
{
    let frame = image::frame_in(core);
    frame.remaining(pause, tick)
}

// The board's address byte.
fn own(core: &[u8]) -> u8
    requires { (core_length ≤ length core.now) × ((state_in core.now).address ≤ last_address) }
    ensures { result ≡ own_byte (state_with (state_in core.now) none) }
{
    wire::own_byte(core[ADDRESS])
}

// As board's `serve`, but in place: C lends the state as bytes, and what does not change of them is not written. A request, worked on the state that the image's core holds; `len` bytes of it are kept. Only what changes of the state is written. The plate is
// read where it is needed, so that no call hands it on.
fn served(image: &mut [u8], command: u8, len: usize, memory: &mut [u8], room: &mut [u8]) -> u8
    requires { ImageServable command (kept_at + len) image.old memory.old room.old }
    ensures { ImageServed command (kept_at + len) image.old memory.old room.old result image.new memory.new room.new }
{
    let plate = image::plate_in(image);
    if board::needs_memory(command) {
        let core = &image[CORE..LENGTH];
        let codes = &core[CODES..COUNTER];
        let request = wire::data_part(&core[KEPT..KEPT + len]);
        let answer = board::on_memory(plate.total as usize, codes, command, request, memory, room);
        return board::send(own(core), waits(core), command, answer, room);
    }
    let core = &image[CORE..LENGTH];
    let label = &image[LABEL..CORE];
    let state = image::state_in(core);
    let request = wire::data_part(&core[KEPT..KEPT + len]);
    match board::on_state(plate.bits, label, state, command, request, room) {
        Ok(worked) => {
            image::put_effect(worked.effect, &mut image[CORE..LENGTH]);
            let after = &image[CORE..LENGTH];
            board::send(own(after), waits(after), command, Ok(worked.reply), room)
        }
        Err(error) => board::send(own(core), waits(core), command, Err(error), room),
    }
}

// The open frame, judged, worked and answered. The number is the reply's length.
fn answered(image: &mut [u8], memory: &mut [u8], room: &mut [u8]) -> u8
    requires { ImageUnrefused image.old (length memory.old) (length room.old) }
    ensures { ImageAnswered image.old memory.old room.old result image.new memory.new room.new }
{
    let core = &image[CORE..LENGTH];
    let frame = image::frame_in(core);
    // `as`, as in board's `close`.
    let len = frame.len as usize;
    let end = KEPT + len;
    let own = own(core);
    if line::is_silent(own, &core[KEPT..end]) {
        return 0;
    }
    let judgement = frame.judged(own, &core[KEPT..end]);
    let Judgement::Request(command) = judgement else {
        let state = image::state_in(core);
        return board::refuse(state, judgement.code(), room);
    };
    served(image, command, len, memory, room)
}

// The open frame is over: it is answered and put away.
fn shut(image: &mut [u8], memory: &mut [u8], room: &mut [u8]) -> u8
    requires { ImageUnrefused image.old (length memory.old) (length room.old) }
    ensures { ImageShuts image.old memory.old room.old result image.new memory.new room.new }
{
    let sent = answered(image, memory, room);
    image::put_frame(OpenFrame::none(), &mut image[CORE..LENGTH]);
    sent
}

// What a character finds done by its tick, as a poll would do it.
fn polled(image: &mut [u8], tick: u32, pause: u64, memory: &mut [u8], room: &mut [u8]) -> u8
    requires unrefused { ImageUnrefused image.old (length memory.old) (length room.old) }
    requires whole_pause { pause ≡ full_pause (plate_held image.old) }
    ensures { ImagePolls image.old memory.old room.old tick result image.new memory.new room.new }
{
    let left = remaining(&image[CORE..LENGTH], tick, pause);
    if line::is_over(left) {
        return shut(image, memory, room);
    }
    0
}

// 02, Req 03: the character is then the last one, so that the full pause remains.
#[unsafe(no_mangle)]
pub extern "C" fn qs_character(
    image: &mut [u8],
    tick: u32,
    value: u8,
    parity: u8,
    memory: &mut [u8],
    room: &mut [u8],
) -> u64
    ensures { CalledWithSleep image.old memory.old room.old (run.character tick value (differ parity 0)) result image.new memory.new room.new }
{
    let plate = match admitted(image, memory, room) {
        Ok(plate) => plate,
        Err(refusal) => return refusal.answer(),
    };
    let full = plate.full_pause();
    let sent = polled(image, tick, full, memory, room);
    image::take_character(tick, value, parity != 0, &mut image[CORE..LENGTH]);
    answer_number(full, sent)
}

// Most polls find no frame open: they are told so before the pause is reckoned.
#[unsafe(no_mangle)]
pub extern "C" fn qs_poll(image: &mut [u8], tick: u32, memory: &mut [u8], room: &mut [u8]) -> u64
    ensures { CalledWithSleep image.old memory.old room.old (run.poll tick) result image.new memory.new room.new }
{
    let plate = match admitted(image, memory, room) {
        Ok(plate) => plate,
        Err(refusal) => return refusal.answer(),
    };
    if !is_open(&image[CORE..LENGTH]) {
        return answer_number(NO_FRAME_OPEN, 0);
    }
    let left = remaining(&image[CORE..LENGTH], tick, plate.full_pause());
    if line::is_over(left) {
        return answer_number(NO_FRAME_OPEN, shut(image, memory, room));
    }
    answer_number(left.unwrap_or(NO_FRAME_OPEN), 0)
}
