// The image of a fresh board, and that of a board that was off (01, "Fresh state", "Power-on"). C hands the plate's five numbers in one by one, at both.
ghost use Rattle.std.specs.Prelude.{◌≡◌, ◌≤◌, length, true, eqb};
ghost use Rattle.meaning.specs.Bytes.{both, longest_request, zeros};
ghost use Rattle.meaning.specs.State.{last_count, none, plate_ok};
ghost use Rattle.line.specs.Line.{plate_of};
ghost use Rattle.state.specs.State.{state_with};
ghost use Rattle.image.specs.Image.{image_length, core_length, core_of};
ghost use Rattle.quicksetter.specs.Calls.{plate_from, image_of, Freshens, Restarts};

use crate::refusals::Refusal;
use image::{CORE, CORE_LENGTH, KEPT, LASTING_LENGTH, LENGTH};
use line::{OpenFrame, Plate};
use state::State;
use wire::codes::{LABEL_LENGTH, LONGEST_REQUEST};

// Every byte of the core is written, so what stood there before does not matter.
fn put_core(state: State, core: &mut [u8])
    requires counter_limit { state.counter ≤ last_count }
    requires whole_core { length core.old ≡ core_length }
    ensures { core.new ≡ core_of (state_with state none) (zeros longest_request) }
{
    let places = [0u8; LONGEST_REQUEST];
    wire::fill(&places, &mut core[KEPT..CORE_LENGTH]);
    image::put_board(state, OpenFrame::none(), core);
}

// R1 of a plate, its label and the bytes that an image is made in.
fn has_place(plate: Plate, label: &[u8], image: &[u8]) -> bool
    ensures { result ≡ both (plate_ok (plate_of plate label.now)) (eqb (length image.now) image_length) }
{
    if image.len() != LENGTH || label.len() != LABEL_LENGTH {
        return false;
    }
    plate.is_ok()
}

// A possible plate and state are written as an image.
fn make(plate: Plate, label: &[u8], state: State, image: &mut [u8])
    requires possible_plate { plate_ok (plate_of plate label.now) ≡ true }
    requires counter_limit { state.counter ≤ last_count }
    requires whole_image { length image.old ≡ image_length }
    ensures { image.new ≡ image_of (plate_of plate label.now) (state_with state none) (zeros longest_request) }
{
    image::put_head(plate, label, image);
    put_core(state, &mut image[CORE..LENGTH]);
}

#[unsafe(no_mangle)]
pub extern "C" fn qs_fresh(
    total: u32,
    bits: u32,
    address: u32,
    ticks: u32,
    pause: u32,
    label: &[u8],
    image: &mut [u8],
) -> usize
    ensures { Freshens (plate_of (plate_from total bits address ticks pause) label.now) image.old result image.new }
{
    let plate = Plate {
        total,
        bits,
        address,
        ticks,
        pause,
    };
    if !has_place(plate, label, image) {
        return Refusal::R1.number();
    }
    make(plate, label, State::fresh(address as u8), image);
    0
}

// From the bytes that the host kept: codes, counter, address and offset. The host then gives the measured position.
#[unsafe(no_mangle)]
pub extern "C" fn qs_restart(
    total: u32,
    bits: u32,
    address: u32,
    ticks: u32,
    pause: u32,
    label: &[u8],
    lasting: &[u8],
    image: &mut [u8],
) -> usize
    ensures { Restarts (plate_of (plate_from total bits address ticks pause) label.now) lasting.now image.old result image.new }
{
    let plate = Plate {
        total,
        bits,
        address,
        ticks,
        pause,
    };
    if lasting.len() != LASTING_LENGTH || !has_place(plate, label, image) {
        return Refusal::R1.number();
    }
    let state = image::lasting_in(lasting);
    if !state.is_ok(plate.bits) {
        return Refusal::R1.number();
    }
    make(plate, label, state, image);
    0
}
