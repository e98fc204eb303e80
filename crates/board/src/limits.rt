// The board and its limits: R1 to R3 (01, "Named refusals").
ghost use Rattle.std.specs.Prelude.{◌≡◌, true, List, ℕ, length};
ghost use Rattle.meaning.specs.Bytes.{longest_request};
ghost use Rattle.meaning.specs.Run.{Call, lends};
ghost use Rattle.line.specs.Line.{plate_of};
ghost use Rattle.board.specs.Board.{within, taken_if, refusal_on, refused_as};

use crate::calls::Refusal;
use line::{OpenFrame, Plate};
use state::State;
use wire::codes::{LABEL_LENGTH, LONGEST_REPLY, LONGEST_REQUEST};

// All that the board keeps, but for the lent memory and the lent places of the kept bytes.
#[derive(Clone, Copy)]
pub struct Board {
    pub state: State,
    pub frame: OpenFrame,
}

// R1 for the calls that lend nothing, and the first of the three for the others.
pub(crate) fn within_limits(plate: Plate, label: usize, board: Board) -> Result<(), Refusal>
    ensures { (l kept : List ℕ) → length l ≡ label → length kept ≡ longest_request → result ≡ taken_if (within (plate_of plate l) board kept) tt }
{
    if label == LABEL_LENGTH
        && plate.is_ok()
        && usize::from(board.frame.len) <= LONGEST_REQUEST
        && board.state.is_ok(plate.bits)
    {
        return Ok(());
    }
    Err(Refusal::R1)
}

// The first refusal that applies; the sizes are those of the label bytes, of the lent places, of memory and of the reply room.
#[tactic(auto, using(crate::proofs::Bounding::too_few_places, crate::proofs::Bounding::told_r1, crate::proofs::Bounding::told_r2, crate::proofs::Bounding::told_r3, crate::proofs::Bounding::told_none))]
pub fn refusal(
    plate: Plate,
    label: usize,
    board: Board,
    kept: usize,
    memory: usize,
    room: usize,
) -> Result<(), Refusal>
    ensures { (l k m : List ℕ) (g : Call) → length l ≡ label → length k ≡ kept → length m ≡ memory → lends g ≡ true → result ≡ refused_as (refusal_on (plate_of plate l) board k m room g) tt }
{
    if kept != LONGEST_REQUEST {
        return Err(Refusal::R1);
    }
    within_limits(plate, label, board)?;
    if memory as u64 != plate.memory_length() {
        return Err(Refusal::R2);
    }
    if room < LONGEST_REPLY {
        return Err(Refusal::R3);
    }
    Ok(())
}
