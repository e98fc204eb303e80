// Where a tape stands between two of its parts.
ghost use Rattle.passes.specs.Sessions.{AtTapeStart};

use board::Board;
use line::Plate;

// A board at work, and its plate.
#[derive(Clone, Copy)]
pub struct Work {
    pub plate: Plate,
    pub board: Board,
}

// 01, "plate .., first and once": before the plate; a board at work; ended by a bad record, with the board that was at work until then, if one was.
#[derive(Clone, Copy)]
pub enum Phase {
    Opening,
    Running(Work),
    Ended(Option<Work>),
}

// Why a pass stopped: no whole record is left, no space for a line is left, or a record was bad.
#[derive(Clone, Copy, PartialEq, Eq)]
pub enum Stop {
    More,
    Full,
    Over,
}

// The place is that of the next record.
#[derive(Clone, Copy)]
pub struct Session {
    pub phase: Phase,
    pub place: u64,
}

impl Session {
    // A tape at its first byte.
    pub fn start() -> Session
        ensures { AtTapeStart result }
    {
        Session {
            phase: Phase::Opening,
            place: 0,
        }
    }
}
