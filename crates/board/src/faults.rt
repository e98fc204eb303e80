// The fault queue of a board: a value whose note, read and power-on methods take self and hand the new board back (01, "Faults").
ghost use Rattle.std.specs.Prelude.{◌≡◌, List, ℕ};
ghost use Rattle.meaning.specs.State.{noted, powered_on};
ghost use Rattle.board.specs.Board.{state_of, ReadsOldest};

use crate::limits::Board;
use line::OpenFrame;
use state::Oldest;

impl Board {
    // 01, "The host notes codes".
    pub fn note(self, code: u8) -> Board
        ensures { (kept : List ℕ) → state_of result kept ≡ noted (state_of self kept) code }
    {
        let frame = self.frame;
        let state = self.state.note(code);
        Board { state, frame }
    }

    // 01, row 50h.
    pub fn read(self) -> Oldest<Board>
        ensures { ReadsOldest self result }
    {
        let frame = self.frame;
        let oldest = self.state.read();
        let state = oldest.rest;
        Oldest {
            code: oldest.code,
            rest: Board { state, frame },
        }
    }

    // 01, "Power-on empties the queue, drops an open frame and unlocks; all else stays".
    pub fn power_on(self) -> Board
        ensures { (kept : List ℕ) → state_of result kept ≡ powered_on (state_of self kept) }
    {
        let frame = OpenFrame::none();
        let state = self.state.power_on();
        Board { state, frame }
    }
}
