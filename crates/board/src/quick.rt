// Most characters and polls close no frame: they touch the open frame's numbers and a kept byte, and a board at work need not try its refusals
// anew. Who makes many calls asks here first (01, "Characters become frames").
ghost use Rattle.std.specs.Prelude.{◌≡◌, true, List, ℕ};
ghost use Rattle.meaning.specs.Characters.{remaining};
ghost use Rattle.line.specs.Line.{plate_of, remaining_of};
ghost use Rattle.board.specs.Board.{state_of, fits_in};
ghost use Rattle.board.specs.Quick.{TakesIn};

use crate::limits::Board;
use line::Plate;

impl Board {
    pub fn is_open(self) -> bool
        ensures { (kept : List ℕ) → result ≡ (state_of self kept).line.begun }
    {
        self.frame.begun
    }

    // How much of the open frame's pause remains at that tick: a character or a poll that finds it over closes the frame, and is left to
    // `character` or `poll`.
    pub fn remaining(self, plate: Plate, tick: u32) -> Option<u64>
        ensures { (kept l : List ℕ) → remaining_of result ≡ remaining (plate_of plate l) (state_of self kept) tick }
    {
        self.frame.remaining(plate.full_pause(), tick)
    }

    // A character that closes no frame, taken in.
    pub fn with_character(self, tick: u32, value: u8, parity: bool, kept: &mut [u8]) -> Board
        requires { fits_in self kept.old ≡ true }
        ensures { TakesIn self kept.old tick value parity result kept.new }
    {
        let frame = self.frame.with_character(tick, value, parity, kept);
        Board { frame, ..self }
    }
}
