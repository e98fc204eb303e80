// What a host hands in, and why a call is refused.
ghost use Rattle.std.specs.Prelude.{◌≡◌, ◌<◌};
ghost use Rattle.programmer.specs.Wishes.{checked_tape};
ghost use Rattle.handheld.specs.Entries.{place_of, told_number, tape_number, start_refusal, unwritten_refusal, given_by};
ghost use Rattle.handheld.specs.declared.given.Refusal.TheVariants.{Tape};

use crate::number::{run_in, run_number};
use bench::Unwritten;
use programmer::{Programmer, StartRefusal, TapeFault};

// The tape's fault; a number that no run of this tape has; a buffer that is too short; an address that the bench does not write.
#[derive(Clone, Copy, PartialEq, Eq, Debug)]
pub enum Refusal {
    Tape(TapeFault),
    R3,
    R4,
    R5,
}

impl From<TapeFault> for Refusal {
    ghost from_gives = { λ fault refusal. refusal ≡ Tape fault };

    fn from(fault: TapeFault) -> Refusal {
        Refusal::Tape(fault)
    }
}

impl From<StartRefusal> for Refusal {
    ghost from_gives = { λ why refusal. refusal ≡ start_refusal why };

    fn from(why: StartRefusal) -> Refusal {
        match why {
            StartRefusal::Tape(fault) => Refusal::Tape(fault),
            StartRefusal::R5 => Refusal::R5,
        }
    }
}

impl From<Unwritten> for Refusal {
    ghost from_gives = { λ why refusal. refusal ≡ unwritten_refusal why };

    fn from(why: Unwritten) -> Refusal {
        match why {
            Unwritten::R4 => Refusal::R4,
            Unwritten::R5 => Refusal::R5,
        }
    }
}

// Bit 31 is set in no run, length or progress.
const REFUSED: u64 = 0x80000000;

impl Refusal {
    // As C is told it: host/programmer.h has these numbers, with the place of a record in the high 32 bits.
    pub(crate) fn number(self) -> u64
        requires { place_of self < 0x100000000 }
        ensures { result ≡ told_number self }
    {
        match self {
            Refusal::Tape(TapeFault::BadRecord { at }) => at as u64 * 0x100000000 + (REFUSED + 1),
            Refusal::Tape(TapeFault::WrongSize { at }) => at as u64 * 0x100000000 + (REFUSED + 2),
            Refusal::R3 => REFUSED + 3,
            Refusal::R4 => REFUSED + 4,
            Refusal::R5 => REFUSED + 5,
        }
    }
}

#[tactic(auto, using(crate::proofs::Taking::placed_low))]
pub(crate) fn tape_number(tape: &[u8]) -> u64
    ensures { result ≡ tape_number (checked_tape tape.now) }
{
    match programmer::check(tape) {
        Ok(()) => 0,
        Err(fault) => Refusal::Tape(fault).number(),
    }
}

// A run of this tape: the tape's faults come first, then whether this tape has such a run.
#[tactic(auto, using(crate::proofs::Taking::given_other, crate::proofs::Taking::given_run))]
pub(crate) fn taken(run: u64, tape: &[u8]) -> Result<Programmer, Refusal>
    ensures { result ≡ given_by tape.now run }
{
    programmer::check(tape)?;
    let held = run_in(run);
    if run_number(held) != run {
        return Err(Refusal::R3);
    }
    if !held.is_possible(tape) {
        return Err(Refusal::R3);
    }
    Ok(held)
}
