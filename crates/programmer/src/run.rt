// The programmer, held by value (02, Req 04). The host sends and receives between `next` and `heard`.
ghost use Rattle.std.specs.Prelude.{◌≡◌};
ghost use Rattle.programmer.specs.Wishes.{checked_tape, wish_of};
ghost use Rattle.programmer.specs.Running.{started_by, asked_of, asks, hears};
ghost use Rattle.programmer.specs.declared.run.StartRefusal.TheVariants.{Tape};

use crate::request::ask;
use crate::step::{Standing, Step};
use crate::turn::on_verdict;
use crate::wish::{TapeFault, check};
use bench::{Piece, Unwritten};
use wire::codes::LONGEST_REQUEST;

// The address is that of the board, 0 to 31, or 255 for broadcast; `present` is how many fields the board had, as far as it has told.
#[derive(Clone, Copy, PartialEq, Eq, Debug)]
pub struct Programmer {
    pub address: u32,
    pub present: u32,
    pub standing: Standing,
}

// "Refusals, in order: bad tape record; body not the field's size": the tape's fault. Then R5, an address that the bench does not write.
#[derive(Clone, Copy, PartialEq, Eq, Debug)]
pub enum StartRefusal {
    Tape(TapeFault),
    R5,
}

impl From<TapeFault> for StartRefusal {
    ghost from_gives = { λ fault refusal. refusal ≡ Tape fault };

    fn from(fault: TapeFault) -> StartRefusal {
        StartRefusal::Tape(fault)
    }
}

impl Programmer {
    pub fn start(address: u32, tape: &[u8]) -> Result<Programmer, StartRefusal>
        ensures { result ≡ started_by address (checked_tape tape.now) }
    {
        check(tape)?;
        if !bench::address_ok(address) {
            return Err(StartRefusal::R5);
        }
        Ok(Programmer {
            address,
            present: 0,
            standing: Standing::At(Step::Count),
        })
    }

    // Writes the request that is due, and tells its length; nothing, where nothing is due any more.
    #[tactic(auto, unfolding(crate::specs::Running::asks))]
    pub fn next(self, tape: &[u8], buffer: &mut [u8]) -> Result<Option<usize>, Unwritten>
        ensures { asked_of result buffer.new ≡ asks self.address (wish_of tape.now) self.standing buffer.old }
    {
        let Standing::At(step) = self.standing else {
            return Ok(None);
        };
        let len = ask(self.address, tape, step, buffer)?;
        Ok(Some(len))
    }

    // Takes the reply that came, empty for silence. The request is written anew, so that nobody's copy of it is trusted.
    pub fn heard(self, tape: &[u8], reply: &[u8]) -> Programmer
        ensures { result ≡ hears (wish_of tape.now) self reply.now }
    {
        let Standing::At(step) = self.standing else {
            return self;
        };
        let mut request = [0; LONGEST_REQUEST];
        let len = ask(self.address, tape, step, &mut request).unwrap_or(0);
        let asked = &request[..len];
        let judged = bench::judge(asked, reply);
        let Piece { from, count } = Piece::of(judged, reply.len());
        let end = from + count;
        let next = on_verdict(tape, step, judged, &reply[from..end]);
        Programmer {
            address: self.address,
            present: self.present.max(next.still_there()),
            standing: next,
        }
    }
}
