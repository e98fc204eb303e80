// The judge of a closed frame, steps 1 to 6 (01, "A closed frame is then judged in this order").
ghost use Rattle.std.specs.Prelude.{◌≡◌};
ghost use Rattle.line.specs.Line.{frame_of};
ghost use Rattle.line.specs.Judge.{is_silent, judgement_of, code_to_answer, addressed};

use crate::characters::OpenFrame;
use wire::codes::{BROADCAST, ErrorCode};

// An enum, as 01 has the judge answer: each case has a sequel of its own. Too short; for another address; an error code to answer; a command, as its byte, whose data has its row's length.
#[derive(Clone, Copy, PartialEq, Eq)]
pub enum Judgement {
    Short,
    Elsewhere,
    Fault(ErrorCode),
    Request(u8),
}

impl Judgement {
    // The error code to answer, 00h where there is none, which `board::refuse` answers with silence.
    pub fn code(self) -> u8
        ensures { result ≡ code_to_answer self }
    {
        match self {
            Judgement::Fault(code) => code.byte,
            Judgement::Short | Judgement::Elsewhere | Judgement::Request(_) => 0,
        }
    }
}

#[tactic(auto, unfolding(crate::specs::Judge::addressed))]
fn is_addressed(to: u8, own: u8) -> bool
    ensures { result ≡ addressed to own }
{
    to == own || to == BROADCAST
}

// 01, "judged in this order", 1: fewer than three bytes, or for another board, as most frames on a bus are.
#[tactic(auto, unfolding(crate::specs::Judge::is_silent))]
pub fn is_silent(own: u8, bytes: &[u8]) -> bool
    ensures { result ≡ is_silent own bytes.now }
{
    bytes.len() < 3 || !is_addressed(bytes[0], own)
}

impl OpenFrame {
    // `own` is the board's own address byte, `bytes` the kept ones.
    pub fn judged(self, own: u8, bytes: &[u8]) -> Judgement
        ensures { result ≡ judgement_of own (frame_of self bytes.now) }
    {
        if bytes.len() < 3 {
            return Judgement::Short;
        }
        if !is_addressed(bytes[0], own) {
            return Judgement::Elsewhere;
        }
        if self.parity {
            return Judgement::Fault(ErrorCode::PARITY_ERROR);
        }
        if self.sum != 0 {
            return Judgement::Fault(ErrorCode::CHECKSUM_ERROR);
        }
        if self.longer {
            return Judgement::Fault(ErrorCode::WRONG_LENGTH);
        }
        let command = bytes[1];
        let Some(row) = wire::row_of(command) else {
            return Judgement::Fault(ErrorCode::UNKNOWN_COMMAND);
        };
        let request = wire::data_part(bytes);
        if wire::length_fits(row.request, request, request.len()) {
            return Judgement::Request(command);
        }
        Judgement::Fault(ErrorCode::WRONG_LENGTH)
    }
}
