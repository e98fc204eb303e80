// The calls of host/programmer.h: a label tape checked, a run started, the request that is due, a reply taken, how far it has come.
ghost use Rattle.std.specs.Prelude.{◌≡◌, ◌<◌};
ghost use Rattle.programmer.specs.Wishes.{checked_tape, wish_of};
ghost use Rattle.handheld.specs.Entries.{tape_number, start_number, asked_number, given_by, next_by, heard_by, progress_number, progress_by};

use crate::given::{Refusal, taken, tape_number};
use crate::number::run_number;
use bench::Unwritten;
use programmer::{Programmer, Progress};
use wire::codes::LONGEST_REQUEST;

#[unsafe(no_mangle)]
pub extern "C" fn qp_check(tape: &[u8]) -> u64
    ensures { result ≡ tape_number (checked_tape tape.now) }
{
    tape_number(tape)
}

#[unsafe(no_mangle)]
#[tactic(auto, using(crate::proofs::Taking::started_low))]
pub extern "C" fn qp_start(address: u32, tape: &[u8]) -> u64
    ensures { result ≡ start_number address (checked_tape tape.now) }
{
    match Programmer::start(address, tape) {
        Ok(run) => run_number(run),
        Err(why) => Refusal::from(why).number(),
    }
}

fn request_number(asked: Result<Option<usize>, Unwritten>) -> u64
    ensures { result ≡ asked_number asked }
{
    match asked {
        Ok(Some(len)) => len as u64,
        Ok(None) => 0,
        Err(why) => Refusal::from(why).number(),
    }
}

// R4 whether a request is due or not.
#[unsafe(no_mangle)]
#[tactic(auto, using(crate::proofs::Taking::given_low))]
pub extern "C" fn qp_next(run: u64, tape: &[u8], buffer: &mut [u8]) -> u64
    ensures { record { number = result; buffer = buffer.new } ≡ next_by (given_by tape.now run) (wish_of tape.now) buffer.old }
{
    match taken(run, tape) {
        Err(refusal) => refusal.number(),
        Ok(held) => {
            if buffer.len() < LONGEST_REQUEST {
                return Refusal::R4.number();
            }
            request_number(held.next(tape, buffer))
        }
    }
}

#[unsafe(no_mangle)]
#[tactic(auto, using(crate::proofs::Taking::given_low))]
pub extern "C" fn qp_heard(run: u64, tape: &[u8], reply: &[u8]) -> u64
    ensures { result ≡ heard_by (given_by tape.now run) (wish_of tape.now) reply.now }
{
    match taken(run, tape) {
        Err(refusal) => refusal.number(),
        Ok(held) => run_number(held.heard(tape, reply)),
    }
}

// The requests answered in the high 32 bits, all in the low.
fn progress_number(progress: Progress) -> u64
    requires { (progress.answered < 0x80000000) × (progress.all < 0x80000000) }
    ensures { result ≡ progress_number progress }
{
    progress.answered as u64 * 0x100000000 + progress.all as u64
}

#[unsafe(no_mangle)]
#[tactic(auto, using(crate::proofs::Taking::given_low, crate::proofs::Taking::progress_low))]
pub extern "C" fn qp_progress(run: u64, tape: &[u8]) -> u64
    ensures { result ≡ progress_by (given_by tape.now run) (wish_of tape.now) }
{
    match taken(run, tape) {
        Err(refusal) => refusal.number(),
        Ok(held) => progress_number(held.progress(tape)),
    }
}
