// The request that is due at a step (02, Req 04). The tape goes as the host lends it, at every call: a struct round it would be made anew at each. Address and buffer go by themselves: they are the bench's own arguments, and a struct of both would be taken apart at each call.
ghost use Rattle.std.specs.Prelude.{◌≡◌, ◌∷◌, []};
ghost use Rattle.meaning.specs.Bench.{writes};
ghost use Rattle.bench.specs.Outcomes.{written_of};
ghost use Rattle.programmer.specs.Wishes.{code_for, wish_of};
ghost use Rattle.programmer.specs.Steps.{due};
ghost use Rattle.programmer.specs.Steps as steps;
ghost use Rattle.programmer.specs.Reading.{Wants};

use crate::step::Step;
use crate::wish::{Wanted, find};
use bench::Unwritten;

// A wanted field, or status 00h and no bytes past the last, as `Wishes.wanted` has it for every number.
#[tactic(auto, using(crate::proofs::Asking::wants_found, crate::proofs::Asking::wants_none))]
pub fn wanted(tape: &[u8], field: u8) -> Wanted<'_>
    ensures { Wants (wish_of tape.now) field result }
{
    match find(tape, usize::from(field)) {
        Some(wanted) => wanted,
        None => Wanted {
            status: 0,
            bytes: &tape[..0],
        },
    }
}

// The code that a status names, by the tape: the codes stand at place 4.
#[tactic(auto, using(crate::proofs::Asking::code_is))]
fn code_for(tape: &[u8], status: u8) -> u8
    ensures { result ≡ code_for (wish_of tape.now) status }
{
    wire::byte_at(tape, 4 + usize::from(wire::code_number(status)))
}

// "Read-only fields are created write-enabled".
#[tactic(auto, unfolding(crate::specs::Steps::enabled))]
fn enabled(status: u8) -> u8
    ensures { result ≡ steps.enabled status }
{
    if wire::is_writable(status) {
        return status;
    }
    status + 64
}

// 4Dh.
fn shape(
    address: u32,
    field: u8,
    status: u8,
    code: u8,
    buffer: &mut [u8],
) -> Result<usize, Unwritten>
    ensures { written_of result buffer.new ≡ writes address 0x4D (field ∷ status ∷ code ∷ []) buffer.old }
{
    let body = [field, status, code];
    bench::write_request(address, 0x4D, &body, buffer)
}

// 4Ch.
fn look(address: u32, field: u8, buffer: &mut [u8]) -> Result<usize, Unwritten>
    ensures { written_of result buffer.new ≡ writes address 0x4C (field ∷ []) buffer.old }
{
    let body = [field];
    bench::write_request(address, 0x4C, &body, buffer)
}

// 4Bh of a whole field. By `fill`: copy_from_slice looks at addresses of 64 bits, which a Cortex-M has not.
fn store(address: u32, tape: &[u8], field: u8, buffer: &mut [u8]) -> Result<usize, Unwritten>
    ensures { written_of result buffer.new ≡ writes address 0x4B (due (wish_of tape.now) (Step.Store field)).body buffer.old }
{
    let wanted = wanted(tape, field);
    let count = wanted.bytes.len();
    let mut body = [0; 132];
    body[0] = field;
    body[2] = count as u8;
    body[3] = code_for(tape, wanted.status);
    wire::fill(wanted.bytes, &mut body[4..]);
    let len = 4 + count;
    bench::write_request(address, 0x4B, &body[..len], buffer)
}

// 4Ah of a whole field.
#[tactic(auto, unfolding(crate::specs::Steps::due))]
fn fetch(address: u32, tape: &[u8], field: u8, buffer: &mut [u8]) -> Result<usize, Unwritten>
    ensures { written_of result buffer.new ≡ writes address 0x4A (due (wish_of tape.now) (Step.Read field)).body buffer.old }
{
    let wanted = wanted(tape, field);
    let count = wanted.bytes.len() as u8;
    let body = [field, 0, count, code_for(tape, wanted.status)];
    bench::write_request(address, 0x4A, &body, buffer)
}

// R4 before R5, as the bench has them.
#[tactic(auto, unfolding(crate::specs::Steps::due))]
pub fn ask(address: u32, tape: &[u8], step: Step, buffer: &mut [u8]) -> Result<usize, Unwritten>
    ensures { written_of result buffer.new ≡ writes address (due (wish_of tape.now) step).command (due (wish_of tape.now) step).body buffer.old }
{
    match step {
        Step::Count => bench::write_request(address, 0x4E, &[], buffer),
        Step::Look { field } => look(address, field, buffer),
        Step::Remove { field, status } => {
            shape(
                address,
                field,
                wire::attributes_in(status),
                code_for(tape, status),
                buffer,
            )
        }
        Step::Create { field } => {
            let status = wanted(tape, field).status;
            shape(
                address,
                field,
                enabled(status),
                code_for(tape, status),
                buffer,
            )
        }
        Step::Store { field } => store(address, tape, field, buffer),
        Step::Read { field } => fetch(address, tape, field, buffer),
        Step::Lock { field } => {
            let status = wanted(tape, field).status;
            shape(address, field, status, code_for(tape, status), buffer)
        }
    }
}
