// Writing a request (01, "Named refusals", R4 and R5).
ghost use Rattle.std.specs.Prelude.{◌≡◌, true};
ghost use Rattle.meaning.specs.Commands.{command_of};
ghost use Rattle.meaning.specs.Bench.{address_ok, address_for, allowed, writes};
ghost use Rattle.bench.specs.Outcomes.{written_of};

use std::fmt;
use wire::codes::{BROADCAST, LAST_ADDRESS, LONGEST_REQUEST, MOST_COUNT};

// Why no request is written; the buffer is untouched then.
#[derive(Clone, Copy, PartialEq, Eq, Debug)]
pub enum Unwritten {
    R4,
    R5,
}

impl fmt::Display for Unwritten {
    ghost use Rattle.std.specs.Prelude.{Some};
    ghost use Rattle.bench.specs.Words.{unwritten_text};

    ghost output = { λ u. Some (unwritten_text u) };

    fn fmt<W: fmt::Write>(&self, f: &mut fmt::Formatter<W>) -> fmt::Result {
        match self {
            Unwritten::R4 => f.write_str("R4"),
            Unwritten::R5 => f.write_str("R5"),
        }
    }
}

// 01, "It writes a request for an address 0 to 31 or broadcast": broadcast is the number 255.
#[tactic(auto, unfolding(meaning::specs::Bench::address_ok))]
pub fn address_ok(address: u32) -> bool
    ensures { result ≡ address_ok address }
{
    address <= u32::from(LAST_ADDRESS) || address == 255
}

// By meaning's `address_for`: wire's `own_byte` speaks of a board and its address in force.
#[tactic(auto, using(crate::proofs::Laws::address_small), unfolding(meaning::specs::Bench::address_for))]
fn address_byte(address: u32) -> u8
    requires { address_ok address ≡ true }
    ensures { result ≡ address_for address }
{
    if address == 255 {
        return BROADCAST;
    }
    0x40 + address as u8
}

// R5: "4Ah's count 0 or over 128; 4Fh's number over 3. Not otherwise".
pub(crate) fn is_allowed(command: u8, body: &[u8]) -> bool
    ensures { result ≡ allowed (command_of command) body.now }
{
    let Some(row) = wire::row_of(command) else {
        return false;
    };
    if !wire::length_fits(row.request, body, body.len()) {
        return false;
    }
    match command {
        0x4A => (1..=MOST_COUNT).contains(&wire::byte_at(body, 2)),
        0x4F => wire::byte_at(body, 0) <= 3,
        _ => true,
    }
}

// Address, command and body go by themselves, as C hands them in. R4 before R5. `address` is 0 to 31, or 255 for broadcast. The length of the request that fills the front of the buffer.
#[tactic(auto, using(crate::proofs::Laws::request_fits, crate::proofs::Laws::request_length), unfolding(meaning::specs::Bench::writes, meaning::specs::Bench::request))]
pub fn write_request(
    address: u32,
    command: u8,
    body: &[u8],
    buffer: &mut [u8],
) -> Result<usize, Unwritten>
    ensures { written_of result buffer.new ≡ writes address command body.now buffer.old }
{
    if buffer.len() < LONGEST_REQUEST {
        return Err(Unwritten::R4);
    }
    if !address_ok(address) {
        return Err(Unwritten::R5);
    }
    if !is_allowed(command, body) {
        return Err(Unwritten::R5);
    }
    wire::write(address_byte(address), command, body, buffer);
    Ok(body.len() + 3)
}
