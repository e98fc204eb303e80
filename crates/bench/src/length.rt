// How long a reply will be, told by the request and the reply's first two bytes (01, column "Reply data").
ghost use Rattle.std.specs.Prelude.{◌≡◌};
ghost use Rattle.bench.specs.Lengths.{known, done_length, expected_length};

use crate::reply::{Refusal, command_fits, is_error, is_written};
use wire::{Length, data_part};

// Address, command and checksum are three bytes; `asked` is the request's data, whose third byte is the count. 53h has no reply (000, "Encoder Reset").
fn done_length(command: u8, asked: &[u8]) -> Result<usize, Refusal>
    ensures { known result ≡ done_length command asked.now }
{
    let row = wire::row_of(command).ok_or(Refusal::B5)?;
    match row.reply {
        Length::Exactly(n) => Ok(3 + n),
        Length::Counted(n) => Ok(3 + n + usize::from(wire::byte_at(asked, 2))),
        Length::Never => Err(Refusal::B5),
    }
}

// B0, B4 and B5 as far as the first two bytes decide them; the address, B3, tells nothing of the length. None: not known yet.
// An error reply has one byte of data, its code.
#[tactic(auto, unfolding(crate::specs::Lengths::expected_length, meaning::specs::Bench::written, meaning::specs::Bench::bare, meaning::specs::Bench::error_reply, meaning::specs::Frames::command_byte))]
pub fn reply_length(request: &[u8], begun: &[u8]) -> Result<Option<usize>, Refusal>
    ensures { result ≡ expected_length request.now begun.now }
{
    if !is_written(request) {
        return Err(Refusal::B0);
    }
    if begun.len() < 2 {
        return Ok(None);
    }
    if !command_fits(request[1], begun[1]) {
        return Err(Refusal::B4);
    }
    if is_error(request[1], begun[1]) {
        return Ok(Some(4));
    }
    let length = done_length(request[1], data_part(request))?;
    Ok(Some(length))
}
