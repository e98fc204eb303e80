// The table of the commands: lengths of request and reply data, and how many bytes the reply repeats (01, "The commands").
ghost use Rattle.std.specs.Prelude.{◌≡◌, List, ℕ, length};
ghost use Rattle.meaning.specs.Bytes.{arg};
ghost use Rattle.meaning.specs.Commands.{counted, length_fits, row, command_of};
ghost use Rattle.wire.specs.Table.{length_of, row_of};

use crate::bytes::byte_at;
use crate::codes::MOST_COUNT;

// So many bytes; so many and the request's count, 1 to 128, more; no length fits.
#[derive(Clone, Copy, PartialEq, Eq)]
pub enum Length {
    Exactly(usize),
    Counted(usize),
    Never,
}

// Of a command that is there.
#[derive(Clone, Copy, PartialEq, Eq)]
pub struct Row {
    pub request: Length,
    pub reply: Length,
    pub repeats: usize,
}

// 53h has no reply (000, "Encoder Reset"). 52h, 55h and 56h by 000, tables 28, 30 and 31 (02, Req 01). None: an unknown command.
// A command stays the byte of the wire, and no enum: every byte is asked about here, `on_memory`, `on_state` and `send` promise their answers by it, and a reply repeats it.
#[tactic(auto, unfolding(meaning::specs::Commands::command_of, meaning::specs::Commands::row))]
pub fn row_of(command: u8) -> Option<Row>
    ensures { row_of result ≡ row (command_of command) }
{
    let (request, reply, repeats) = match command {
        0x42 => (Length::Exactly(0), Length::Exactly(4), 0),
        0x43 => (Length::Exactly(5), Length::Exactly(0), 0),
        0x46 => (Length::Exactly(0), Length::Exactly(3), 0),
        0x47 => (Length::Exactly(0), Length::Exactly(0), 0),
        0x49 => (Length::Exactly(1), Length::Exactly(0), 0),
        0x4A => (Length::Exactly(4), Length::Counted(3), 3),
        0x4B => (Length::Counted(4), Length::Exactly(3), 3),
        0x4C => (Length::Exactly(1), Length::Exactly(2), 1),
        0x4D => (Length::Exactly(3), Length::Exactly(2), 2),
        0x4E => (Length::Exactly(0), Length::Exactly(2), 0),
        0x4F => (Length::Exactly(3), Length::Exactly(1), 1),
        0x50 => (Length::Exactly(0), Length::Exactly(1), 0),
        0x52 => (Length::Exactly(0), Length::Exactly(4), 0),
        0x53 => (Length::Exactly(0), Length::Never, 0),
        0x55 => (Length::Exactly(2), Length::Exactly(0), 0),
        0x56 => (Length::Exactly(0), Length::Exactly(37), 0),
        _ => return None,
    };
    Some(Row {
        request,
        reply,
        repeats,
    })
}

fn counted_fits(base: usize, count: u8, n: usize) -> bool
    ensures { (d x : List ℕ) → arg d 2 ≡ count → length x ≡ n → result ≡ length_fits (counted base) d x }
{
    if n <= base {
        return false;
    }
    let more = n - base;
    if usize::from(MOST_COUNT) < more {
        return false;
    }
    more == usize::from(count)
}

// `request` is the request's data, whose third byte is the count; `n` the length that is looked at.
#[tactic(auto, unfolding(meaning::specs::Commands::length_fits))]
pub fn length_fits(wanted: Length, request: &[u8], n: usize) -> bool
    ensures { (x : List ℕ) → length x ≡ n → result ≡ length_fits (length_of wanted) request.now x }
{
    match wanted {
        Length::Exactly(k) => n == k,
        Length::Counted(k) => counted_fits(k, byte_at(request, 2), n),
        Length::Never => false,
    }
}
