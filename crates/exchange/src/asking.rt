// One request and its reply (01, "The bench", "Named refusals").
ghost use Rattle.std.specs.Prelude.{◌≡◌, List, ℕ};
ghost use Rattle.line.specs.Line.{plate_of};
ghost use Rattle.exchange.specs.Calls.{Clear};
ghost use Rattle.exchange.specs.Passing.{Asks, Converses, Passes};

use crate::sending::send;
use bench::{Unwritten, Verdict};
use board::Board;
use line::Plate;
use std::fmt;

// Why nothing was sent, in the order of the tests: R1 to R3 of the board; a frame is open already; the spacing is not below the pause, so
// that it would close the frame; R4 and R5 of the bench, last because the request is then written.
#[derive(Clone, Copy, PartialEq, Eq, Debug)]
pub enum Refusal {
    Board(board::Refusal),
    FrameOpen,
    TooSlow,
    Bench(Unwritten),
}

impl From<board::Refusal> for Refusal {
    ghost use Rattle.std.specs.Prelude.{◌≡◌};
    ghost use Rattle.exchange.specs.declared.asking.Refusal.TheVariants as refusal;

    ghost from_gives = { λ why e. e ≡ refusal.Board why };

    fn from(why: board::Refusal) -> Refusal {
        Refusal::Board(why)
    }
}

impl From<Unwritten> for Refusal {
    ghost use Rattle.std.specs.Prelude.{◌≡◌};
    ghost use Rattle.exchange.specs.declared.asking.Refusal.TheVariants as refusal;

    ghost from_gives = { λ why e. e ≡ refusal.Bench why };

    fn from(why: Unwritten) -> Refusal {
        Refusal::Bench(why)
    }
}

impl fmt::Display for Refusal {
    ghost use Rattle.std.specs.Prelude.{Some};
    ghost use Rattle.exchange.specs.Words.{unsent_text};

    ghost output = { λ why. Some (unsent_text why) };

    fn fmt<W: fmt::Write>(&self, f: &mut fmt::Formatter<W>) -> fmt::Result {
        match *self {
            Refusal::Board(why) => write!(f, "{why}"),
            Refusal::FrameOpen => f.write_str("a frame is open"),
            Refusal::TooSlow => f.write_str("too slow"),
            Refusal::Bench(why) => write!(f, "{why}"),
        }
    }
}

// The board afterwards; the lengths of request and reply, which stand at the fronts of their buffers, lent on by then; and what the bench makes of the reply.
#[derive(Clone, Copy)]
pub struct Heard {
    pub board: Board,
    pub request: usize,
    pub reply: usize,
    pub verdict: Result<Verdict, bench::Refusal>,
}

// On a clear line: the characters, a poll one pause after the last, and the bench's verdict on what came back.
fn converse(
    plate: Plate,
    label: &[u8],
    board: Board,
    tick: u32,
    apart: u32,
    asked: &[u8],
    kept: &mut [u8],
    memory: &mut [u8],
    room: &mut [u8],
) -> Heard
    requires { Clear (plate_of plate label.now) board apart asked.now kept.old memory.old room.old }
    ensures { (n c : ℕ) (d : List ℕ) → Asks n c d asked.now → Converses (plate_of plate label.now) board n c d kept.old memory.old room.old result kept.new memory.new room.new }
{
    let sent = send(plate, label, board, tick, apart, asked, kept, memory, room);
    let over = line::stamp_after(sent.last, plate.full_pause() as u32);
    let closed = board::poll(plate, label, sent.board, over, kept, memory, room).unwrap();
    let reply = closed.reply_length();
    let verdict = bench::judge(asked, &room[..reply]);
    Heard {
        board: closed.board,
        request: asked.len(),
        reply,
        verdict,
    }
}

// The request for `address` (0 to 31, or 255 for broadcast) is written into `request`, sent from `tick` on with its characters `apart` ticks
// from one another, and closed by a poll after the pause. `kept`, `memory` and `room` are the board's. For another board's address silence follows, B1.
// Refused, nothing is changed.
pub fn exchange(
    plate: Plate,
    label: &[u8],
    board: Board,
    address: u32,
    command: u8,
    body: &[u8],
    tick: u32,
    apart: u32,
    request: &mut [u8],
    kept: &mut [u8],
    memory: &mut [u8],
    room: &mut [u8],
) -> Result<Heard, Refusal>
    ensures { Passes (plate_of plate label.now) board address command body.now apart request.old kept.old memory.old room.old result request.new kept.new memory.new room.new }
{
    board::refusal(
        plate,
        label.len(),
        board,
        kept.len(),
        memory.len(),
        room.len(),
    )?;
    if board.is_open() {
        return Err(Refusal::FrameOpen);
    }
    if plate.full_pause() <= u64::from(apart) {
        return Err(Refusal::TooSlow);
    }
    let len = bench::write_request(address, command, body, request)?;
    let asked = &request[..len];
    Ok(converse(plate, label, board, tick, apart, asked, kept, memory, room))
}
