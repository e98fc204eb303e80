// What the host calls: a character, a poll, a measured position, a fault, power-on (01, "characters and times in").
// What is lent stays apart: the clauses would name a struct that holds a reference as `x.entry`, and for each `&mut` in it say that it is the caller's.
ghost use Rattle.std.specs.Prelude.{◌≡◌, List, ℕ, ◌≤◌, length};
ghost use Rattle.meaning.specs.Bytes.{longest_request};
ghost use Rattle.meaning.specs.State as meaning;
ghost use Rattle.meaning.specs.State.{last_address};
ghost use Rattle.meaning.specs.Run as run;
ghost use Rattle.line.specs.Line.{plate_of};
ghost use Rattle.board.specs.Board.{state_of, reply_length, unheard, Steps};

use crate::closing::close;
use crate::limits::{Board, refusal, within_limits};
use line::{OpenFrame, Plate};
use state::State;
use std::fmt;

// 01, "Named refusals": R1 to R3, and nothing is changed.
#[derive(Clone, Copy, PartialEq, Eq, Debug)]
pub enum Refusal {
    R1,
    R2,
    R3,
}

impl fmt::Display for Refusal {
    ghost use Rattle.std.specs.Prelude.{Some};
    ghost use Rattle.board.specs.Words.{board_refusal_text};

    ghost output = { λ why. Some (board_refusal_text why) };

    fn fmt<W: fmt::Write>(&self, f: &mut fmt::Formatter<W>) -> fmt::Result {
        match self {
            Refusal::R1 => f.write_str("R1"),
            Refusal::R2 => f.write_str("R2"),
            Refusal::R3 => f.write_str("R3"),
        }
    }
}

// The board after a call; where a frame closed, how many reply bytes stand at the room's front, 0 being silence; and 02, Req 03: how many ticks
// of the open frame's pause remain after the call, None where no frame is open.
#[derive(Clone, Copy)]
pub struct Stepped {
    pub board: Board,
    pub reply: Option<usize>,
    pub remaining: Option<u64>,
}

impl Stepped {
    // How many reply bytes stand at the room's front: 0 is silence, or that no frame closed.
    pub fn reply_length(self) -> usize
        ensures { result ≡ reply_length self }
    {
        self.reply.unwrap_or(0)
    }
}

// 01, "Fresh state", with the plate's address, whatever the label bytes are. Any other number of the plate that is beyond its limits is told by the
// first call.
#[tactic(auto, using(crate::proofs::Stepping::no_line))]
pub fn fresh(plate: Plate) -> Board
    requires { plate.address ≤ last_address }
    ensures { (kept l : List ℕ) → state_of result kept ≡ meaning.fresh (plate_of plate l) }
{
    Board {
        state: State::fresh(plate.address as u8),
        frame: OpenFrame::none(),
    }
}

// A poll: an open frame that is over is closed, and nothing else changes.
pub fn poll(
    plate: Plate,
    label: &[u8],
    board: Board,
    tick: u32,
    kept: &mut [u8],
    memory: &mut [u8],
    room: &mut [u8],
) -> Result<Stepped, Refusal>
    ensures { Steps (plate_of plate label.now) board kept.old memory.old room.old (run.poll tick) result kept.new memory.new room.new }
{
    refusal(
        plate,
        label.len(),
        board,
        kept.len(),
        memory.len(),
        room.len(),
    )?;
    let Board { state, frame } = board;
    let remaining = frame.remaining(plate.full_pause(), tick);
    if !line::is_over(remaining) {
        return Ok(Stepped {
            board,
            reply: None,
            remaining,
        });
    }
    let closed = close(plate, label, state, frame, kept, memory, room);
    Ok(Stepped {
        board: Board {
            state: closed.state,
            frame: OpenFrame::none(),
        },
        reply: Some(usize::from(closed.sent)),
        remaining: None,
    })
}

// A character at its end: first what a poll does by then, so that where the open frame is over the character opens the next. It is the last one
// then, so that the full pause remains.
pub fn character(
    plate: Plate,
    label: &[u8],
    board: Board,
    tick: u32,
    value: u8,
    parity: bool,
    kept: &mut [u8],
    memory: &mut [u8],
    room: &mut [u8],
) -> Result<Stepped, Refusal>
    ensures { Steps (plate_of plate label.now) board kept.old memory.old room.old (run.character tick value parity) result kept.new memory.new room.new }
{
    let polled = poll(plate, label, board, tick, kept, memory, room)?;
    let Board { state, frame } = polled.board;
    let frame = frame.with_character(tick, value, parity, kept);
    Ok(Stepped {
        board: Board { state, frame },
        reply: polled.reply,
        remaining: Some(plate.full_pause()),
    })
}

// 01, "measured, any 32-bit number": kept as given.
pub fn measured(plate: Plate, label: &[u8], board: Board, position: u32) -> Result<Board, Refusal>
    ensures { (kept m w : List ℕ) → length kept ≡ longest_request → Steps (plate_of plate label.now) board kept m w (run.measured position) (unheard result) kept m w }
{
    within_limits(plate, label.len(), board)?;
    let state = board.state.with_measured(position);
    Ok(Board { state, ..board })
}

// 01, "The host notes codes".
pub fn fault(plate: Plate, label: &[u8], board: Board, code: u8) -> Result<Board, Refusal>
    ensures { (kept m w : List ℕ) → length kept ≡ longest_request → Steps (plate_of plate label.now) board kept m w (run.fault code) (unheard result) kept m w }
{
    within_limits(plate, label.len(), board)?;
    Ok(board.note(code))
}

// 01, "Power-on empties the queue, drops an open frame and unlocks; all else stays".
pub fn power_on(plate: Plate, label: &[u8], board: Board) -> Result<Board, Refusal>
    ensures { (kept m w : List ℕ) → length kept ≡ longest_request → Steps (plate_of plate label.now) board kept m w run.power_on (unheard result) kept m w }
{
    within_limits(plate, label.len(), board)?;
    Ok(board.power_on())
}
