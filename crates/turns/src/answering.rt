// One record of a running board: what the board answers, what is printed.
ghost use Rattle.std.specs.Prelude.{◌≡◌, None, Some, List, ℕ, ◌+◌, ◌≤◌, length};
ghost use Rattle.meaning.specs.Characters.{over};
ghost use Rattle.board.specs.Board.{state_of};
ghost use Rattle.tape.specs.Reader.{said_of};
ghost use Rattle.tape.specs.Passes.{longest_line};
ghost use Rattle.turns.specs.Openings.{tape_plate};
ghost use Rattle.turns.specs.Turns.{Sound, runs, quickly, Calls, Turns, Fitting, Answered};

use board::{Board, Stepped};
use line::Plate;
use tape::{Event, NO_LABEL};

// The board after a record, and how much of the output is used.
#[derive(Clone, Copy)]
pub struct Turned {
    pub board: Board,
    pub used: usize,
}

// The record was bad, and its line is printed: the board stays as it was, and so much of the output is used.
#[derive(Clone, Copy)]
pub struct BadRecord {
    pub used: usize,
}

// What the board's call brought, and the tick that its line begins with.
#[derive(Clone, Copy)]
struct Called {
    stepped: Stepped,
    tick: u32,
}

fn closes(plate: Plate, board: Board, tick: u32) -> bool
    ensures { (kept : List ℕ) → result ≡ over (tape_plate plate) (state_of board kept) tick }
{
    line::is_over(board.remaining(plate, tick))
}

// Most records are characters inside a frame, or polls: what closes no frame need not be turned here, since it prints nothing.
pub fn closes_none(plate: Plate, board: Board, event: Event) -> bool
    ensures { (kept : List ℕ) → result ≡ quickly (tape_plate plate) (state_of board kept) (said_of event) }
{
    // In two arms: one for both costs a kept character 28 instructions more, and the answer program is to take no more than it did.
    match event {
        Event::Character { tick, .. } => !closes(plate, board, tick),
        Event::Poll { tick } => !closes(plate, board, tick),
        _ => false,
    }
}

// 01, "per reply": a line for a reply, none for silence.
fn answered(called: Called, reply: &[u8], out: &mut [u8], used: usize) -> Turned
    requires { Fitting called.stepped reply.now out.old used }
    ensures { Answered called reply.now out.old used result out.new }
{
    let board = called.stepped.board;
    let n = called.stepped.reply_length();
    if n == 0 {
        return Turned { board, used };
    }
    let used = tape::reply_line(called.tick, &reply[..n], out, used);
    Turned { board, used }
}

// A call that brings no line, so that its tick is not looked at.
fn unheard(board: Board) -> Option<Called>
    ensures { result ≡ Some (record { stepped = record { board = board; reply = None; remaining = None }; tick = 0 }) }
{
    let stepped = Stepped {
        board,
        reply: None,
        remaining: None,
    };
    Some(Called { stepped, tick: 0 })
}

// The board's call for what a record says; a second plate and an unfit record are none. Only a character and a poll bring a line. R1 to R3 do not
// apply, so that no call is refused.
fn ask(
    plate: Plate,
    board: Board,
    event: Event,
    kept: &mut [u8],
    memory: &mut [u8],
    reply: &mut [u8],
) -> Option<Called>
    requires { Sound plate board kept.old memory.old reply.old }
    ensures { Calls plate board (said_of event) kept.old memory.old reply.old result kept.new memory.new reply.new }
{
    // 02, Req 01: the label bytes, "on the tape they are all zero".
    let none = &NO_LABEL;
    match event {
        Event::Plate { .. } | Event::Unfit => None,
        Event::Character {
            tick,
            value,
            parity,
        } => {
            let stepped = board::character(
                plate, none, board, tick, value, parity, kept, memory, reply,
            ).unwrap();
            Some(Called { stepped, tick })
        }
        Event::Poll { tick } => {
            let stepped = board::poll(plate, none, board, tick, kept, memory, reply).unwrap();
            Some(Called { stepped, tick })
        }
        Event::Measured { position } => {
            unheard(board::measured(plate, none, board, position).unwrap())
        }
        Event::Fault { code } => unheard(board::fault(plate, none, board, code).unwrap()),
        Event::PowerOn => unheard(board::power_on(plate, none, board).unwrap()),
    }
}

// Any record of a running board: what the board answers is printed; a record that does not fit, or a second plate, is bad. The lent buffers go one by
// one: a struct that held them would need a clause in each contract that it still holds the same ones.
pub fn turn(
    plate: Plate,
    board: Board,
    place: u64,
    event: Event,
    kept: &mut [u8],
    memory: &mut [u8],
    reply: &mut [u8],
    out: &mut [u8],
    used: usize,
) -> Result<Turned, BadRecord>
    requires within_limits { Sound plate board kept.old memory.old reply.old }
    requires line_fits { used + longest_line ≤ length out.old }
    ensures { Turns plate board (runs plate board kept.old memory.old) place (said_of event) kept.old reply.old out.old used result kept.new memory.new reply.new out.new }
{
    let Some(called) = ask(plate, board, event, kept, memory, reply) else {
        let used = tape::bad_line(place, out, used);
        return Err(BadRecord { used });
    };
    Ok(answered(called, reply, out, used))
}
