// A pass over the bytes at hand, and the end of the tape.
ghost use Rattle.std.specs.Prelude.{◌≡◌, List, ℕ, ◌+◌, ◌≤◌, ◌<◌, ◌^◌, length};
ghost use Rattle.tape.specs.Passes.{closing};
ghost use Rattle.tape.specs.Text.{longest_bad_line};
ghost use Rattle.tape.specs.Reader.{Printed, said_of};
ghost use Rattle.turns.specs.Turns.{Quiet};
ghost use Rattle.passes.specs.Sessions.{stage_of, TakesQuickly, eaten_by, pass_at, lent_at, Plays, Playable, Lends, GoesOn, EndsBad, ReadyForPass, Eats};

use crate::beginning::{Begun, begin};
use crate::session::{Phase, Session, Stop, Work};
use board::Board;
use line::Plate;
use tape::{Event, LONGEST_LINE};
use turns::{closes_none, hear, turn};

// A running board after a pass: how far the window was read, how much of the output is used.
#[derive(Clone, Copy)]
pub(crate) struct Played {
    pub board: Board,
    pub at: usize,
    pub used: usize,
    pub stop: Stop,
}

#[derive(Clone, Copy)]
pub struct Eaten {
    pub session: Session,
    pub read: usize,
    pub used: usize,
    pub stop: Stop,
}

// Written as literals the three ends of `play` would make it half as long again.
fn halt(board: Board, at: usize, used: usize, stop: Stop) -> Played
    ensures { result ≡ record { board = board; at = at; used = used; stop = stop } }
{
    Played {
        board,
        at,
        used,
        stop,
    }
}

// A record that closes no frame: a character is taken in, a poll changes nothing.
fn taken_in(plate: Plate, board: Board, event: Event, kept: &mut [u8]) -> Board
    requires { TakesQuickly plate board (said_of event) kept.old }
    ensures { Quiet plate board kept.old (said_of event) result kept.new }
{
    let Event::Character {
        tick,
        value,
        parity,
    } = event
    else {
        return board;
    };
    board.with_character(tick, value, parity, kept)
}

// `place` is that of the window's first byte; the records are taken from where the board works on, while there is space for a line: the loop counts
// nothing, its place goes from record to record.
fn play(
    begun: Begun,
    place: u64,
    window: &[u8],
    kept: &mut [u8],
    memory: &mut [u8],
    reply: &mut [u8],
    out: &mut [u8],
    start: usize,
) -> Played
    requires { Playable begun.work.plate begun.work.board place window.now begun.from kept.old memory.old reply.old out.old start }
    ensures { Plays begun.work.plate (pass_at begun.work.plate begun.work.board place window.now begun.from kept.old memory.old out.old start)
        (lent_at begun.work.plate begun.work.board place window.now begun.from kept.old memory.old reply.old out.old start) begun.from window.now out.old start result kept.new memory.new reply.new out.new }
{
    let plate = begun.work.plate;
    let mut board = begun.work.board;
    let mut at = begun.from;
    let mut used = start;
    while LONGEST_LINE <= out.len() - used {
        let Some(heard) = hear(window, at) else {
            return halt(board, at, used, Stop::More);
        };
        let event = heard.event;
        if closes_none(plate, board, event) {
            board = taken_in(plate, board, event, kept);
            at = heard.next;
            continue;
        }
        let here = place + at as u64;
        match turn(plate, board, here, event, kept, memory, reply, out, used) {
            Ok(turned) => {
                board = turned.board;
                used = turned.used;
                at = heard.next;
            }
            Err(bad) => return halt(board, at, bad.used, Stop::Over),
        }
    }
    halt(board, at, used, Stop::Full)
}

// Where the tape stands after a running board's pass.
fn after_pass(plate: Plate, place: u64, end: Played) -> Eaten
    requires { place + end.at < 2 ^ 64 }
    ensures { result ≡ eaten_by plate place end }
{
    let work = Work {
        plate,
        board: end.board,
    };
    let phase = match end.stop {
        Stop::More | Stop::Full => Phase::Running(work),
        Stop::Over => Phase::Ended(Some(work)),
    };
    Eaten {
        session: Session {
            phase,
            place: place + end.at as u64,
        },
        read: end.at,
        used: end.used,
        stop: end.stop,
    }
}

// A pass of a board at work, over the front of the lent memory that its plate gives it.
fn go_on(
    begun: Begun,
    place: u64,
    window: &[u8],
    kept: &mut [u8],
    memory: &mut [u8],
    reply: &mut [u8],
    out: &mut [u8],
    used: usize,
) -> Eaten
    requires { Lends begun.work.plate begun.work.board place window.now begun.from kept.old memory.old reply.old out.old used }
    ensures { GoesOn begun.work.plate begun.work.board place window.now begun.from kept.old memory.old reply.old out.old used result kept.new memory.new reply.new out.new }
{
    let plate = begun.work.plate;
    let size = plate.memory_length() as usize;
    let end = play(
        begun,
        place,
        window,
        kept,
        &mut memory[..size],
        reply,
        out,
        used,
    );
    after_pass(plate, place, end)
}

// 01, "prints the line `bad N` .. and ends", where the first record is bad.
fn refuse(place: u64, out: &mut [u8], used: usize) -> Eaten
    requires { used + longest_bad_line ≤ length out.old }
    ensures { EndsBad place out.old used result out.new }
{
    Eaten {
        session: Session {
            phase: Phase::Ended(None),
            place,
        },
        read: 0,
        used: tape::bad_line(place, out, used),
        stop: Stop::Over,
    }
}

// A pass over the window: as many whole records as there is space for lines. The lines go behind those that the output holds. The lent buffers go one
// by one: a struct that held them would need a clause in each contract that it still holds the same ones.
pub fn eat(
    session: Session,
    window: &[u8],
    kept: &mut [u8],
    memory: &mut [u8],
    reply: &mut [u8],
    out: &mut [u8],
    used: usize,
) -> Eaten
    requires { ReadyForPass session window.now kept.old memory.old reply.old out.old used }
    ensures { Eats session window.now kept.old memory.old reply.old out.old used result kept.new memory.new reply.new out.new }
{
    let place = session.place;
    if let Phase::Running(work) = session.phase {
        let begun = Begun { work, from: 0 };
        return go_on(begun, place, window, kept, memory, reply, out, used);
    }
    match begin(window, out.len() - used) {
        Ok(begun) => go_on(begun, place, window, kept, memory, reply, out, used),
        // By a test: after an arm for Stop::Over a proof does not know of the next that it is another.
        Err(stop) => {
            if stop == Stop::Over {
                return refuse(place, out, used);
            }
            Eaten {
                session,
                read: 0,
                used,
                stop,
            }
        }
    }
}

// The end of the tape: bytes that are left are a record cut short.
pub fn finish(session: Session, rest: &[u8], out: &mut [u8], used: usize) -> usize
    requires { used + longest_bad_line ≤ length out.old }
    ensures { (kept m : List ℕ) → Printed (closing (stage_of session kept m) session.place rest.now) out.old used result out.new }
{
    if rest.is_empty() {
        return used;
    }
    if let Phase::Ended(_) = session.phase {
        return used;
    }
    tape::bad_line(session.place, out, used)
}
