// The answer program: reads a tape on standard input and prints the replies (01, "The answer program"). The bytes at hand lie in a window of
// 65,536 bytes and the lines are gathered in an output of as many, so a tape may have any length. What is printed of a window is proved in the
// crate `passes`; what is read and written is tested. Where input or output fails, `streams` has told it, and the program stops.
#![tactic(auto)]

mod streams;

ghost use Rattle.std.specs.Prelude.{◌≡◌, [], ◌≤◌, length, IfOk};
ghost use Rattle.answer.specs.Program.{is_over, Leaves, Buffers};
ghost use Rattle.tape.specs.Text.{longest_bad_line};
ghost use Rattle.passes.specs.Sessions.{ReadyForPass};

use passes::{Phase, Session, Stop};
use streams::{Failed, flush, refill};
use tape::LONGEST_BAD_LINE;
use wire::codes::{LONGEST_REPLY, LONGEST_REQUEST};

// What a window came to: where the tape stands, how far the window was read, how much of the output is used.
#[derive(Clone, Copy)]
struct Fed {
    session: Session,
    at: usize,
    used: usize,
}

// No more is eaten: a record was bad, or the place is one that no tape has, 2 to the 63 and more.
fn is_over(session: Session) -> bool
    ensures { result ≡ is_over session }
{
    session.place >= 1 << 63 || matches!(session.phase, Phase::Ended(_))
}

// The buffers go one by one, as `passes` takes them. Eats what the window has, and writes the output whenever it is full. Each pass that is stopped for want of space has read a record, so the
// window's length bounds the turns. Where the output cannot be written, no more is eaten.
fn feed(
    rt: HostRuntime,
    first: Session,
    window: &[u8],
    kept: &mut [u8],
    memory: &mut [u8],
    reply: &mut [u8],
    out: &mut [u8],
    start: usize,
) -> Result<Fed, Failed>
    requires ready { ReadyForPass first [] kept.old memory.old reply.old out.old start }
    requires window_size { length window.now ≤ 65536 }
    ensures { IfOk result (λ r. Leaves r window.now kept.new memory.new reply.new out.new) }
{
    let mut session = first;
    let mut at = 0;
    let mut used = start;
    'passes: for _ in 0..=window.len() {
        if is_over(session) {
            return Ok(Fed { session, at, used });
        }
        let eaten = passes::eat(session, &window[at..], kept, memory, reply, out, used);
        session = eaten.session;
        at += eaten.read;
        used = eaten.used;
        if eaten.stop != Stop::Full {
            return Ok(Fed { session, at, used });
        }
        flush(rt, &out[..used])?;
        used = 0;
    }
    Ok(Fed { session, at, used })
}

// The end of the tape: what is left is a record cut short, and the output is written.
fn end(
    rt: HostRuntime,
    session: Session,
    rest: &[u8],
    out: &mut [u8],
    used: usize,
) -> Result<(), Failed>
    requires { (used ≤ length out.old) × (longest_bad_line ≤ length out.old) }
{
    let mut start = used;
    if out.len() - used < LONGEST_BAD_LINE {
        flush(rt, &out[..used])?;
        start = 0;
    }
    let last = passes::finish(session, rest, out, start);
    flush(rt, &out[..last])
}

fn run(
    rt: HostRuntime,
    window: &mut [u8],
    kept: &mut [u8],
    memory: &mut [u8],
    reply: &mut [u8],
    out: &mut [u8],
) -> Result<(), Failed>
    requires { Buffers window.old kept.old memory.old reply.old out.old }
{
    let mut session = Session::start();
    // So many bytes stand at the window's front: `have` and no slice, for the window is filled and moved between.
    let mut have = 0;
    let mut used = tape::first_line(out, 0);
    // The turns are counted only because a loop has to end.
    'windows: for _ in 0..u64::MAX {
        let read = match refill(rt, &mut window[have..]) {
            Ok(Some(count)) => count,
            Ok(None) => return end(rt, session, &window[..have], out, used),
            // What was answered so far is written. The tape has not ended, so that the rest is no record cut short.
            Err(failed) => {
                flush(rt, &out[..used])?;
                return Err(failed);
            }
        };
        let total = have + read;
        let bytes = &window[..total];
        let fed = feed(rt, session, bytes, kept, memory, reply, out, used)?;
        session = fed.session;
        used = fed.used;
        if let Phase::Ended(_) = session.phase {
            return flush(rt, &out[..used]);
        }
        window.copy_within(fed.at..total, 0);
        have = total - fed.at;
    }
    Ok(())
}

fn main(rt: HostRuntime) {
    let mut window = [0u8; 65536];
    let mut out = [0u8; 65536];
    let mut kept = [0u8; LONGEST_REQUEST];
    let mut memory = [0u8; 1904];
    let mut reply = [0u8; LONGEST_REPLY];
    // What failed has been told.
    let _ = run(
        rt,
        &mut window,
        &mut kept,
        &mut memory,
        &mut reply,
        &mut out,
    );
}
