// Standard input and standard output. What cannot be read or written is told on standard error at once.
ghost use Rattle.std.specs.Prelude.{◌≤◌, length, IfOk, IfSome};

use std::io;
use std::io::{Cursor, ErrorKind, Read, Write};

const UNREAD: &str = "answer: standard input cannot be read: ";

const UNWRITTEN: &str = "answer: standard output cannot be written: ";

// Input or output failed, and that has been told.
#[derive(Clone, Copy)]
pub(crate) struct Failed;

// A signal came before a byte was moved. That is no failure, and no end: the call is made again.
fn is_interrupted(why: &io::Error) -> bool {
    why.kind() == ErrorKind::Interrupted
}

// The reason as text, without its number, which std puts behind it in brackets.
fn reason(why: &io::Error, text: &mut [u8; 128]) -> usize
    ensures { result ≤ 128 }
{
    if write!(Cursor::new(text.as_mut_slice()), "{why}").is_err() {
        return 0;
    }
    match text.iter().position(|b| *b == b'(' || *b == 0) {
        Some(end) if text[end] == 0 => end,
        Some(bracket) => bracket.saturating_sub(1),
        None => text.len(),
    }
}

// A line on standard error: what failed, and why. Nobody is left to be told of one that cannot be written.
fn tell(rt: HostRuntime, what: &str, why: &io::Error) {
    let mut text = [0u8; 128];
    let count = reason(why, &mut text);
    let mut errors = rt.stderr();
    let _what = errors.write_all(what.as_bytes());
    let _why = errors.write_all(&text[..count]);
    let _end = errors.write_all(b"\n");
}

// One read: so many bytes, or None at the end of the tape. It need not fill the room: a failure is then seen by the read that failed, and no bytes
// that came before it wait for it.
pub(crate) fn refill(rt: HostRuntime, room: &mut [u8]) -> Result<Option<usize>, Failed>
    ensures { IfOk result (λ r. IfSome r (λ n. n ≤ length room.old)) }
{
    match rt.stdin().read(room) {
        Ok(0) => Ok(None),
        Ok(count) => Ok(Some(count)),
        Err(why) => {
            if is_interrupted(&why) {
                return Ok(Some(0));
            }
            tell(rt, UNREAD, &why);
            Err(Failed)
        }
    }
}

// One write: so many bytes. One that takes nothing has failed.
fn put(rt: HostRuntime, rest: &[u8]) -> Result<usize, Failed>
    ensures { IfOk result (λ n. n ≤ length rest.now) }
{
    match rt.stdout().write(rest) {
        Ok(0) => {
            tell(rt, UNWRITTEN, &io::Error::from(ErrorKind::WriteZero));
            Err(Failed)
        }
        Ok(count) => Ok(count),
        Err(why) => {
            if is_interrupted(&why) {
                return Ok(0);
            }
            tell(rt, UNWRITTEN, &why);
            Err(Failed)
        }
    }
}

// Writes all of the text. The turns are counted only because a loop has to end.
pub(crate) fn flush(rt: HostRuntime, text: &[u8]) -> Result<(), Failed> {
    let mut rest = text;
    for _ in 0..u64::MAX {
        if rest.is_empty() {
            return Ok(());
        }
        let count = put(rt, rest)?;
        rest = &rest[count..];
    }
    Err(Failed)
}
