// What an exchange came to, in words on standard output.
use exchange::{Heard, Refusal};
use std::{fmt, io};

// Bytes with a space before each. They are printed as one text: one by one they cost 2.4 times as many instructions.
#[derive(Clone, Copy)]
struct Bytes<'a> {
    bytes: &'a [u8],
}

impl fmt::Display for Bytes<'_> {
    fn fmt<W: fmt::Write>(&self, f: &mut fmt::Formatter<W>) -> fmt::Result {
        for &byte in self.bytes {
            write!(f, " {byte:02X}")?;
        }
        Ok(())
    }
}

fn say_reply(rt: HostRuntime, bytes: &[u8]) -> io::Result<()> {
    if bytes.is_empty() {
        return print!(rt; ", silence");
    }
    let reply = Bytes { bytes };
    print!(rt; ", reply{reply}")
}

// The request and its reply as bytes, and the verdict; or why nothing was sent.
pub(crate) fn say_ended(
    rt: HostRuntime,
    ended: Result<Heard, Refusal>,
    request: &[u8],
    room: &[u8],
) -> io::Result<()> {
    let heard = match ended {
        Ok(heard) => heard,
        Err(why) => return println!(rt; "not sent: {why}"),
    };
    let sent = Bytes {
        bytes: wire::front(request, heard.request),
    };
    print!(rt; "request{sent}")?;
    say_reply(rt, wire::front(room, heard.reply))?;
    match heard.verdict {
        Ok(verdict) => println!(rt; ": {verdict}"),
        Err(why) => println!(rt; ": refused {why}"),
    }
}
