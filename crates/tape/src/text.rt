// The lines that are printed: `tick reply`, a reply, `bad N` (01, "It prints the line").
ghost use Rattle.std.specs.Prelude.{◌≡◌, ◌+◌, ◌*◌, ◌≤◌, ◌<◌, length};
ghost use Rattle.tape.specs.Text.{decimal_of, digit_of, hex_of, reply_line, first_line, bad_line, bare_line, first_length, longest_bad_line};
ghost use Rattle.tape.specs.Reader.{Printed};

// The longest line: a tick of ten digits, 134 bytes of a reply, and the line's end; and the longest of a bad record: `bad `, a place of twenty digits,
// and the line's end.
pub const LONGEST_LINE: usize = 413;

pub const LONGEST_BAD_LINE: usize = 25;

// Here and below the output and the place reached in it go as two: a struct that held the output would need a clause in each contract that it still
// holds the same one.
fn copy(s: &[u8], out: &mut [u8], at: usize) -> usize
    requires { at + length s.now ≤ length out.old }
    ensures { Printed s.now out.old at result out.new }
{
    let end = at + s.len();
    out[at..end].copy_from_slice(s);
    end
}

// A tick, or the place of a record, in decimal.
fn decimal(n: u64, out: &mut [u8], at: usize) -> usize
    requires { at + length (decimal_of n) ≤ length out.old }
    ensures { Printed (decimal_of n) out.old at result out.new }
{
    let mut digits = [0; 20];
    let start = itoa::write_digits(n, &mut digits, 20);
    copy(&digits[start..], out, at)
}

#[tactic(auto, unfolding(crate::specs::Text::digit_of))]
fn digit(n: u8) -> u8
    requires { n < 16 }
    ensures { result ≡ digit_of n }
{
    if n < 10 { b'0' + n } else { b'A' - 10 + n }
}

// Each byte as a space and two digits. By place and not by `write!`: the space is shown beforehand, and a formatter would bring an error that cannot come.
fn hex(s: &[u8], out: &mut [u8], at: usize) -> usize
    requires { at + 3 * length s.now ≤ length out.old }
    ensures { Printed (hex_of s.now) out.old at result out.new }
{
    let mut to = at;
    for b in s {
        out[to] = b' ';
        out[to + 1] = digit(*b / 16);
        out[to + 2] = digit(*b % 16);
        to += 3;
    }
    to
}

// 01, "the event's tick in decimal and the bytes in hex".
pub fn reply_line(tick: u32, reply: &[u8], out: &mut [u8], at: usize) -> usize
    requires { at + 3 * length reply.now + bare_line ≤ length out.old }
    ensures { Printed (reply_line tick reply.now) out.old at result out.new }
{
    let from = decimal(u64::from(tick), out, at);
    let end = hex(reply, out, from);
    out[end] = b'\n';
    end + 1
}

#[tactic(auto, unfolding(crate::specs::Text::first_line))]
pub fn first_line(out: &mut [u8], at: usize) -> usize
    requires { at + first_length ≤ length out.old }
    ensures { Printed first_line out.old at result out.new }
{
    copy(b"tick reply\n", out, at)
}

// 01, "N being the decimal place of the record's first byte".
pub fn bad_line(place: u64, out: &mut [u8], at: usize) -> usize
    requires { at + longest_bad_line ≤ length out.old }
    ensures { Printed (bad_line place) out.old at result out.new }
{
    let from = copy(b"bad ", out, at);
    let end = decimal(place, out, from);
    out[end] = b'\n';
    end + 1
}
