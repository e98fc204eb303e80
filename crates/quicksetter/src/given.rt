// What goes from the board to C as numbers: a refusal, a reply's length with how long the host may sleep.
ghost use Rattle.std.specs.Prelude.{◌≡◌, ◌+◌, ◌*◌, ◌<◌};

// A refusal's number is counted from here.
pub const REFUSED: usize = 0x100;
// That of a character and a poll, with the sleep of a refused call in its high 32 bits.
pub const REFUSED_ANSWER: u64 = 0xFFFFFFFE00000100;
// 02, Req 03: the sleep while no frame is open.
pub const NO_FRAME_OPEN: u64 = 0xFFFFFFFF;

// The number of a character and of a poll: the sleep in its high 32 bits, the reply's length in its low ones.
pub(crate) fn answer_number(sleep: u64, reply: u8) -> u64
    requires { sleep < 0x100000000 }
    ensures { result ≡ sleep * 0x100000000 + reply }
{
    sleep * 0x100000000 + u64::from(reply)
}
