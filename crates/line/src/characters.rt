// The open frame's numbers, how much of its pause remains, and one more character (01, "Characters become frames"). The kept bytes are lent, and written in place.
ghost use Rattle.std.specs.Prelude.{◌≡◌, ℕ, List};
ghost use Rattle.meaning.specs.Bytes.{pick};
ghost use Rattle.meaning.specs.State.{Plate, State, none};
ghost use Rattle.meaning.specs.Characters.{full_pause, remaining, ran_out, more};
ghost use Rattle.line.specs.Line.{line_of, remaining_of, no_frame, Fits, Starts, Extends};

use crate::stamps::gap;
use wire::codes::LONGEST_REQUEST;

// Whether a frame is open, the stamp of its last character, how many of its bytes are kept, the XOR of all of them, whether more than
// 135 came, and whether a character had a parity fault. The kept bytes are lent by C in places of their own, so that their number stands here. `begun` stands beside the numbers, since an image keeps the unused ones too (`frame_in`
// and `put_frame` of image).
#[derive(Clone, Copy)]
pub struct OpenFrame {
    pub begun: bool,
    pub last: u32,
    pub len: u8,
    pub sum: u8,
    pub longer: bool,
    pub parity: bool,
}

// A frame is over exactly if no tick is left (02, Req 03); None where no frame is open.
pub fn is_over(left: Option<u64>) -> bool
    ensures { result ≡ ran_out (remaining_of left) }
{
    matches!(left, Some(0))
}

impl OpenFrame {
    pub fn none() -> OpenFrame
        ensures { result ≡ no_frame }
    {
        OpenFrame {
            begun: false,
            last: 0,
            len: 0,
            sum: 0,
            longer: false,
            parity: false,
        }
    }

    // How many ticks of the pause remain, None where no frame is open (02, Req 03): the one number that character and poll share; `pause` is
    // the plate's full pause. Ruling of 01: equality closes, so that it is 0 then.
    #[tactic(auto, unfolding(meaning::specs::Characters::remaining))]
    pub fn remaining(self, pause: u64, tick: u32) -> Option<u64>
        ensures { (p : Plate) (s : State) (kept : List ℕ) → pause ≡ full_pause p → s.line ≡ line_of self kept → remaining_of result ≡ remaining p s tick }
    {
        if !self.begun {
            return None;
        }
        let since = u64::from(gap(self.last, tick));
        // Compared first: with `saturating_sub` a kept character takes seven instructions more, which is over its limit.
        if pause <= since {
            return Some(0);
        }
        Some(pause - since)
    }
}

impl OpenFrame {
    // With no frame open a character starts from an empty one, whatever the unused numbers say.
    #[tactic(auto, unfolding(meaning::specs::State::none))]
    fn current(self) -> OpenFrame
        ensures { Starts self result }
    {
        if self.begun {
            return self;
        }
        OpenFrame::none()
    }

    // 01, "Up to 135 bytes are kept; of a longer frame the XOR of all its bytes, the fact that it is longer and any parity fault".
    #[tactic(auto, using(crate::proofs::Kept::has_room, crate::proofs::Kept::has_none))]
    fn push(self, tick: u32, value: u8, parity: bool, kept: &mut [u8]) -> OpenFrame
        requires { Fits self kept.old }
        ensures { Extends (more (line_of self kept.old) tick value parity) kept.old result kept.new }
    {
        let next = OpenFrame {
            begun: true,
            last: tick,
            sum: self.sum ^ value,
            parity: self.parity | parity,
            ..self
        };
        let at = usize::from(self.len);
        if at < LONGEST_REQUEST {
            kept[at] = value;
            return OpenFrame {
                len: self.len + 1,
                ..next
            };
        }
        OpenFrame {
            longer: true,
            ..next
        }
    }

    // One more character: where there is room its byte goes to the next of the lent places. Tick, value and parity go by themselves, as C hands them in and
    // meaning's `more` takes them.
    pub fn with_character(self, tick: u32, value: u8, parity: bool, kept: &mut [u8]) -> OpenFrame
        requires { Fits self kept.old }
        ensures { Extends (more (pick self.begun (line_of self kept.old) none) tick value parity) kept.old result kept.new }
    {
        self.current().push(tick, value, parity, kept)
    }
}
