// The plate's numbers and their limits (01, "Plate"); its label bytes are lent (02, Req 01).
ghost use Rattle.std.specs.Prelude.{◌≡◌, ℕ, List, [], ◌∷◌, length};
ghost use Rattle.meaning.specs.Bytes.{among};
ghost use Rattle.meaning.specs.State.{label_length, plate_ok};
ghost use Rattle.meaning.specs.Characters.{full_pause};
ghost use Rattle.meaning.specs.Fields.{memory_length};
ghost use Rattle.line.specs.Line.{plate_of};

use wire::codes::LAST_ADDRESS;

// Total blocks, position bits, address, ticks per bit, pause in bit times: wide enough that a host loses no bits on the way.
#[derive(Clone, Copy)]
pub struct Plate {
    pub total: u32,
    pub bits: u32,
    pub address: u32,
    pub ticks: u32,
    pub pause: u32,
}

impl Plate {
    // R1 where it does not hold, whatever the 41 label bytes are.
    #[tactic(auto, unfolding(meaning::specs::State::plate_ok))]
    pub fn is_ok(self) -> bool
        ensures { (l : List ℕ) → length l ≡ label_length → result ≡ plate_ok (plate_of self l) }
    {
        matches!(self.total, 1..=112)
            && matches!(self.bits, 1..=32)
            && self.address <= u32::from(LAST_ADDRESS)
            && ticks_ok(self.ticks)
            && pause_ok(self.pause)
    }

    // 01, "pause × ticks-per-bit": the gap that closes a frame, in ticks.
    #[tactic(auto, unfolding(meaning::specs::Characters::full_pause))]
    pub fn full_pause(self) -> u64
        ensures { (l : List ℕ) → result ≡ full_pause (plate_of self l) }
    {
        u64::from(self.pause) * u64::from(self.ticks)
    }

    // 01, "Memory": 16T data bytes, then T status bytes.
    pub fn memory_length(self) -> u64
        ensures { result ≡ memory_length self.total }
    {
        let total = u64::from(self.total);
        16 * total + total
    }
}

// A power of two has one bit set: told so in fewer instructions than by a list of the seven, which puts a kept character over its limit.
#[tactic(auto, using(crate::proofs::Powers::one_bit, crate::proofs::Powers::too_few, crate::proofs::Powers::too_many))]
fn ticks_ok(ticks: u32) -> bool
    ensures { result ≡ among ticks (1 ∷ 2 ∷ 4 ∷ 8 ∷ 16 ∷ 32 ∷ 64 ∷ []) }
{
    matches!(ticks, 1..=64) && ticks & (ticks - 1) == 0
}

#[tactic(auto, unfolding(meaning::specs::Bytes::among))]
fn pause_ok(pause: u32) -> bool
    ensures { result ≡ among pause (22 ∷ 55 ∷ []) }
{
    matches!(pause, 22 | 55)
}
