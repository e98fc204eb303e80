// Stamps of the tick count, a 32-bit number that wraps around (01, "The tick count"): the library's wrapping numbers, in the words of the contracts.
ghost use Rattle.std.specs.Prelude.{◌≡◌, ◌+◌, ◌%◌, ◌^◌};
ghost use Rattle.meaning.specs.Characters as characters;

// 01, "a gap is taken modulo 2^32": a clock stepped back by one tick reads as a very long gap.
#[tactic(auto, unfolding(meaning::specs::Characters::gap))]
pub(crate) fn gap(from: u32, to: u32) -> u32
    ensures { result ≡ characters.gap from to }
{
    to.wrapping_sub(from)
}

// The stamp of a character whose end comes so many ticks after a stamp.
pub fn stamp_after(tick: u32, spacing: u32) -> u32
    ensures { result ≡ (tick + spacing) % 2 ^ 32 }
{
    tick.wrapping_add(spacing)
}
