// The checksum: the XOR of all bytes before it (000, 2.3.3).
ghost use Rattle.std.specs.Prelude.{◌≡◌};
ghost use Rattle.meaning.specs.Bytes.{xor_from, xor_all};

#[tactic(auto, using(crate::proofs::Laws::xor_more), unfolding(meaning::specs::Bytes::xor_from))]
pub(crate) fn xor_from(start: u8, s: &[u8]) -> u8
    ensures { result ≡ xor_from start s.now }
{
    let mut sum = start;
    for byte in s {
        sum ^= byte;
    }
    sum
}

#[tactic(auto, unfolding(meaning::specs::Bytes::xor_all))]
pub fn xor_of(s: &[u8]) -> u8
    ensures { result ≡ xor_all s.now }
{
    xor_from(0, s)
}
