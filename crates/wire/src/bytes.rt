// Bytes and parts of a lent list.
ghost use Rattle.std.specs.Prelude.{◌≡◌, ◌+◌, ◌≤◌, length, take};
ghost use Rattle.meaning.specs.Bytes.{arg};
ghost use Rattle.meaning.specs.Bytes as bytes;
ghost use Rattle.meaning.specs.Frames.{data_of};

// Byte i, 00h past the end.
pub fn byte_at(s: &[u8], i: usize) -> u8
    ensures { result ≡ arg s.now i }
{
    s.get(i).copied().unwrap_or(0)
}

// The first n bytes, or all where there are fewer.
pub fn front(s: &[u8], n: usize) -> &[u8]
    ensures value { result.now ≡ take n s.now }
    ensures place { result.ref_ptr ≡ s.entry.ref_ptr }
{
    &s[..n.min(s.len())]
}

// 01, "A frame is address, command, data, checksum".
#[tactic(auto, unfolding(meaning::specs::Frames::data_of))]
pub fn data_part(frame: &[u8]) -> &[u8]
    requires { 3 ≤ length frame.now }
    ensures value { result.now ≡ data_of frame.now }
    ensures place { result.ref_ptr ≡ (frame.entry.ref_ptr.0, 2 + frame.entry.ref_ptr.1) }
{
    let end = frame.len() - 1;
    &frame[2..end]
}

// B6 and read-back: two lists compared. A function, for bench and programmer have it in their contracts' words.
pub fn same(a: &[u8], b: &[u8]) -> bool
    ensures { result ≡ bytes.same a.now b.now }
{
    a == b
}
