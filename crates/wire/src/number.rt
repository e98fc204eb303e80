// A number from its four bytes and back, the low byte first (01, "Numbers little-endian"): the library's, in the words of the contracts.
ghost use Rattle.std.specs.Prelude.{◌≡◌, ◌∷◌, [], ◌+◌, ◌≤◌, length};
ghost use Rattle.meaning.specs.Bytes.{part, little};
ghost use Rattle.wire.specs.Numbers.{low4};

pub fn number_at(s: &[u8], at: usize) -> u32
    requires { at + 4 ≤ length s.now }
    ensures { result ≡ little (part s.now at 4) }
{
    u32::from_le_bytes([s[at], s[at + 1], s[at + 2], s[at + 3]])
}

pub fn bytes_of(n: u32) -> [u8; 4]
    ensures { result ≡ low4 n [] }
{
    n.to_le_bytes()
}
