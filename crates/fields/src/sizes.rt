// Numbers of blocks and bytes.
ghost use Rattle.std.specs.Prelude.{◌≡◌, ◌≤◌};
ghost use Rattle.meaning.specs.Fields.{bytes_of};

// 01, "a block is 16 bytes".
pub(crate) const BLOCK: usize = 16;

// A name for the product, which several places ask for.
pub(crate) fn bytes_of(blocks: usize) -> usize
    requires { blocks ≤ 65535 }
    ensures { result ≡ bytes_of blocks }
{
    BLOCK * blocks
}
