// The status byte (01, "Status byte"): what board and programmer read of it.
ghost use Rattle.std.specs.Prelude.{◌≡◌, ◌<◌};
ghost use Rattle.meaning.specs.Fields.{blocks, code_no, writable, exists, attributes};

// Bits 0 to 2: blocks less one.
#[tactic(auto, unfolding(meaning::specs::Fields::blocks))]
pub fn blocks_in(status: u8) -> u8
    ensures { result ≡ blocks status }
{
    status % 8 + 1
}

// Bits 4 and 5.
#[tactic(auto, unfolding(meaning::specs::Fields::code_no))]
pub fn code_number(status: u8) -> u8
    ensures { (result ≡ code_no status) × (result < 4) }
{
    status / 16 % 4
}

// Bit 6: write-enabled.
#[tactic(auto, unfolding(meaning::specs::Fields::writable))]
pub fn is_writable(status: u8) -> bool
    ensures { result ≡ writable status }
{
    status / 64 % 2 == 1
}

// Bit 7: exists.
#[tactic(auto, unfolding(meaning::specs::Fields::exists))]
pub fn has_field(status: u8) -> bool
    ensures { result ≡ exists status }
{
    128 <= status
}

// Bits 0 to 6: all that a status tells of its field beside that it exists (000, "all status bits (except bit 7)").
#[tactic(auto, unfolding(meaning::specs::Fields::attributes))]
pub fn attributes_in(status: u8) -> u8
    ensures { result ≡ attributes status }
{
    status % 128
}
