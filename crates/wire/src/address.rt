// The byte of a board's address: 40h + a (01, "Board address byte"; 000, table 30).
ghost use Rattle.std.specs.Prelude.{◌≡◌, ◌≤◌};
ghost use Rattle.meaning.specs.State.{State, own_byte, board_byte};

// For the frame judge and for the reply; `address` is the one in force.
#[tactic(auto, unfolding(meaning::specs::State::own_byte))]
pub fn own_byte(address: u8) -> u8
    requires { address ≤ 31 }
    ensures { (s : State) → s.address ≡ address → result ≡ own_byte s }
{
    0x40 + address
}

#[tactic(auto, unfolding(meaning::specs::State::board_byte))]
pub fn is_board(byte: u8) -> bool
    ensures { result ≡ board_byte byte }
{
    matches!(byte, 0x40..=0x5F)
}
