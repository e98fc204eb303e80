// The commands that tell the plate's label bytes, which are lent (02, Req 01). Room and label come as the caller has them, as in rows.rt. Reply data goes to place 2 of the room on.
ghost use Rattle.std.specs.Prelude.{◌≡◌, List, ℕ, ◌≤◌, length};
ghost use Rattle.meaning.specs.Bytes.{longest_reply};
ghost use Rattle.meaning.specs.State.{Plate, Line, label_length};
ghost use Rattle.meaning.specs.Commands.{c52, c56};
ghost use Rattle.state.specs.declared.state.State.{State};
ghost use Rattle.state.specs.Rows.{Answers};

use crate::effects::Effect;
use crate::rows::{Worked, accepted, put_data};
use wire::codes::{ErrorCode, LABEL_LENGTH, TYPE_LABEL};

// 52h: the type label.
pub fn read_label(label: &[u8], room: &mut [u8]) -> Result<Worked, ErrorCode>
    requires { (length label.now ≡ label_length) × (longest_reply ≤ length room.old) }
    ensures { (p : Plate) (s : State) (l : Line) (m d : List ℕ) → p.label ≡ label.now → Answers c52 p s l m d room.old result room.new }
{
    put_data(&label[..TYPE_LABEL], room);
    accepted(Effect::Nothing, 4)
}

// 56h: serial number, program version and date. They go by an array, whose length is known, so that they are copied in a few steps and not byte by byte.
pub fn read_version(label: &[u8], room: &mut [u8]) -> Result<Worked, ErrorCode>
    requires { (length label.now ≡ label_length) × (longest_reply ≤ length room.old) }
    ensures { (p : Plate) (s : State) (l : Line) (m d : List ℕ) → p.label ≡ label.now → Answers c56 p s l m d room.old result room.new }
{
    let mut told = [0u8; LABEL_LENGTH - TYPE_LABEL];
    wire::fill(&label[TYPE_LABEL..LABEL_LENGTH], &mut told);
    put_data(&told, room);
    accepted(Effect::Nothing, 37)
}
