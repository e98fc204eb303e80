// The commands (01, "judged in this order", 7): those on the lent memory, and those on the state alone, among them the two that tell the label bytes (02, Req 01).
ghost use Rattle.std.specs.Prelude.{◌≡◌, List, ℕ};
ghost use Rattle.meaning.specs.State as meaning;
ghost use Rattle.meaning.specs.Commands.{command_of, worked};
ghost use Rattle.board.specs.Work.{MemoryLent, Changeable, WorksOn, on_memory, Tells};

use state::{State, Worked};
use wire::Answer;
use wire::codes::ErrorCode;

// 01, rows 4Ah to 4Eh.
#[tactic(auto, unfolding(crate::specs::Work::on_memory))]
pub fn needs_memory(command: u8) -> bool
    ensures { result ≡ on_memory command }
{
    matches!(command, 0x4A..=0x4E)
}

// The rows on the lent memory, which leave the state as it is. `request` is the data part, of the length that its row wants. The status table is
// walked once, before the rows part: for the field that the first byte names, and 4Eh, which has no data, looks at none.
pub fn on_memory(
    total: usize,
    codes: &[u8],
    command: u8,
    request: &[u8],
    memory: &mut [u8],
    room: &mut [u8],
) -> Answer
    requires { MemoryLent total codes.now command request.now memory.old room.old }
    ensures { (p : meaning.Plate) (s : meaning.State) → p.total ≡ total → s.codes ≡ codes.now
        → Tells (worked (command_of command) p s memory.old request.now) s memory.old room.old result memory.new room.new }
{
    let seen = fields::survey(memory, total, wire::byte_at(request, 0));
    match command {
        0x4A => fields::read_field(seen, memory, codes, request, room),
        0x4B => fields::store_field(seen, memory, codes, request, room),
        0x4C => fields::field_status(seen, request, room),
        0x4D => fields::shape_field(seen, memory, codes, request, room),
        _ => fields::memory_status(seen, room),
    }
}

// The rows on the state, whose changes are left to who holds it; the memory stays as it is.
pub fn on_state(
    bits: u32,
    label: &[u8],
    state: State,
    command: u8,
    request: &[u8],
    room: &mut [u8],
) -> Result<Worked, ErrorCode>
    requires { Changeable bits label.now state command request.now room.old }
    ensures { (p : meaning.Plate) (m : List ℕ) → p.bits ≡ bits → p.label ≡ label.now → WorksOn (command_of command) p state request.now m room.old result m room.new }
{
    match command {
        0x42 => state::read_position(bits, state, room),
        0x43 => state::set_position(bits, state, request),
        0x46 => state::read_counter(state, room),
        0x47 => state::step_counter(state),
        0x49 => state::clear_counter(state, request),
        0x4F => state::set_code(state, request, room),
        0x50 => state::read_fault(state, room),
        0x52 => state::read_label(label, room),
        0x53 => state::reset(state),
        0x55 => state::set_address(state, request),
        _ => state::read_version(label, room),
    }
}
