// What a core holds: its state and its open frame's numbers. The kept bytes stay where they are and are lent on.
ghost use Rattle.std.specs.Prelude.{◌≡◌, ◌≤◌, leb, length};
ghost use Rattle.meaning.specs.Bytes.{arg};
ghost use Rattle.meaning.specs.State.{last_address};
ghost use Rattle.image.specs.Image.{core_length, lasting_length, count_at, state_in, rested_in, frame_in, is_core, flags_ok};

use crate::layout::{
    ADDRESS, CODES, CORE_LENGTH, COUNT, COUNTER, FRAME, LAST, LOCKED, LONGER, MEASURED, OFFSET,
    PARITY, SUM, WAITING,
};
use line::OpenFrame;
use state::{Faults, State};
use wire::codes::LONGEST_REQUEST;

// 01, R1: a flag is 0 or 1. The four stand side by side and are tested as one word.
fn flags_ok(core: &[u8]) -> bool
    requires { core_length ≤ length core.now }
    ensures { result ≡ flags_ok core.now }
{
    wire::number_at(core, LOCKED) & 0xFEFEFEFE == 0
}

// 01, R1, of what a core may hold and the board's own state may not.
#[tactic(auto, unfolding(crate::specs::Image::is_core))]
pub fn is_core(core: &[u8]) -> bool
    ensures { result ≡ is_core core.now }
{
    core.len() == CORE_LENGTH && flags_ok(core) && usize::from(core[COUNT]) <= LONGEST_REQUEST
}

// 02, Req 01, the address "limits 0 to 31". It is the high byte of one word with the counter.
pub fn address_ok(core: &[u8]) -> bool
    requires { core_length ≤ length core.now }
    ensures { result ≡ leb (arg core.now 7) last_address }
{
    wire::number_at(core, COUNTER) <= 0x1FFFFFFF
}

fn counter_in(core: &[u8]) -> u32
    requires { 8 ≤ length core.now }
    ensures { result ≡ count_at core.now }
{
    wire::number_at(core, COUNTER) % 0x1000000
}

// The waiting codes and the lock.
#[tactic(auto, unfolding(crate::specs::Image::state_in))]
pub fn faults_in(core: &[u8]) -> Faults
    requires { core_length ≤ length core.now }
    ensures { result ≡ (state_in core.now).faults }
{
    Faults {
        first: core[WAITING],
        second: core[WAITING + 1],
        third: core[WAITING + 2],
        fourth: core[WAITING + 3],
        locked: core[LOCKED] == 1,
    }
}

#[tactic(auto, unfolding(crate::specs::Image::state_in, crate::specs::Image::rested_in))]
pub fn state_in(core: &[u8]) -> State
    requires { core_length ≤ length core.now }
    ensures { result ≡ state_in core.now }
{
    State {
        measured: wire::number_at(core, MEASURED),
        faults: faults_in(core),
        ..lasting_in(core)
    }
}

#[tactic(auto, unfolding(crate::specs::Image::frame_in))]
pub fn frame_in(core: &[u8]) -> OpenFrame
    requires { core_length ≤ length core.now }
    ensures { result ≡ frame_in core.now }
{
    OpenFrame {
        begun: core[FRAME] == 1,
        last: wire::number_at(core, LAST),
        len: core[COUNT],
        sum: core[SUM],
        longer: core[LONGER] == 1,
        parity: core[PARITY] == 1,
    }
}

// The state of a board that was off, from the bytes that last.
#[tactic(auto, unfolding(crate::specs::Image::rested_in))]
pub fn lasting_in(lasting: &[u8]) -> State
    requires { lasting_length ≤ length lasting.now }
    ensures { result ≡ rested_in lasting.now }
{
    State {
        codes: [
            lasting[CODES],
            lasting[CODES + 1],
            lasting[CODES + 2],
            lasting[CODES + 3],
        ],
        counter: counter_in(lasting),
        address: lasting[ADDRESS],
        offset: wire::number_at(lasting, OFFSET),
        measured: 0,
        faults: Faults::none(),
    }
}
