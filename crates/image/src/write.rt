// A state, or the open frame's numbers, written over those of a core; every other byte stays.
ghost use Rattle.std.specs.Prelude.{◌≡◌, ◌≤◌, length, true, ◌∷◌, []};
ghost use Rattle.meaning.specs.Bytes.{pick, put};
ghost use Rattle.meaning.specs.State.{Line, last_count, none};
ghost use Rattle.meaning.specs.Characters.{more};
ghost use Rattle.line.specs.Line.{line_of};
ghost use Rattle.state.specs.State.{state_with};
ghost use Rattle.state.specs.Effects.{Bounded};
ghost use Rattle.wire.specs.Numbers.{low4};
ghost use Rattle.image.specs.Image.{frame_at, parity_at, kept_at, core_length, flag_byte, is_core, state_in, frame_in, kept_in, state_bytes};
ghost use Rattle.image.specs.Writes.{frame_row, measured_set, faults_set, counter_set, offset_set, HoldsState, Open, PutsState, NotesIn, PutsEffect, PutsFrame, PutsBoard, Takes};

use crate::layout::{
    ADDRESS, CORE_LENGTH, COUNT, COUNTER, FRAME, KEPT, LOCKED, LONGER, MEASURED, OFFSET, PARITY,
    SUM, WAITING,
};
use crate::read::faults_in;
use line::OpenFrame;
use state::{Effect, Faults, Noting, State};
use wire::codes::{ErrorCode, LONGEST_REQUEST};

// The 21 bytes of a state.
fn state_row(state: State) -> [u8; 21]
    ensures { (l : Line) → result ≡ state_bytes (state_with state l) }
{
    let [code_0, code_1, code_2, code_3] = state.codes;
    let [counter_0, counter_1, counter_2, _] = wire::bytes_of(state.counter);
    let [offset_0, offset_1, offset_2, offset_3] = wire::bytes_of(state.offset);
    let [measured_0, measured_1, measured_2, measured_3] = wire::bytes_of(state.measured);
    let faults = state.faults;
    [
        code_0,
        code_1,
        code_2,
        code_3,
        counter_0,
        counter_1,
        counter_2,
        state.address,
        offset_0,
        offset_1,
        offset_2,
        offset_3,
        measured_0,
        measured_1,
        measured_2,
        measured_3,
        faults.first,
        faults.second,
        faults.third,
        faults.fourth,
        u8::from(faults.locked),
    ]
}

fn put_state(state: State, core: &mut [u8])
    requires counter_limit { state.counter ≤ last_count }
    requires room_for_state { frame_at ≤ length core.old }
    ensures { PutsState state core.old core.new }
{
    wire::fill(&state_row(state), core);
}

fn put_number(number: u32, place: &mut [u8])
    requires { length place.old ≡ 4 }
    ensures { place.new ≡ put place.old 0 (low4 number []) }
{
    wire::fill(&wire::bytes_of(number), place);
}

// One function for each part that is written alone: each names its own part in its clause, and the work is `put_number`'s or `fill`'s.
pub fn put_measured(measured: u32, core: &mut [u8])
    requires { HoldsState core.old }
    ensures { PutsState (measured_set (state_in core.old) measured) core.old core.new }
{
    put_number(measured, &mut core[MEASURED..WAITING]);
}

// The waiting codes and the lock.
pub fn put_faults(faults: Faults, core: &mut [u8])
    requires { HoldsState core.old }
    ensures { PutsState (faults_set (state_in core.old) faults) core.old core.new }
{
    let row = [
        faults.first,
        faults.second,
        faults.third,
        faults.fourth,
        u8::from(faults.locked),
    ];
    wire::fill(&row, &mut core[WAITING..FRAME]);
}

// A noted code, in place, as `Faults::note` has it by value: C lends bytes. The lock, or one of the four places (01, "The host notes codes").
pub fn note(code: u8, core: &mut [u8])
    requires { HoldsState core.old }
    ensures { NotesIn code core.old core.new }
{
    match faults_in(core).noting(code) {
        Noting::Ignored => {}
        Noting::Locks => core[LOCKED] = 1,
        Noting::First => core[WAITING] = code,
        Noting::Second => core[WAITING + 1] = code,
        Noting::Third => core[WAITING + 2] = code,
        Noting::Fourth => core[WAITING + 3] = code,
    }
}

fn put_counter(counter: u32, core: &mut [u8])
    requires counter_limit { counter ≤ last_count }
    requires holds_state { HoldsState core.old }
    ensures { PutsState (counter_set (state_in core.old) counter) core.old core.new }
{
    let [low, middle, high, _] = wire::bytes_of(counter);
    wire::fill(&[low, middle, high], &mut core[COUNTER..ADDRESS]);
}

fn put_offset(offset: u32, core: &mut [u8])
    requires { HoldsState core.old }
    ensures { PutsState (offset_set (state_in core.old) offset) core.old core.new }
{
    put_number(offset, &mut core[OFFSET..MEASURED]);
}

// What a command changes, in place, as `State::after` has it by value: C lends bytes, and nothing is written that does not change. The codes are the core's first bytes.
pub fn put_effect(effect: Effect, core: &mut [u8])
    requires bounded { Bounded effect }
    requires holds_state { HoldsState core.old }
    ensures { PutsEffect effect core.old core.new }
{
    match effect {
        Effect::Nothing => {}
        Effect::Code(number, code) => core[number] = code,
        Effect::Counter(counter) => put_counter(counter, core),
        Effect::Address(address) => core[ADDRESS] = address,
        Effect::Offset(offset) => put_offset(offset, core),
        Effect::Overflow => {
            let faults = faults_in(core).queued(ErrorCode::COUNTER_OVERFLOW.byte);
            put_counter(0, core);
            put_faults(faults, core);
        }
        Effect::OldestRead => {
            let oldest = faults_in(core).read();
            put_faults(oldest.rest, core);
        }
        Effect::Emptied => put_faults(faults_in(core).emptied(), core),
    }
}

pub fn put_frame(frame: OpenFrame, core: &mut [u8])
    requires { kept_at ≤ length core.old }
    ensures { PutsFrame frame core.old core.new }
{
    let [last_0, last_1, last_2, last_3] = wire::bytes_of(frame.last);
    let row = [
        u8::from(frame.begun),
        u8::from(frame.longer),
        u8::from(frame.parity),
        last_0,
        last_1,
        last_2,
        last_3,
        frame.sum,
        frame.len,
    ];
    wire::fill(&row, &mut core[FRAME..KEPT]);
}

pub fn put_board(state: State, frame: OpenFrame, core: &mut [u8])
    requires counter_limit { state.counter ≤ last_count }
    requires whole_core { length core.old ≡ core_length }
    ensures { PutsBoard state frame core.old core.new }
{
    put_state(state, core);
    put_frame(frame, core);
}

// The first character of a frame.
fn begin(tick: u32, value: u8, parity: bool, core: &mut [u8])
    requires { length core.old ≡ core_length }
    ensures { Takes (more none tick value parity) core.old core.new }
{
    let first = OpenFrame::none().with_character(tick, value, parity, &mut core[KEPT..CORE_LENGTH]);
    put_frame(first, core);
}

// Parity fault, stamp and XOR stand side by side.
fn put_stamp(parity: u8, tick: u32, sum: u8, core: &mut [u8])
    requires { length core.old ≡ core_length }
    ensures { core.new ≡ put core.old parity_at (parity ∷ low4 tick (sum ∷ [])) }
{
    let [tick_0, tick_1, tick_2, tick_3] = wire::bytes_of(tick);
    let row = [parity, tick_0, tick_1, tick_2, tick_3, sum];
    wire::fill(&row, &mut core[PARITY..COUNT]);
}

// One more character of an open frame, in place, as `OpenFrame::with_character` has it by value: C lends bytes, and nothing is written that does not change.
fn go_on(tick: u32, value: u8, parity: bool, core: &mut [u8])
    requires { Open core.old }
    ensures { Takes (more (line_of (frame_in core.old) (kept_in core.old)) tick value parity) core.old core.new }
{
    let count = core[COUNT];
    let sum = core[SUM] ^ value;
    let faulty = core[PARITY] | u8::from(parity);
    put_stamp(faulty, tick, sum, core);
    if count < LONGEST_REQUEST as u8 {
        // `as`: usize::from would be a call whose value the proof has to name.
        core[KEPT + count as usize] = value;
        core[COUNT] = count + 1;
        return;
    }
    core[LONGER] = 1;
}

// The next character of the open frame, or the first of a new one, in place.
pub fn take_character(tick: u32, value: u8, parity: bool, core: &mut [u8])
    requires { is_core core.old ≡ true }
    ensures { Takes (more (pick (frame_in core.old).begun (line_of (frame_in core.old) (kept_in core.old)) none) tick value parity) core.old core.new }
{
    if core[FRAME] == 1 {
        go_on(tick, value, parity, core);
        return;
    }
    begin(tick, value, parity, core);
}
