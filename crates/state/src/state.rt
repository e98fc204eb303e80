// The board's state but for the open frame (01, "Fresh state"). A host's bytes are made into one by image's `state_in` and `lasting_in`. Its limits are no invariant: `is_ok` tells of any numbers whether they keep them (R1).
ghost use Rattle.std.specs.Prelude.{◌≡◌, ◌≤◌, ◌<◌, ◌^◌, length, ltb};
ghost use Rattle.meaning.specs.Bytes.{longest_request};
ghost use Rattle.meaning.specs.State.{Plate, Line, fresh, state_ok, with_measured, none, noted, powered_on};
ghost use Rattle.state.specs.State.{state_with, ReadsOut};
ghost use Rattle.state.specs.Effects.{Bounded, effect_on};

use crate::effects::Effect;
use crate::faults::{Faults, Oldest};
use wire::codes::{ErrorCode, LAST_ADDRESS};

// 01, "counter at most FFFFFFh".
pub const LAST_COUNT: u32 = 0xFFFFFF;

#[derive(Clone, Copy)]
pub struct State {
    pub codes: [u8; 4],
    pub counter: u32,
    pub address: u8,
    pub offset: u32,
    pub measured: u32,
    pub faults: Faults,
}

impl State {
    // With the plate's address (02, Req 01).
    #[tactic(auto, unfolding(crate::specs::Queue::queue_of, crate::specs::Queue::waiting, meaning::specs::State::fresh))]
    pub fn fresh(address: u8) -> State
        ensures { (p : Plate) → p.address ≡ address → state_with result none ≡ fresh p }
    {
        State {
            codes: [0x55, 0x55, 0x55, 0x55],
            counter: 0,
            address,
            offset: 0,
            measured: 0,
            faults: Faults::none(),
        }
    }

    #[tactic(auto, unfolding(meaning::specs::State::with_measured))]
    pub fn with_measured(self, measured: u32) -> State
        ensures { (l : Line) → state_with result l ≡ with_measured (state_with self l) measured }
    {
        State { measured, ..self }
    }

    // What a command changes, changed; all else stays.
    #[tactic(auto, unfolding(crate::specs::Effects::effect_on, meaning::specs::State::with_codes, meaning::specs::State::with_counter, meaning::specs::State::with_address, meaning::specs::State::with_offset, meaning::specs::State::with_queue))]
    pub fn after(self, effect: Effect) -> State
        requires { Bounded effect }
        ensures { (l : Line) → state_with result l ≡ effect_on effect (state_with self l) }
    {
        match effect {
            Effect::Nothing => self,
            Effect::Code(number, code) => {
                let mut codes = self.codes;
                codes[number] = code;
                State { codes, ..self }
            }
            Effect::Counter(counter) => State { counter, ..self },
            Effect::Address(address) => State { address, ..self },
            Effect::Offset(offset) => State { offset, ..self },
            Effect::Overflow => {
                let faults = self.faults.queued(ErrorCode::COUNTER_OVERFLOW.byte);
                State {
                    counter: 0,
                    faults,
                    ..self
                }
            }
            Effect::OldestRead => self.read().rest,
            Effect::Emptied => State {
                faults: self.faults.emptied(),
                ..self
            },
        }
    }

    // note, read and power_on: 01 has them of queue, state and board, as methods that take self and hand the new value back.

    // 01, "The host notes codes".
    #[tactic(auto, unfolding(crate::specs::Queue::holding, meaning::specs::State::with_lock, meaning::specs::State::with_queue))]
    pub fn note(self, code: u8) -> State
        ensures { (l : Line) → state_with result l ≡ noted (state_with self l) code }
    {
        State {
            faults: self.faults.note(code),
            ..self
        }
    }

    // 01, row 50h: "oldest queued code, or 00h"; "removes it".
    #[tactic(auto, unfolding(meaning::specs::State::with_queue))]
    pub fn read(self) -> Oldest<State>
        ensures { (l : Line) → ReadsOut (state_with self l) result.code (state_with result.rest l) }
    {
        let oldest = self.faults.read();
        let rest = State {
            faults: oldest.rest,
            ..self
        };
        Oldest {
            code: oldest.code,
            rest,
        }
    }

    // 01, "Power-on empties the queue .. and unlocks; all else stays"; the open frame is dropped by who holds it.
    #[tactic(auto, unfolding(crate::specs::Queue::queue_of, crate::specs::Queue::waiting, meaning::specs::State::powered_on, meaning::specs::State::with_lock, meaning::specs::State::with_queue, meaning::specs::State::with_line))]
    pub fn power_on(self) -> State
        ensures { (l : Line) → state_with result none ≡ powered_on (state_with self l) }
    {
        State {
            faults: self.faults.power_on(),
            ..self
        }
    }

    // 01, "State limits", but for the kept bytes.
    pub fn is_ok(self, bits: u32) -> bool
        ensures { (p : Plate) (l : Line) → p.bits ≡ bits → length l.kept ≤ longest_request → result ≡ state_ok p (state_with self l) }
    {
        if LAST_COUNT < self.counter {
            return false;
        }
        if LAST_ADDRESS < self.address {
            return false;
        }
        if !offset_fits(self.offset, bits) {
            return false;
        }
        if !self.faults.waits() {
            return true;
        }
        self.faults.waits_apart()
    }
}

// 01, "offset below 2^P", for any number of bits.
pub fn offset_fits(offset: u32, bits: u32) -> bool
    ensures { result ≡ ltb offset (2 ^ bits) }
{
    32 < bits || u64::from(offset) < size(bits)
}

// 2 to the number of position bits, as a number of 64 bits: said once, for four uses.
pub(crate) fn size(bits: u32) -> u64
    requires { bits ≤ 32 }
    ensures { result ≡ 2 ^ bits }
{
    1u64 << bits
}
