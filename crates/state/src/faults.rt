// The fault queue: four places, oldest first, 00h for an empty one, since 00h never waits (01, "Faults").
ghost use Rattle.std.specs.Prelude.{◌≡◌, not, List, [], ℕ, ◌<◌, eqb};
ghost use Rattle.meaning.specs.Bytes.{both, either, among};
ghost use Rattle.meaning.specs.State.{State, queued, noted, apart, locks};
ghost use Rattle.meaning.specs.Frames.{warned};
ghost use Rattle.meaning.specs.Demands.{waits};
ghost use Rattle.state.specs.Queue.{queue_of, waiting, no_faults, holding, Queues, Reads};
ghost use Rattle.state.specs.Effects.{place_for, noting_of, noted_as};

// Four fields and no array: each place is told, taken and written by itself, and `first` says more than `[0]`.
#[derive(Clone, Copy)]
pub struct Faults {
    pub first: u8,
    pub second: u8,
    pub third: u8,
    pub fourth: u8,
    pub locked: bool,
}

// What a noted code comes to: nothing, the lock, or the place that it takes. Who holds the queue writes that alone.
#[derive(Clone, Copy, PartialEq, Eq)]
pub enum Noting {
    Ignored,
    Locks,
    First,
    Second,
    Third,
    Fourth,
}

// The oldest code, or 00h, and what is left without it: the queue, the state, the board. No Option: 00h is what 50h tells where none waits (`Reads`).
#[derive(Clone, Copy)]
pub struct Oldest<T> {
    pub code: u8,
    pub rest: T,
}

impl Faults {
    pub fn none() -> Faults
        ensures { result ≡ no_faults }
    {
        Faults {
            first: 0,
            second: 0,
            third: 0,
            fourth: 0,
            locked: false,
        }
    }

    #[tactic(auto, using(crate::proofs::Places::among_four))]
    fn holds(self, code: u8) -> bool
        requires { 0 < code }
        ensures { result ≡ among code (queue_of self) }
    {
        (code == self.first) | (code == self.second) | (code == self.third) | (code == self.fourth)
    }

    // 01, "a queue of four, oldest first; one already waiting, or a fifth, is dropped". That none waits is told at once.
    #[tactic(auto, using(crate::proofs::Places::none_yet, crate::proofs::Places::four_wait, crate::proofs::Places::three_wait, crate::proofs::Places::two_wait, crate::proofs::Places::one_waits), unfolding(crate::specs::Effects::place_for))]
    fn place_for(self, code: u8) -> Noting
        requires { 0 < code }
        ensures { result ≡ place_for self code }
    {
        if !self.waits() {
            return Noting::First;
        }
        if self.holds(code) {
            return Noting::Ignored;
        }
        if self.fourth != 0 {
            return Noting::Ignored;
        }
        if self.third != 0 {
            return Noting::Fourth;
        }
        if self.second != 0 {
            return Noting::Third;
        }
        Noting::Second
    }

    // 01, "00h is ignored. 22h and 24h lock the position until power-on and are not queued".
    #[tactic(auto, unfolding(crate::specs::Effects::noting_of))]
    pub fn noting(self, code: u8) -> Noting
        ensures { result ≡ noting_of self code }
    {
        if code == 0 {
            return Noting::Ignored;
        }
        if locks(code) {
            return Noting::Locks;
        }
        self.place_for(code)
    }

    // The queue and the lock after that.
    fn noted(self, code: u8, noting: Noting) -> Faults
        ensures { result ≡ noted_as self code noting }
    {
        match noting {
            Noting::Ignored => self,
            Noting::Locks => Faults {
                locked: true,
                ..self
            },
            Noting::First => Faults {
                first: code,
                ..self
            },
            Noting::Second => Faults {
                second: code,
                ..self
            },
            Noting::Third => Faults {
                third: code,
                ..self
            },
            Noting::Fourth => Faults {
                fourth: code,
                ..self
            },
        }
    }

    // 01, row 47h, "08h is queued".
    pub fn queued(self, code: u8) -> Faults
        requires { 0 < code }
        ensures { Queues self (queued (queue_of self) code) result }
    {
        self.noted(code, self.place_for(code))
    }

    // 01, "The host notes codes".
    #[tactic(auto, using(crate::proofs::Places::notes_so))]
    pub(crate) fn note(self, code: u8) -> Faults
        ensures { (s : State) → holding s result ≡ noted (holding s self) code }
    {
        self.noted(code, self.noting(code))
    }

    // 01, row 50h: the oldest is handed back, and the others move up.
    pub fn read(self) -> Oldest<Faults>
        ensures { Reads self result }
    {
        let rest = Faults {
            first: self.second,
            second: self.third,
            third: self.fourth,
            fourth: 0,
            ..self
        };
        Oldest {
            code: self.first,
            rest,
        }
    }

    // 01, row 53h. The lock lasts until power-on.
    #[tactic(auto, unfolding(crate::specs::Queue::queue_of, crate::specs::Queue::waiting))]
    pub fn emptied(self) -> Faults
        ensures { Queues self [] result }
    {
        Faults {
            locked: self.locked,
            ..Faults::none()
        }
    }

    // 01, "Power-on empties the queue .. and unlocks"; a method as note and read are, by 01's form.
    pub(crate) fn power_on(self) -> Faults
        ensures { result ≡ no_faults }
    {
        Faults::none()
    }

    // Whether a code waits: mostly the first place tells it.
    pub fn waits(self) -> bool
        ensures { result ≡ waits (queue_of self) }
    {
        self.first != 0 || (self.second != 0) | (self.third != 0) | (self.fourth != 0)
    }

    // 01, "State limits": whether codes wait, and all different, none of them 00h, 22h or 24h. Each is held to those before it, and two are told at once.
    #[tactic(auto, using(crate::proofs::Places::apart_places, crate::proofs::Places::first_empty, crate::proofs::Places::lock_fills, crate::proofs::Places::two_so), unfolding(crate::proofs::Places::four_apart))]
    pub fn waits_apart(self) -> bool
        ensures { result ≡ both (waits (queue_of self)) (apart (queue_of self)) }
    {
        if self.first == 0 {
            return false;
        }
        if locks(self.first) {
            return false;
        }
        if self.first == self.second {
            return false;
        }
        if locks(self.second) {
            return false;
        }
        if self.third == 0 {
            return self.fourth == 0;
        }
        if self.second == 0 {
            return false;
        }
        if is_among(self.first, self.third, self.fourth) {
            return false;
        }
        if is_among(self.second, self.third, self.fourth) {
            return false;
        }
        if locks(self.third) {
            return false;
        }
        if self.third == self.fourth {
            return false;
        }
        !locks(self.fourth)
    }
}

// 01, "Bit 7 of every reply's command byte is set exactly if the fault queue is not empty".
#[tactic(auto, using(crate::proofs::Places::marked, crate::proofs::Places::unmarked))]
pub fn marked(command: u8, waiting: bool) -> u8
    ensures { (q : List ℕ) → waiting ≡ waits q → result ≡ warned command q }
{
    let low = command % 128;
    if waiting {
        return low + 128;
    }
    low
}

// 01, "22h and 24h lock the position".
#[tactic(auto, unfolding(meaning::specs::State::locks))]
pub fn locks(code: u8) -> bool
    ensures { result ≡ locks code }
{
    matches!(code, 0x22 | 0x24)
}

// Whether the code is one of those two.
fn is_among(code: u8, one: u8, other: u8) -> bool
    ensures { result ≡ either (eqb code one) (eqb code other) }
{
    code == one || code == other
}
