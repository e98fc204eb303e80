// How far the programmer has come: so many of so many requests (02, Req 04, for a progress bar).
ghost use Rattle.std.specs.Prelude.{◌≡◌, ◌+◌, ◌-◌, ◌*◌, ◌≤◌, take};
ghost use Rattle.meaning.specs.Bytes.{pick};
ghost use Rattle.meaning.specs.Fields.{writable};
ghost use Rattle.programmer.specs.Wishes.{Wish, wish_of};
ghost use Rattle.programmer.specs.Steps.{in_all};
ghost use Rattle.programmer.specs.Steps as steps;
ghost use Rattle.programmer.specs.Reading.{field_of, fields_left};
ghost use Rattle.programmer.specs.Running.{progress_of};

use crate::run::Programmer;
use crate::step::{Standing, Step};
use crate::wish::{Fields, MOST_FIELDS, first_fields};

// The requests answered, and all.
#[derive(Clone, Copy, PartialEq, Eq, Debug)]
pub struct Progress {
    pub answered: usize,
    pub all: usize,
}

// Create, store, read back, and lock a read-only field.
fn cost(status: u8) -> usize
    ensures { (result ≡ 3 + pick (writable status) 0 1) × (result ≤ 4) }
{
    if wire::is_writable(status) { 3 } else { 4 }
}

// The requests for the first `many` fields; the others are left. Not by `take`: its contract does not say what it leaves once it has given `many`.
#[tactic(auto, using(crate::proofs::Counting::next_counted), unfolding(crate::specs::Steps::requests_for))]
fn requests_before(fields: &mut Fields<'_>, many: usize) -> usize
    requires { steps.requests_for (fields_left fields.now) ≤ 1024 }
    ensures first { result ≡ steps.requests_for (take many (fields_left fields.old)) }
    ensures rest { result + steps.requests_for (fields_left fields.new) ≡ steps.requests_for (fields_left fields.old) }
{
    let mut requests = 0;
    for _ in 0..many {
        let Some(field) = fields.next() else {
            return requests;
        };
        requests += cost(field.status);
    }
    requests
}

fn requests_for(fields: Fields<'_>) -> usize
    requires { steps.requests_for (fields_left fields) ≤ 1024 }
    ensures { result ≡ steps.requests_for (fields_left fields.entry) }
{
    fields.map(|field| cost(field.status)).sum()
}

// Two requests for each field that was present and is there no more; `field` is the last that is.
fn cleared(present: u32, field: u8) -> usize
    ensures { result ≡ 2 * (present - (field + 1)) }
{
    2 * present.saturating_sub(u32::from(field) + 1) as usize
}

// `before` is the number of requests for the wanted fields before the step's.
fn answered(present: u32, step: Step, before: usize) -> usize
    requires { before ≤ 1024 }
    ensures { (l : Wish) → before ≡ steps.requests_for (take (field_of step) l.fields) → result ≡ steps.answered l present step }
{
    let made = 2 * (present as usize) + before;
    match step {
        Step::Count => 0,
        Step::Look { field } => 1 + cleared(present, field),
        Step::Remove { field, .. } => 2 + cleared(present, field),
        Step::Create { .. } => 1 + made,
        Step::Store { .. } => 2 + made,
        Step::Read { .. } => 3 + made,
        Step::Lock { .. } => 4 + made,
    }
}

// `wanted` is the number of requests for all wanted fields.
#[tactic(auto, unfolding(crate::specs::Steps::in_all))]
fn in_all(present: u32, wanted: usize) -> usize
    requires { wanted ≤ 1024 }
    ensures { (l : Wish) → wanted ≡ steps.requests_for l.fields → result ≡ in_all l present }
{
    1 + 2 * (present as usize) + wanted
}

#[tactic(auto, using(crate::proofs::Reading::all_of, crate::proofs::Counting::requests_few, crate::proofs::Reading::all_few))]
fn stood(tape: &[u8], present: u32, step: Step) -> Progress
    ensures { result ≡ record { answered = steps.answered (wish_of tape.now) present step; all = in_all (wish_of tape.now) present } }
{
    let mut fields = first_fields(tape, MOST_FIELDS);
    let before = requests_before(&mut fields, step.wanted_field());
    Progress {
        answered: answered(present, step, before),
        all: in_all(present, before + requests_for(fields)),
    }
}

impl Programmer {
    #[tactic(auto, using(crate::proofs::Reading::all_of, crate::proofs::Counting::requests_few, crate::proofs::Reading::all_few), unfolding(crate::specs::Running::progress_of))]
    pub fn progress(self, tape: &[u8]) -> Progress
        ensures { result ≡ progress_of (wish_of tape.now) self }
    {
        match self.standing {
            Standing::At(step) | Standing::Failed(step, _) => stood(tape, self.present, step),
            Standing::Done => {
                let all = in_all(self.present, requests_for(first_fields(tape, MOST_FIELDS)));
                Progress { answered: all, all }
            }
        }
    }
}
