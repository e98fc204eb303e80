// R1 for a programmer: could some run of this tape have left it? (02, Req 04; 01, "Named refusals").
ghost use Rattle.std.specs.Prelude.{◌≡◌, not, ltb, length};
ghost use Rattle.meaning.specs.Bytes.{both};
ghost use Rattle.meaning.specs.Fields.{writable};
ghost use Rattle.programmer.specs.Wishes.{wish_of};
ghost use Rattle.programmer.specs.Wishes as wishes;
ghost use Rattle.programmer.specs.Running.{reachable, fails_by, can_stand, is_possible};

use crate::run::Programmer;
use crate::step::{Standing, Step, Why};
use crate::wish::find;

#[tactic(auto, using(crate::proofs::Counting::wanted_found, crate::proofs::Counting::wanted_none))]
fn is_wanted(tape: &[u8], field: u8) -> bool
    ensures { result ≡ ltb field (length (wish_of tape.now).fields) }
{
    find(tape, usize::from(field)).is_some()
}

#[tactic(auto, using(crate::proofs::Counting::locked_found, crate::proofs::Counting::locked_none))]
fn is_read_only(tape: &[u8], field: u8) -> bool
    ensures { result ≡ both (ltb field (length (wish_of tape.now).fields)) (not (writable (wishes.wanted (wish_of tape.now) field).status)) }
{
    find(tape, usize::from(field)).is_some_and(|wanted| !wire::is_writable(wanted.status))
}

fn is_reachable(tape: &[u8], present: u32, step: Step) -> bool
    ensures { result ≡ reachable (wish_of tape.now) present step }
{
    match step {
        Step::Count => present == 0,
        Step::Look { field } | Step::Remove { field, .. } => u32::from(field) < present,
        Step::Create { field } | Step::Store { field } | Step::Read { field } => {
            is_wanted(tape, field)
        }
        Step::Lock { field } => is_read_only(tape, field),
    }
}

fn fails_by(step: Step, why: Why) -> bool
    ensures { result ≡ fails_by step why }
{
    match why {
        Why::Judgement(number) => number <= 6,
        Why::Error(_) => true,
        Why::Differs => step.is_read(),
    }
}

fn can_stand(tape: &[u8], present: u32, standing: Standing) -> bool
    ensures { result ≡ can_stand (wish_of tape.now) present standing }
{
    match standing {
        Standing::At(step) => is_reachable(tape, present, step),
        Standing::Done => true,
        Standing::Failed(step, why) => fails_by(step, why) && is_reachable(tape, present, step),
    }
}

impl Programmer {
    #[tactic(auto, unfolding(crate::specs::Running::is_possible))]
    pub fn is_possible(self, tape: &[u8]) -> bool
        ensures { result ≡ is_possible (wish_of tape.now) self }
    {
        bench::address_ok(self.address)
            && self.present <= 255
            && can_stand(tape, self.present, self.standing)
    }
}
