// Where a verdict leads (02, Req 04).
ghost use Rattle.std.specs.Prelude.{◌≡◌, drop};
ghost use Rattle.meaning.specs.Bench as meaning;
ghost use Rattle.meaning.specs.Demands.{contents};
ghost use Rattle.bench.specs.Outcomes.{verdict_of, without_data};
ghost use Rattle.programmer.specs.Wishes.{wish_of};
ghost use Rattle.programmer.specs.Steps as steps;

use crate::request::wanted;
use crate::step::{Standing, Step, Why};
use crate::wish::find;
use bench::{Refusal, Verdict};

// The first i wanted fields are there: the next, or done.
#[tactic(auto, using(crate::proofs::Asking::making_found, crate::proofs::Asking::making_none))]
fn making(tape: &[u8], i: usize) -> Standing
    ensures { result ≡ steps.making (wish_of tape.now) i }
{
    match find(tape, i) {
        Some(_) => Standing::At(Step::Create { field: i as u8 }),
        None => Standing::Done,
    }
}

// "deletes the fields present from last to first": n are left.
#[tactic(auto, unfolding(crate::specs::Steps::clearing))]
fn clearing(tape: &[u8], n: u8) -> Standing
    ensures { result ≡ steps.clearing (wish_of tape.now) n }
{
    if n == 0 {
        return making(tape, 0);
    }
    Standing::At(Step::Look { field: n - 1 })
}

// "locked afterwards".
#[tactic(auto, unfolding(crate::specs::Steps::locking))]
fn locking(tape: &[u8], field: u8) -> Standing
    ensures { result ≡ steps.locking (wish_of tape.now) field }
{
    if wire::is_writable(wanted(tape, field).status) {
        return making(tape, usize::from(field) + 1);
    }
    Standing::At(Step::Lock { field })
}

// What follows the field, offset and count in the data of 4Ah.
fn past_three(answer: &[u8]) -> &[u8]
    ensures { result.now ≡ drop 3 answer.now }
{
    let from = answer.len().min(3);
    &answer[from..]
}

// "read-back differs".
#[tactic(auto, using(crate::proofs::Asking::read_differs, crate::proofs::Asking::read_agrees))]
fn read_back(tape: &[u8], field: u8, answer: &[u8]) -> Standing
    ensures { result ≡ steps.onto (wish_of tape.now) (Step.Read field) answer.now }
{
    let read = past_three(answer);
    let stored = wanted(tape, field).bytes;
    if !wire::same(read, stored) {
        return Standing::Failed(Step::Read { field }, Why::Differs);
    }
    locking(tape, field)
}

// Where a good reply leads.
#[tactic(auto, unfolding(crate::specs::Steps::onto))]
fn onto(tape: &[u8], step: Step, answer: &[u8]) -> Standing
    ensures { result ≡ steps.onto (wish_of tape.now) step answer.now }
{
    match step {
        Step::Count => clearing(tape, wire::byte_at(answer, 1)),
        Step::Look { field } => Standing::At(Step::Remove {
            field,
            status: wire::byte_at(answer, 1),
        }),
        Step::Remove { field, .. } => clearing(tape, field),
        Step::Create { field } => Standing::At(Step::Store { field }),
        Step::Store { field } => Standing::At(Step::Read { field }),
        Step::Read { field } => read_back(tape, field, answer),
        Step::Lock { field } => making(tape, usize::from(field) + 1),
    }
}

// "a warning does not stop the run"; "a failed judgement; an error code". `answer` is the data part that the bench handed back.
pub fn on_verdict(
    tape: &[u8],
    step: Step,
    judged: Result<Verdict, Refusal>,
    answer: &[u8],
) -> Standing
    ensures { (v : meaning.Verdict) → verdict_of judged ≡ without_data v → answer.now ≡ contents v → result ≡ steps.on_verdict (wish_of tape.now) step v }
{
    match judged {
        Err(refusal) => Standing::Failed(step, Why::Judgement(refusal.number())),
        // One match in the other: in a nested pattern a proof no longer knows which of the two verdicts it was.
        Ok(verdict) => match verdict {
            Verdict::Done | Verdict::DoneWithWarning => onto(tape, step, answer),
            // An arm for each: the edit goes_on_after_an_error slips in one of them alone.
            Verdict::Error(code) => Standing::Failed(step, Why::Error(code)),
            Verdict::ErrorWithWarning(code) => Standing::Failed(step, Why::Error(code)),
        },
    }
}
