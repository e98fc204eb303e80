// A run as one number, and back: stage, field, status, why, its number, fields present, address, a byte each, the low one first.
// A host keeps that number between calls (`QpRuns`), so stages and reasons have numbers here.
ghost use Rattle.std.specs.Prelude.{◌≡◌, ◌∷◌, [], ◌%◌};
ghost use Rattle.handheld.specs.Numbers.{stage_part, field_part, status_part, why_of, number_part, standing_bytes, run_number, step_in, why_in, standing_in, run_in};

use programmer::{Programmer, Standing, Step, Why};

// Stage, field and status; 0 for what the step has not.
fn step_bytes(step: Step) -> [u8; 3]
    ensures { result ≡ stage_part step ∷ field_part step ∷ status_part step ∷ [] }
{
    match step {
        Step::Count => [1, 0, 0],
        Step::Look { field } => [2, field, 0],
        Step::Remove { field, status } => [3, field, status],
        Step::Create { field } => [4, field, 0],
        Step::Store { field } => [5, field, 0],
        Step::Read { field } => [6, field, 0],
        Step::Lock { field } => [7, field, 0],
    }
}

// Why, and the check's number or the error code.
fn why_bytes(why: Why) -> [u8; 2]
    ensures { result ≡ why_of why ∷ number_part why ∷ [] }
{
    match why {
        Why::Judgement(number) => [1, number],
        Why::Error(code) => [2, code],
        Why::Differs => [3, 0],
    }
}

fn standing_bytes(standing: Standing) -> [u8; 5]
    ensures { result ≡ standing_bytes standing }
{
    match standing {
        Standing::At(step) => {
            let [stage, field, status] = step_bytes(step);
            [stage, field, status, 0, 0]
        }
        Standing::Done => [8, 0, 0, 0, 0],
        Standing::Failed(step, why) => {
            let [stage, field, status] = step_bytes(step);
            let [why, number] = why_bytes(why);
            [stage, field, status, why, number]
        }
    }
}

#[tactic(auto, using(crate::proofs::Numbers::number_of))]
pub(crate) fn run_number(run: Programmer) -> u64
    ensures { result ≡ run_number run }
{
    let [stage, field, status, why, number] = standing_bytes(run.standing);
    let [present, ..] = run.present.to_le_bytes();
    let [address, ..] = run.address.to_le_bytes();
    u64::from_le_bytes([stage, field, status, why, number, present, address, 0])
}

#[tactic(auto, unfolding(crate::specs::Numbers::step_in))]
fn step_in(stage: u8, field: u8, status: u8) -> Step
    ensures { result ≡ step_in stage field status }
{
    match stage {
        1 => Step::Count,
        2 => Step::Look { field },
        3 => Step::Remove { field, status },
        4 => Step::Create { field },
        5 => Step::Store { field },
        6 => Step::Read { field },
        _ => Step::Lock { field },
    }
}

#[tactic(auto, unfolding(crate::specs::Numbers::why_in))]
fn why_in(why: u8, number: u8) -> Why
    ensures { result ≡ why_in why number }
{
    match why {
        1 => Why::Judgement(number),
        2 => Why::Error(number),
        _ => Why::Differs,
    }
}

#[tactic(auto, unfolding(crate::specs::Numbers::standing_in))]
fn standing_in(stage: u8, field: u8, status: u8, why: u8, number: u8) -> Standing
    ensures { result ≡ standing_in stage field status why number }
{
    if stage == 8 {
        return Standing::Done;
    }
    let step = step_in(stage, field, status);
    if why == 0 {
        return Standing::At(step);
    }
    Standing::Failed(step, why_in(why, number))
}

// What the number would be, if it is one of a run.
#[tactic(auto, unfolding(crate::specs::Numbers::run_in, crate::specs::Numbers::byte_in))]
pub(crate) fn run_in(n: u64) -> Programmer
    ensures { result ≡ run_in n }
{
    let [stage, field, status, why, number, present, address, _] = n.to_le_bytes();
    Programmer {
        address: u32::from(address),
        present: u32::from(present),
        standing: standing_in(stage, field, status, why, number),
    }
}
