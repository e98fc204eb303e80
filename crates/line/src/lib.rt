// The line: the plate, stamps and gaps, the open frame's numbers, and the judge of a closed frame (01, "Characters become frames").
#![tactic(auto)]

mod characters;
mod judge;
mod plate;
mod stamps;

pub use characters::{OpenFrame, is_over};
pub use judge::{Judgement, is_silent};
pub use plate::Plate;
pub use stamps::stamp_after;
