// Passes over the parts of a tape: records in, lines out, a board between them (01, "The answer program").
#![tactic(auto)]

mod beginning;
mod passes;
mod session;

pub use passes::{Eaten, eat, finish};
pub use session::{Phase, Session, Stop, Work};
