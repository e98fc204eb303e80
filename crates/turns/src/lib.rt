// One record of the answer program's tape: what it says, the board that the first one begins, and what a running board makes of any other
// (01, "The answer program").
#![tactic(auto)]

mod answering;
mod opening;
mod reading;

pub use answering::{BadRecord, Turned, closes_none, turn};
pub use opening::{Opened, open};
pub use reading::{Heard, hear};
