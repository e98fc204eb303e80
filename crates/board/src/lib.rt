// The board: characters and times in, reply bytes out (01, "What belongs to the board and to the bench").
#![tactic(auto)]

mod calls;
mod closing;
mod faults;
mod limits;
mod quick;
mod reply;
mod rows;

pub use calls::{Refusal, Stepped, character, fault, fresh, measured, poll, power_on};
pub use closing::{Closed, refuse};
pub use limits::{Board, refusal};
pub use reply::send;
pub use rows::{needs_memory, on_memory, on_state};
