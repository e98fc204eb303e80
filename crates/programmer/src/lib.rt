// The handheld programmer (02, Req 04): a label tape is checked, then requests are due one after another until the board holds the tape's fields.
#![tactic(auto)]

mod count;
mod possible;
mod request;
mod run;
mod step;
mod turn;
mod wish;

pub use count::Progress;
pub use run::{Programmer, StartRefusal};
pub use step::{Standing, Step, Why};
pub use wish::{TapeFault, check};
