// The fault queue, the board's state, and the commands that work on it alone or tell the label bytes (01, "Fresh state", "Faults", "The commands").
#![tactic(auto)]

mod effects;
mod faults;
mod labels;
mod rows;
mod state;

pub use effects::Effect;
pub use faults::{Faults, Noting, Oldest, locks, marked};
pub use labels::{read_label, read_version};
pub use rows::{
    Worked, clear_counter, read_counter, read_fault, read_position, reset, set_address, set_code,
    set_position, step_counter,
};
pub use state::{LAST_COUNT, State, offset_fits};
