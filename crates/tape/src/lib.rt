// The answer program's tape: the kinds of its records, and the lines that are printed (01, "The answer program").
#![tactic(auto)]

mod kinds;
mod text;

pub use kinds::{Event, LONGEST_RECORD, NO_LABEL, event_of};
pub use text::{LONGEST_BAD_LINE, LONGEST_LINE, bad_line, first_line, reply_line};
