// The records of a tape (01, "The answer program"; 02, Req 04): the reader that the answer program and the programmer share.
#![tactic(auto)]

mod record;

pub use record::{Cursor, Record, Unread};
