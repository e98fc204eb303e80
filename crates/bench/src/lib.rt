// The bench: it writes requests, tells how long a reply will be, and judges it (01, "The bench").
#![tactic(auto)]

mod length;
mod reply;
mod request;

pub use length::reply_length;
pub use reply::{Piece, Refusal, Verdict, data_of, judge};
pub use request::{Unwritten, address_ok, write_request};
