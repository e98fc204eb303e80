// The exchange: one request of the bench sent to the board, and its reply judged. It stands above both and sees neither one's insides.
#![tactic(auto)]

mod asking;
mod hearing;
mod sending;

pub use asking::{Heard, Refusal, exchange};
pub use hearing::data_heard;
