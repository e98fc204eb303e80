// What C calls: the board's and the bench's entry points on numbers and byte slices (01, "written in C and calls on numbers and byte slices").
#![tactic(auto)]

mod events;
mod given;
mod notes;
mod refusals;
mod replies;
mod starts;
