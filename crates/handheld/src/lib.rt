// What C calls of the handheld programmer: host/programmer.h. A run is a number that the host keeps (02, Req 04).
#![tactic(auto)]

mod calls;
mod given;
mod number;
