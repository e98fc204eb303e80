// The board as the 212 bytes that a host lends: a head, which tells the plate, and a core, which holds the state (01, "written in C and calls on numbers and byte slices").
// A core goes as a slice, and no type holds what is asked of it: C lends bytes, a longer slice is answered too, and each function asks for something else,
// for twelve bytes, for all of a core, or that its lock is a flag.
#![tactic(auto)]

mod head;
mod layout;
mod read;
mod write;

pub use head::{is_ours, plate_in, put_head};
pub use layout::{
    ADDRESS, CODES, CORE, CORE_LENGTH, COUNTER, KEPT, LABEL, LASTING_LENGTH, LENGTH, OFFSET,
    WAITING,
};
pub use read::{address_ok, faults_in, frame_in, is_core, lasting_in, state_in};
pub use write::{note, put_board, put_effect, put_faults, put_frame, put_measured, take_character};
