// The lent memory: 16T data bytes, then T status bytes, and the commands 4Ah to 4Eh that work on it (01, "Memory").
#![tactic(auto)]

mod access;
mod cells;
mod change;
mod find;
mod reply;
mod seen;
mod shape;
mod sizes;
mod status;
mod table;
mod tell;

pub use access::{read_field, store_field};
pub use seen::Survey;
pub use shape::shape_field;
pub use table::survey;
pub use tell::{field_status, memory_status};
