// What board and bench share of the wire: the frame of 000, 2.3.3, its bytes and numbers, the error codes, the status byte, the table of the commands, and what a command comes to.
#![tactic(auto)]

mod address;
mod answer;
mod bytes;
pub mod codes;
mod framing;
mod number;
mod status;
mod sum;
mod table;

pub use address::{is_board, own_byte};
pub use answer::Answer;
pub use bytes::{byte_at, data_part, front, same};
pub use framing::{fill, seal, write};
pub use number::{bytes_of, number_at};
pub use status::{attributes_in, blocks_in, code_number, has_field, is_writable};
pub use sum::xor_of;
pub use table::{Length, Row, length_fits, row_of};
