// What a command comes to (01, "The commands").
use crate::codes::ErrorCode;

// So many bytes of reply data, from place 2 of the room on; no reply; or the error code that is replied.
pub type Answer = Result<Option<u8>, ErrorCode>;
