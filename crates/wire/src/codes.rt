// The numbers that stand on the wire: error codes, by 000's names where they fit 01's use of them, and the lengths of 01, "Named refusals".

// The data of an error reply. Any byte is one: boards of other makers have more of them than ours.
#[derive(Clone, Copy, PartialEq, Eq)]
pub struct ErrorCode {
    pub byte: u8,
}

impl ErrorCode {
    // 02h, 01: "02h if locked".
    pub const POSITION_LOCKED: ErrorCode = ErrorCode { byte: 0x02 };

    pub const TABLE_DESTROYED: ErrorCode = ErrorCode { byte: 0x03 };

    pub const COUNTER_OVERFLOW: ErrorCode = ErrorCode { byte: 0x08 };

    pub const PARITY_ERROR: ErrorCode = ErrorCode { byte: 0x09 };

    pub const CHECKSUM_ERROR: ErrorCode = ErrorCode { byte: 0x0A };

    pub const UNKNOWN_COMMAND: ErrorCode = ErrorCode { byte: 0x0B };

    // Of a frame longer than 135 bytes too.
    pub const WRONG_LENGTH: ErrorCode = ErrorCode { byte: 0x0C };

    pub const WRONG_ARGUMENT: ErrorCode = ErrorCode { byte: 0x0D };

    pub const READ_ONLY: ErrorCode = ErrorCode { byte: 0x0E };

    pub const WRONG_CODE: ErrorCode = ErrorCode { byte: 0x0F };

    // 10h, 000's "Fixed data field size": too few free blocks, or a field that is not the last.
    pub const FIXED_SIZE: ErrorCode = ErrorCode { byte: 0x10 };

    pub const WRONG_OFFSET: ErrorCode = ErrorCode { byte: 0x11 };

    pub const WRONG_FIELD: ErrorCode = ErrorCode { byte: 0x12 };
}

// The command byte of an error reply.
pub const ERROR_REPLY: u8 = 0x50;

pub const BROADCAST: u8 = 0xFF;

// 01, "address a 0 to 31".
pub const LAST_ADDRESS: u8 = 31;

// 000, table 28, then table 31: the type label's bytes, and those of serial number, program version and date.
pub const TYPE_LABEL: usize = 4;

pub const LABEL_LENGTH: usize = 41;

// The most bytes that are kept of a frame, and that a request has.
pub const LONGEST_REQUEST: usize = 135;

pub const LONGEST_REPLY: usize = 134;

// The largest count of 4Ah and 4Bh.
pub const MOST_COUNT: u8 = 128;
