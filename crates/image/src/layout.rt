// Places of the image, and of its core; numbers stand low byte first.
pub const LAYOUT: usize = 0;

pub const TOTAL: usize = 1;

pub const BITS: usize = 2;

pub const PLATE_ADDRESS: usize = 3;

pub const TICKS: usize = 4;

pub const PAUSE: usize = 5;

// The 41 label bytes.
pub const LABEL: usize = 6;

pub const CORE: usize = 47;

pub const LENGTH: usize = 212;

// The number of this layout: the first byte of every image.
pub const LAYOUT_NUMBER: u8 = 2;

// The places of the core: 21 bytes of state, of which the first twelve must last, nine of the open frame's numbers, then its kept bytes.
pub const CODES: usize = 0;

// Three bytes, as the counter is at most FFFFFFh.
pub const COUNTER: usize = 4;

pub const ADDRESS: usize = 7;

pub const OFFSET: usize = 8;

pub const LASTING_LENGTH: usize = 12;

pub const MEASURED: usize = 12;

pub const WAITING: usize = 16;

pub const LOCKED: usize = 20;

pub const FRAME: usize = 21;

pub const LONGER: usize = 22;

pub const PARITY: usize = 23;

pub const LAST: usize = 24;

pub const SUM: usize = 28;

pub const COUNT: usize = 29;

pub const KEPT: usize = 30;

pub const CORE_LENGTH: usize = 165;
