// What a command changes in the state: who holds the state writes that part alone (01, "The commands").

// 4Fh: which of the four codes, and its new value; 47h and 49h; 55h; 43h; 47h from FFFFFFh; 50h; 53h.
#[derive(Clone, Copy, PartialEq, Eq)]
pub enum Effect {
    Nothing,
    Code(usize, u8),
    Counter(u32),
    Address(u8),
    Offset(u32),
    Overflow,
    OldestRead,
    Emptied,
}
