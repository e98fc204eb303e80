// The reader of records: length (2 bytes, little-endian, counting what follows), kind (2 bytes), body. It knows no kinds.
ghost use Rattle.std.specs.Prelude.{◌≡◌, drop};
ghost use Rattle.records.specs.Reader.{read_as, read_at, LiesIn};

// The place of the next record in the part of the tape that is at hand. It goes beside the part and holds no slice of it: the part is filled anew between two reads.
#[derive(Clone, Copy)]
pub struct Cursor {
    pub at: usize,
}

// A whole record: its kind, where its body starts, as `read_at` promises it, the body, and the place past it.
#[derive(Clone, Copy)]
pub struct Record<'a> {
    pub kind: u16,
    pub start: usize,
    pub body: &'a [u8],
    pub next: Cursor,
}

// Why there is none: the part at hand ends before the record does, or no record begins so.
#[derive(Clone, Copy, PartialEq, Eq)]
pub enum Unread {
    More,
    Bad,
}

impl Cursor {
    // A length over the longest that the caller's kinds have is bad at once, so that no more than that has to be at hand.
    pub fn read(self, s: &[u8], longest: u16) -> Result<Record<'_>, Unread>
        ensures value { read_as result ≡ read_at longest self.at (drop self.at s.now) }
        ensures place { LiesIn s.entry.ref_ptr result }
    {
        let at = self.at;
        if s.len() < at {
            return Err(Unread::More);
        }
        let rest = &s[at..];
        let [low, high, kind_low, kind_high, ..] = rest else {
            return Err(Unread::More);
        };
        let counted = u16::from_le_bytes([*low, *high]);
        if counted < 2 || longest < counted {
            return Err(Unread::Bad);
        }
        let size = 2 + usize::from(counted);
        if rest.len() < size {
            return Err(Unread::More);
        }
        Ok(Record {
            kind: u16::from_le_bytes([*kind_low, *kind_high]),
            start: at + 4,
            body: &rest[4..size],
            next: Cursor { at: at + size },
        })
    }
}
