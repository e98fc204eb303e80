// Where the programmer stands (02, Req 04).
ghost use Rattle.std.specs.Prelude.{◌≡◌};
ghost use Rattle.programmer.specs.Steps as steps;
ghost use Rattle.programmer.specs.Reading.{field_of};
ghost use Rattle.programmer.specs.Running.{is_read};

// The request that is due: 4Eh; 4Ch of a field present; 4Dh that deletes it, with the status that was read; and of a wanted field 4Dh that
// creates it write-enabled, 4Bh, 4Ah, and 4Dh that locks it.
#[derive(Clone, Copy, PartialEq, Eq, Debug)]
pub enum Step {
    Count,
    Look { field: u8 },
    Remove { field: u8, status: u8 },
    Create { field: u8 },
    Store { field: u8 },
    Read { field: u8 },
    Lock { field: u8 },
}

impl Step {
    // The wanted field of which the step is, 0 where it is of none, as `field_of` has it: none is counted before it then.
    pub(crate) fn wanted_field(self) -> usize
        ensures { result ≡ field_of self }
    {
        match self {
            Step::Count | Step::Look { .. } | Step::Remove { .. } => 0,
            Step::Create { field }
            | Step::Store { field }
            | Step::Read { field }
            | Step::Lock { field } => usize::from(field),
        }
    }

    pub(crate) fn is_read(self) -> bool
        ensures { result ≡ is_read self }
    {
        matches!(self, Step::Read { .. })
    }
}

// Why a request failed, in the order of the refusals: the check B0 to B6 by its number; the error code; what was read back differs.
// The check is kept as a number, not as the bench's own kind: whether a programmer is possible is answered for the numbers over 6 as well (R1). An
// error code is the byte that came, as the bench tells it.
#[derive(Clone, Copy, PartialEq, Eq, Debug)]
pub enum Why {
    Judgement(u8),
    Error(u8),
    Differs,
}

// A failed run keeps the step whose request failed.
#[derive(Clone, Copy, PartialEq, Eq, Debug)]
pub enum Standing {
    At(Step),
    Done,
    Failed(Step, Why),
}

impl Standing {
    // 4Ch and 4Dh name the last field that is still there.
    pub(crate) fn still_there(self) -> u32
        ensures { result ≡ steps.still_there self }
    {
        match self {
            Standing::At(Step::Look { field } | Step::Remove { field, .. }) => u32::from(field) + 1,
            _ => 0,
        }
    }
}
