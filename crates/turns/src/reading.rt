// What a record of the tape says.
ghost use Rattle.std.specs.Prelude.{◌≡◌};
ghost use Rattle.turns.specs.Hearing.{readout_of, readout_at};

use records::{Cursor, Unread};
use tape::{Event, LONGEST_RECORD};

// What a record says, and the place past it; where no record begins it is unfit.
#[derive(Clone, Copy)]
pub struct Heard {
    pub event: Event,
    pub next: usize,
}

// What stands at a place of the window; None where that is not yet a whole record.
// Inlined: as a call it costs a kept character 77 instructions more.
#[inline(always)]
pub fn hear(window: &[u8], at: usize) -> Option<Heard>
    ensures { readout_of result ≡ readout_at at window.now }
{
    match (Cursor { at }).read(window, LONGEST_RECORD) {
        Ok(record) => Some(Heard {
            event: tape::event_of(record.kind, record.body),
            next: record.next.at,
        }),
        Err(Unread::Bad) => Some(Heard {
            event: Event::Unfit,
            next: at,
        }),
        Err(Unread::More) => None,
    }
}
