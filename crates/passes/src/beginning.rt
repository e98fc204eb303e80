// How a tape begins: with the plate.
ghost use Rattle.passes.specs.Beginnings.{BeginsWith};

use crate::session::{Stop, Work};
use records::Unread;
use tape::LONGEST_LINE;
use turns::open;

// A fresh board works from a place of the window on.
#[derive(Clone, Copy)]
pub(crate) struct Begun {
    pub work: Work,
    pub from: usize,
}

// Before the plate a pass stops at once for want of space or of bytes, or because the first record is bad.
pub(crate) fn begin(window: &[u8], space: usize) -> Result<Begun, Stop>
    ensures { BeginsWith window.now space result }
{
    if space < LONGEST_LINE {
        return Err(Stop::Full);
    }
    match open(window) {
        Ok(opened) => {
            let plate = opened.plate;
            let board = board::fresh(plate);
            Ok(Begun {
                work: Work { plate, board },
                from: opened.next,
            })
        }
        Err(Unread::More) => Err(Stop::More),
        Err(Unread::Bad) => Err(Stop::Over),
    }
}
