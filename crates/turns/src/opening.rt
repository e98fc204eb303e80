// The first record: the plate (01, "plate .., first and once").
ghost use Rattle.std.specs.Prelude.{◌≡◌};
ghost use Rattle.turns.specs.Hearing.{readout_at};
ghost use Rattle.turns.specs.Openings.{opened_by};

use crate::reading::hear;
use line::Plate;
use records::Unread;
use tape::Event;

// A plate within its limits, and the place past it.
#[derive(Clone, Copy)]
pub struct Opened {
    pub plate: Plate,
    pub next: usize,
}

// More where there is not yet a whole record; anything but a plate within its limits is bad.
pub fn open(window: &[u8]) -> Result<Opened, Unread>
    ensures { result ≡ opened_by (readout_at 0 window.now) }
{
    let heard = hear(window, 0).ok_or(Unread::More)?;
    let Event::Plate {
        total,
        bits,
        address,
        ticks,
        pause,
    } = heard.event
    else {
        return Err(Unread::Bad);
    };
    // Field by field: the tape has bytes, the plate is wide enough for any number of a host.
    let plate = Plate {
        total: u32::from(total),
        bits: u32::from(bits),
        address: u32::from(address),
        ticks: u32::from(ticks),
        pause: u32::from(pause),
    };
    if !plate.is_ok() {
        return Err(Unread::Bad);
    }
    Ok(Opened {
        plate,
        next: heard.next,
    })
}
