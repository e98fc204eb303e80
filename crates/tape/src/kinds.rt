// The kinds of the answer program's records (01, "Kinds").
#![tactic(auto, using(crate::proofs::Events::kinds_read))]

ghost use Rattle.std.specs.Prelude.{◌≡◌};
ghost use Rattle.meaning.specs.Bytes.{arg};
ghost use Rattle.meaning.specs.Run as run;
ghost use Rattle.tape.specs.Kinds.{plate, call, plate_in, character_in, sized, call_of};
ghost use Rattle.tape.specs.Reader.{said_of, number_of};

use wire::codes::LABEL_LENGTH;

// The longest record of the kinds, a character's: kind, tick, value and parity, as its length counts.
pub const LONGEST_RECORD: u16 = 8;

// 02, Req 01: the label bytes "on the tape .. are all zero".
pub const NO_LABEL: [u8; LABEL_LENGTH] = [0; LABEL_LENGTH];

// What a record says; Unfit where it fits no kind. That is a case here and no Option round the event: one in the Option that `hear` of turns gives takes
// 122 instructions an event of a tape of 128-byte reads and stores, and this takes 87: the answer program is to take no more than it did, 90.
#[derive(Clone, Copy)]
pub enum Event {
    Plate {
        total: u8,
        bits: u8,
        address: u8,
        ticks: u8,
        pause: u8,
    },
    Character {
        tick: u32,
        value: u8,
        parity: bool,
    },
    Poll {
        tick: u32,
    },
    Measured {
        position: u32,
    },
    Fault {
        code: u8,
    },
    PowerOn,
    Unfit,
}

// 01, "plate (T, P, a, ticks per bit, pause, a byte each)".
fn plate_in(body: &[u8]) -> Event
    ensures { said_of result ≡ sized 5 body.now (plate (plate_in body.now)) }
{
    let &[total, bits, address, ticks, pause] = body else {
        return Event::Unfit;
    };
    Event::Plate {
        total,
        bits,
        address,
        ticks,
        pause,
    }
}

// A tick or a position: four bytes, and no more.
fn number_in(body: &[u8]) -> Option<u32>
    ensures { result ≡ number_of body.now }
{
    let &[a, b, c, d] = body else {
        return None;
    };
    Some(u32::from_le_bytes([a, b, c, d]))
}

// 01, "character (tick 4, value, parity fault 0 or 1)".
fn character_in(body: &[u8]) -> Event
    ensures { said_of result ≡ sized 6 body.now (character_in body.now) }
{
    let &[a, b, c, d, value, fault] = body else {
        return Event::Unfit;
    };
    if 1 < fault {
        return Event::Unfit;
    }
    Event::Character {
        tick: u32::from_le_bytes([a, b, c, d]),
        value,
        parity: fault == 1,
    }
}

fn fault_in(body: &[u8]) -> Event
    ensures { said_of result ≡ sized 1 body.now (call (run.fault (arg body.now 0))) }
{
    let &[code] = body else {
        return Event::Unfit;
    };
    Event::Fault { code }
}

fn power_on_in(body: &[u8]) -> Event
    ensures { said_of result ≡ sized 0 body.now (call run.power_on) }
{
    if !body.is_empty() {
        return Event::Unfit;
    }
    Event::PowerOn
}

// What a record of that kind says. Any kind and any body are taken: 01, "fits none of this", is Unfit.
#[tactic(auto, unfolding(crate::specs::Kinds::call_of))]
pub fn event_of(kind: u16, body: &[u8]) -> Event
    ensures { said_of result ≡ call_of kind body.now }
{
    match kind {
        1 => plate_in(body),
        2 => character_in(body),
        3 => match number_in(body) {
            Some(tick) => Event::Poll { tick },
            None => Event::Unfit,
        },
        4 => match number_in(body) {
            Some(position) => Event::Measured { position },
            None => Event::Unfit,
        },
        5 => fault_in(body),
        6 => power_on_in(body),
        _ => Event::Unfit,
    }
}
