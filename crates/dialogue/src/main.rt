// Dialogues of the bench with the board, told line by line: the example of document 002, the pallet night, and others on the bus.
#![tactic(auto)]

mod words;

use board::Board;
use line::Plate;
use std::io;
use wire::codes::{LABEL_LENGTH, LONGEST_REPLY, LONGEST_REQUEST};

// Address 0, pause 55, 4 ticks a bit, 24 position bits, 8 blocks.
const PLATE: Plate = Plate {
    total: 8,
    bits: 24,
    address: 0,
    ticks: 4,
    pause: 55,
};

const LABEL: [u8; LABEL_LENGTH] = [0; LABEL_LENGTH];

// A board at work with its memory, and where the dialogue is told.
#[derive(Drop)]
struct Dialogue {
    rt: HostRuntime,
    board: Board,
    memory: [u8; 136],
}

impl Dialogue {
    // With a fresh board.
    fn begin(rt: HostRuntime, title: &str) -> io::Result<Dialogue> {
        println!(rt; "{title}")?;
        Ok(Dialogue {
            rt,
            board: board::fresh(PLATE),
            memory: [0; 136],
        })
    }

    // One request and what came of it. The tick count wraps around within it; a character has 11 bits, 44 ticks. Between requests no frame is
    // open, so that the kept bytes need not last.
    fn ask(&mut self, address: u32, command: u8, body: &[u8]) -> io::Result<()> {
        let mut request = [0; LONGEST_REQUEST];
        let mut kept = [0; LONGEST_REQUEST];
        let mut room = [0; LONGEST_REPLY];
        let ended = exchange::exchange(
            PLATE,
            &LABEL,
            self.board,
            address,
            command,
            body,
            0xFFFFFFF0,
            44,
            &mut request,
            &mut kept,
            &mut self.memory,
            &mut room,
        );
        if let Ok(heard) = ended {
            self.board = heard.board;
        }
        words::say_ended(self.rt, ended, &request, &room)
    }
}

// 002, "Example: Data Field Definition": two fields are made, code 2 becomes 66h, two bytes are stored. Its checksum 69 in the third request is
// a misprint for B9.
fn example(rt: HostRuntime) -> io::Result<()> {
    let mut bus = Dialogue::begin(rt, "Document 002, data field definition")?;
    bus.ask(0, 0x4E, b"")?;
    bus.ask(0, 0x4D, b"\x00\xC9\x55")?;
    bus.ask(0, 0x4D, b"\x01\xE0\x55")?;
    bus.ask(0, 0x4F, b"\x02\x55\x66")?;
    bus.ask(0, 0x4B, b"\x01\x05\x02\x66\x08\x15")
}

// The label field takes all eight blocks and gives six back, which the next field gets: seven are one too many. The commutation data in those
// six: blank, stored, read back. Pole pairs 4, offset angle 300, gain 1500, lag 180, two bytes each.
fn pallet_night(rt: HostRuntime) -> io::Result<()> {
    let mut bus = Dialogue::begin(rt, "The pallet night")?;
    bus.ask(0, 0x4E, b"")?;
    bus.ask(0, 0x4D, b"\x00\xC7\x55")?;
    bus.ask(0, 0x4E, b"")?;
    bus.ask(0, 0x4D, b"\x00\xC1\x55")?;
    bus.ask(0, 0x4E, b"")?;
    bus.ask(0, 0x4D, b"\x01\xC6\x55")?;
    bus.ask(0, 0x4D, b"\x01\xC5\x55")?;
    bus.ask(0, 0x4E, b"")?;
    bus.ask(0, 0x4A, b"\x01\x00\x08\x55")?;
    bus.ask(0, 0x4B, b"\x01\x00\x08\x55\x00\x04\x01\x2C\x05\xDC\x00\xB4")?;
    bus.ask(0, 0x4A, b"\x01\x00\x08\x55")?;
    bus.ask(0, 0x4E, b"")
}

// Broadcast, another board's address and one that is none. Then, while a code waits, every reply warns; 50h fetches it; 53h has no reply.
fn others(rt: HostRuntime) -> io::Result<()> {
    let mut bus = Dialogue::begin(rt, "Others on the bus")?;
    bus.ask(255, 0x4E, b"")?;
    bus.ask(1, 0x4E, b"")?;
    bus.ask(32, 0x4E, b"")?;
    bus.board = board::fault(PLATE, &LABEL, bus.board, 0x1E).unwrap_or(bus.board);
    bus.ask(0, 0x46, b"")?;
    bus.ask(0, 0x4C, b"\x05")?;
    bus.ask(0, 0x50, b"")?;
    bus.ask(0, 0x53, b"")
}

fn main(rt: HostRuntime) -> io::Result<()> {
    example(rt)?;
    pallet_night(rt)?;
    others(rt)
}
