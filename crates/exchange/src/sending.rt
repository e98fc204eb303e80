// A request on the line, character by character (01, "Characters become frames").
ghost use Rattle.line.specs.Line.{plate_of};
ghost use Rattle.exchange.specs.Calls.{Clear, SendsRequest};

use board::Board;
use line::Plate;

// The board after the last character, and that character's stamp.
#[derive(Clone, Copy)]
pub(crate) struct Sent {
    pub board: Board,
    pub last: u32,
}

// The first character ends at `tick`, each further one `apart` ticks after the last. On a clear line the board refuses none.
// Plate, label and the three lent buffers go singly, as `board`'s calls take them, whose contracts name each.
pub(crate) fn send(
    plate: Plate,
    label: &[u8],
    board: Board,
    tick: u32,
    apart: u32,
    asked: &[u8],
    kept: &mut [u8],
    memory: &mut [u8],
    room: &mut [u8],
) -> Sent
    requires { Clear (plate_of plate label.now) board apart asked.now kept.old memory.old room.old }
    ensures { SendsRequest (plate_of plate label.now) board tick apart asked.now kept.old memory.old room.old result kept.new memory.new room.new }
{
    let mut sent = Sent { board, last: tick };
    let mut stamp = tick;
    for &byte in asked {
        let stepped = board::character(
            plate, label, sent.board, stamp, byte, false, kept, memory, room,
        )
        .unwrap();
        sent = Sent {
            board: stepped.board,
            last: stamp,
        };
        stamp = line::stamp_after(stamp, apart);
    }
    sent
}
