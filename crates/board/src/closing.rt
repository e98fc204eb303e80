// A frame is closed: judged, worked, answered (01, "Characters become frames").
ghost use Rattle.std.specs.Prelude.{◌≡◌, false, ◌≤◌};
ghost use Rattle.meaning.specs.State as meaning;
ghost use Rattle.meaning.specs.State.{last_address};
ghost use Rattle.line.specs.Line.{plate_of};
ghost use Rattle.board.specs.Work.{on_memory, MemoryLent, Ready, Workable, Answerable, Sendable, Sends, Refused, Serves, Closes};

use crate::reply::send;
use crate::rows::{needs_memory, on_memory, on_state};
use line::{Judgement, OpenFrame, Plate};
use state::State;
use wire::Answer;
use wire::codes::{ERROR_REPLY, ErrorCode};

// The state after a frame is closed, and how many reply bytes stand at the room's front, 0 being silence.
#[derive(Clone, Copy)]
pub struct Closed {
    pub state: State,
    pub sent: u8,
}

// The reply of a board in that state, whose data stands at place 2 of the room on; its length comes back.
fn reply_from(state: State, command: u8, answer: Answer, room: &mut [u8]) -> u8
    requires { (state.address ≤ last_address) × (Sendable answer room.old) }
    ensures { Sends state command answer room.old result room.new }
{
    let own = wire::own_byte(state.address);
    send(own, state.faults.waits(), command, answer, room)
}

// A frame that is no request is answered by its error code; 00h is silence (`fault_reply`), so that the code comes as a byte. The reply's length comes back.
pub fn refuse(state: State, code: u8, room: &mut [u8]) -> u8
    requires { Answerable state room.old }
    ensures { Refused state code room.old result room.new }
{
    if code == 0 {
        return 0;
    }
    reply_from(state, ERROR_REPLY, Err(ErrorCode { byte: code }), room)
}

// Request, memory and room are handed on one by one, as the public calls are lent them: a struct of them would be made for one call and taken apart in the next.

// A request that needs the memory, and leaves the state as it is.
fn ask(
    total: usize,
    state: State,
    command: u8,
    request: &[u8],
    memory: &mut [u8],
    room: &mut [u8],
) -> u8
    requires { (MemoryLent total state.codes command request.now memory.old room.old) × (state.address ≤ last_address) }
    ensures { (p : meaning.Plate) → p.total ≡ total → Serves p state command request.now memory.old room.old state result memory.new room.new }
{
    let answer = on_memory(total, &state.codes, command, request, memory, room);
    reply_from(state, command, answer, room)
}

// Any other request; the memory is not touched.
fn order(
    plate: Plate,
    label: &[u8],
    state: State,
    command: u8,
    request: &[u8],
    memory: &[u8],
    room: &mut [u8],
) -> Closed
    requires { (Workable plate label.now state command request.now memory.now room.old) × (on_memory command ≡ false) }
    ensures { Serves (plate_of plate label.now) state command request.now memory.now room.old result.state result.sent memory.now room.new }
{
    match on_state(plate.bits, label, state, command, request, room) {
        Ok(worked) => {
            let next = state.after(worked.effect);
            let sent = reply_from(next, command, Ok(worked.reply), room);
            Closed { state: next, sent }
        }
        Err(error) => {
            let sent = reply_from(state, command, Err(error), room);
            Closed { state, sent }
        }
    }
}

fn serve(
    plate: Plate,
    label: &[u8],
    state: State,
    command: u8,
    request: &[u8],
    memory: &mut [u8],
    room: &mut [u8],
) -> Closed
    requires { Workable plate label.now state command request.now memory.old room.old }
    ensures { Serves (plate_of plate label.now) state command request.now memory.old room.old result.state result.sent memory.new room.new }
{
    if needs_memory(command) {
        let sent = ask(plate.total as usize, state, command, request, memory, room);
        return Closed { state, sent };
    }
    order(plate, label, state, command, request, memory, room)
}

pub(crate) fn close(
    plate: Plate,
    label: &[u8],
    state: State,
    frame: OpenFrame,
    kept: &[u8],
    memory: &mut [u8],
    room: &mut [u8],
) -> Closed
    requires { Ready plate label.now state frame kept.now memory.old room.old }
    ensures { Closes (plate_of plate label.now) state frame kept.now memory.old room.old result memory.new room.new }
{
    // `as`: usize::from would be a call whose value each proof below has to name.
    let len = frame.len as usize;
    let bytes = &kept[..len];
    let judgement = frame.judged(wire::own_byte(state.address), bytes);
    let Judgement::Request(command) = judgement else {
        let sent = refuse(state, judgement.code(), room);
        return Closed { state, sent };
    };
    serve(
        plate,
        label,
        state,
        command,
        wire::data_part(bytes),
        memory,
        room,
    )
}
