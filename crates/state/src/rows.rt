// The commands that work on the state alone, their checks in the row's order (01, "The commands"). Reply data goes to place 2 of the room on.
ghost use Rattle.std.specs.Prelude.{◌≡◌, not, List, ℕ, ◌+◌, ◌≤◌, ◌<◌, ◌^◌, leb, ltb, length, get_or, Some, Ok};
ghost use Rattle.meaning.specs.Bytes.{differ, longest_reply, put};
ghost use Rattle.meaning.specs.State.{Plate, Line, board_byte, last_count, position, offset_for};
ghost use Rattle.meaning.specs.Commands.{c42, c43, c46, c47, c49, c4f, c50, c53, c55};
ghost use Rattle.state.specs.State.{state_with};
ghost use Rattle.state.specs.Rows.{refused_if, Answers};

use crate::effects::Effect;
use crate::state::{LAST_COUNT, State, size};
use wire::codes::ErrorCode;

// What an accepted command changes in the state, and how many bytes of reply data stand from place 2 of the room on; None is no reply.
#[derive(Clone, Copy)]
pub struct Worked {
    pub effect: Effect,
    pub reply: Option<u8>,
}

pub(crate) fn accepted(effect: Effect, count: u8) -> Result<Worked, ErrorCode>
    ensures { result ≡ Ok (record { effect = effect; reply = Some count }) }
{
    Ok(Worked {
        effect,
        reply: Some(count),
    })
}

// 01, "left to right in the table": where its test holds, a check ends the command with its error code.
fn refused_if(fails: bool, error: ErrorCode) -> Result<(), ErrorCode>
    ensures { result ≡ refused_if fails error.byte }
{
    if fails {
        return Err(error);
    }
    Ok(())
}

// 01, "02h if locked".
fn check_unlocked(state: State) -> Result<(), ErrorCode>
    ensures { result ≡ refused_if state.faults.locked 0x02 }
{
    refused_if(state.faults.locked, ErrorCode::POSITION_LOCKED)
}

// 01, "0Fh unless".
fn check_code(codes: [u8; 4], number: usize, given: u8) -> Result<(), ErrorCode>
    requires { number < 4 }
    ensures { result ≡ refused_if (differ given (get_or codes number 0)) 0x0F }
{
    refused_if(given != codes[number], ErrorCode::WRONG_CODE)
}

// 01, row 43h, "0Dh if position ≥ 2^P".
fn check_position(bits: u32, wanted: u32) -> Result<(), ErrorCode>
    requires { bits ≤ 32 }
    ensures { result ≡ refused_if (leb (2 ^ bits) wanted) 0x0D }
{
    refused_if(size(bits) <= u64::from(wanted), ErrorCode::WRONG_ARGUMENT)
}

// 01, row 4Fh, "0Dh if number over 3".
fn check_number(number: u8) -> Result<(), ErrorCode>
    ensures { result ≡ refused_if (ltb 3 number) 0x0D }
{
    refused_if(3 < number, ErrorCode::WRONG_ARGUMENT)
}

// 000, table 30, "40...5Fh".
fn check_address(byte: u8) -> Result<(), ErrorCode>
    ensures { result ≡ refused_if (not (board_byte byte)) 0x0D }
{
    refused_if(!wire::is_board(byte), ErrorCode::WRONG_ARGUMENT)
}

// 01, "Position is (measured + offset) mod 2^P".
fn position(bits: u32, state: State) -> u32
    requires { bits ≤ 32 }
    ensures { (p : Plate) (l : Line) → p.bits ≡ bits → result ≡ position p (state_with state l) }
{
    let size = size(bits);
    ((u64::from(state.measured) % size + u64::from(state.offset)) % size) as u32
}

// 01, "43h sets offset to (wanted − measured) mod 2^P".
fn offset_for(bits: u32, state: State, wanted: u32) -> u32
    requires { bits ≤ 32 }
    ensures { (p : Plate) (l : Line) → p.bits ≡ bits → result ≡ offset_for p (state_with state l) wanted }
{
    let size = size(bits);
    ((u64::from(wanted) + size - u64::from(state.measured) % size) % size) as u32
}

// Reply data, to the room's place 2 on.
pub(crate) fn put_data(bytes: &[u8], room: &mut [u8])
    requires { 2 + length bytes.now ≤ length room.old }
    ensures { room.new ≡ put room.old 2 bytes.now }
{
    wire::fill(bytes, &mut room[2..]);
}

// Bits, room and request come as the caller has them, and each function asks what it needs: a type of their own would have to be made at every call.

// 42h: 02h if locked.
pub fn read_position(bits: u32, state: State, room: &mut [u8]) -> Result<Worked, ErrorCode>
    requires { (bits ≤ 32) × (longest_reply ≤ length room.old) }
    ensures { (p : Plate) (l : Line) (m d : List ℕ) → p.bits ≡ bits → Answers c42 p state l m d room.old result room.new }
{
    check_unlocked(state)?;
    put_data(&position(bits, state).to_be_bytes(), room);
    accepted(Effect::Nothing, 4)
}

// 43h: 02h if locked; 0Fh unless Code0; 0Dh if position ≥ 2^P.
pub fn set_position(bits: u32, state: State, request: &[u8]) -> Result<Worked, ErrorCode>
    requires { (bits ≤ 32) × (length request.now ≡ 5) }
    ensures { (p : Plate) (l : Line) (m w : List ℕ) → p.bits ≡ bits → Answers c43 p state l m request.now w result w }
{
    check_unlocked(state)?;
    check_code(state.codes, 0, request[4])?;
    let wanted = u32::from_be_bytes([request[0], request[1], request[2], request[3]]);
    check_position(bits, wanted)?;
    let offset = offset_for(bits, state, wanted);
    accepted(Effect::Offset(offset), 0)
}

// 46h
pub fn read_counter(state: State, room: &mut [u8]) -> Result<Worked, ErrorCode>
    requires { longest_reply ≤ length room.old }
    ensures { (p : Plate) (l : Line) (m d : List ℕ) → Answers c46 p state l m d room.old result room.new }
{
    put_data(&state.counter.to_be_bytes()[1..], room);
    accepted(Effect::Nothing, 3)
}

// 47h: from FFFFFFh the counter goes to 0 and 08h is queued.
pub fn step_counter(state: State) -> Result<Worked, ErrorCode>
    requires { state.counter ≤ last_count }
    ensures { (p : Plate) (l : Line) (m d w : List ℕ) → Answers c47 p state l m d w result w }
{
    if state.counter == LAST_COUNT {
        return accepted(Effect::Overflow, 0);
    }
    accepted(Effect::Counter(state.counter + 1), 0)
}

// 49h: 0Fh unless Code0.
pub fn clear_counter(state: State, request: &[u8]) -> Result<Worked, ErrorCode>
    ensures { (p : Plate) (l : Line) (m w : List ℕ) → Answers c49 p state l m request.now w result w }
{
    check_code(state.codes, 0, wire::byte_at(request, 0))?;
    accepted(Effect::Counter(0), 0)
}

// 4Fh: 0Dh if the number is over 3; 0Fh if the old code differs.
pub fn set_code(state: State, request: &[u8], room: &mut [u8]) -> Result<Worked, ErrorCode>
    requires { (length request.now ≡ 3) × (longest_reply ≤ length room.old) }
    ensures { (p : Plate) (l : Line) (m : List ℕ) → Answers c4f p state l m request.now room.old result room.new }
{
    check_number(request[0])?;
    let number = usize::from(request[0]);
    check_code(state.codes, number, request[1])?;
    room[2] = request[0];
    accepted(Effect::Code(number, request[2]), 1)
}

// 50h: the oldest code, or 00h, which is then removed.
pub fn read_fault(state: State, room: &mut [u8]) -> Result<Worked, ErrorCode>
    requires { longest_reply ≤ length room.old }
    ensures { (p : Plate) (l : Line) (m d : List ℕ) → Answers c50 p state l m d room.old result room.new }
{
    let oldest = state.read();
    room[2] = oldest.code;
    accepted(Effect::OldestRead, 1)
}

// 53h: the queue is emptied, and no reply follows (000, "Encoder Reset").
pub fn reset(state: State) -> Result<Worked, ErrorCode>
    ensures { (p : Plate) (l : Line) (m d w : List ℕ) → Answers c53 p state l m d w result w }
{
    Ok(Worked {
        effect: Effect::Emptied,
        reply: None,
    })
}

// 02, Req 01, 55h: 0Fh unless Code0; 0Dh unless the new byte is a board's.
pub fn set_address(state: State, request: &[u8]) -> Result<Worked, ErrorCode>
    requires { length request.now ≡ 2 }
    ensures { (p : Plate) (l : Line) (m w : List ℕ) → Answers c55 p state l m request.now w result w }
{
    check_code(state.codes, 0, request[1])?;
    let byte = request[0];
    check_address(byte)?;
    accepted(Effect::Address(byte - 0x40), 0)
}
