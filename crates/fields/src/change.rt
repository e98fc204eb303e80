// A change in a field's blocks: counted with its sign, and done in memory (01, "The change in blocks is a signed number").
ghost use Rattle.std.specs.Prelude.{◌≡◌, ◌+◌, ◌-◌, ◌≤◌, min, max, length, ltb, pos, ◌-ℤ◌};
ghost use Rattle.meaning.specs.Bytes.{arg, zeros};
ghost use Rattle.meaning.specs.Fields as meaning;
ghost use Rattle.fields.specs.Shape.{Chargeable, Settable, stored_as};

use crate::cells::set_cells;
use crate::sizes::{BLOCK, bytes_of};

// The run of blocks to be cleared: the first of them, and the one past the last. No Range, which is used up by being read.
#[derive(Clone, Copy)]
pub struct Change {
    pub from: usize,
    pub to: usize,
}

// 01, "The change in blocks": the new size less the old.
fn change_of(new: u8, old: u8) -> i32
    ensures { result ≡ pos new -ℤ pos old }
{
    i32::from(new) - i32::from(old)
}

// The free blocks once the change is charged to them, or given back; below 0 where they do not suffice.
// `as`, for so few fit: a conversion that may fail would have a branch that is never taken.
fn charged(free: usize, change: i32) -> i32
    requires { Chargeable free change }
    ensures { result ≡ pos free -ℤ change }
{
    free as i32 - change
}

// Whether a field cannot go from its old size to the new one.
pub(crate) fn lacks_room(free: usize, new: u8, old: u8) -> bool
    requires { free ≤ 65535 }
    ensures { result ≡ ltb (old + free) new }
{
    charged(free, change_of(new, old)) < 0
}

// A block at a time, then what is over, and only the cells that are not 00h (02, Req 05).
// By `set_cells`, where all cells are written, and by index: of pieces lent by chunks_mut a proof knows no bytes afterwards.
fn clear(part: &mut [u8])
    ensures { part.new ≡ zeros (length part.old) }
{
    let blank = [0u8; BLOCK];
    let blocks = part.len() / BLOCK;
    for i in 0..blocks {
        set_cells(&mut part[BLOCK * i..BLOCK * (i + 1)], &blank);
    }
    let rest = part.len() - BLOCK * blocks;
    set_cells(&mut part[BLOCK * blocks..], &blank[..rest]);
}

// The status that is stored: 00h where bit 7 is clear, for then the field goes (01, "00h where no field is").
#[tactic(auto, unfolding(crate::specs::Shape::stored_as))]
fn stored_as(asked: u8) -> u8
    ensures { result ≡ stored_as asked }
{
    if wire::has_field(asked) {
        return asked;
    }
    0
}

// 01, "Blocks granted and blocks given back are set to 00h": that run of memory is lent on and cleared, then the status is stored. Field and status
// are read from the request when they are needed, so that nothing of it is held meanwhile.
pub(crate) fn apply(memory: &mut [u8], total: usize, request: &[u8], change: Change)
    requires { Settable total memory.old request.now change }
    ensures { memory.new ≡ meaning.put_status total (meaning.clear memory.old change.from (change.to - change.from)) (arg request.now 0) (stored_as (arg request.now 1)) }
{
    let from = bytes_of(change.from);
    let to = bytes_of(change.to);
    clear(&mut memory[from..to]);
    let at = bytes_of(total) + usize::from(request[0]);
    let status = [stored_as(request[1])];
    set_cells(&mut memory[at..at + 1], &status);
}

// 01, "Blocks granted and blocks given back": of a field that starts at this block, those from the smaller size up to the larger.
pub(crate) fn change_at(start: usize, old: u8, new: u8) -> Change
    requires { start ≤ 65535 }
    ensures { result ≡ record { from = start + min old new; to = start + max old new } }
{
    Change {
        from: start + usize::from(old.min(new)),
        to: start + usize::from(old.max(new)),
    }
}
