// The status table, walked once (01, "03h").
ghost use Rattle.std.specs.Prelude.{◌≡◌, ℕ, ◌≤◌, List, length, drop};
ghost use Rattle.meaning.specs.Bytes.{blank};
ghost use Rattle.meaning.specs.Fields.{table};
ghost use Rattle.fields.specs.Memory.{Counted, CountedOn, Saw, Sized, Statuses};

use crate::seen::Survey;
use crate::sizes::bytes_of;

// How many fields stand at the front, and their blocks.
#[derive(Clone, Copy)]
pub struct Tally {
    pub fields: usize,
    pub blocks: usize,
}

// 01, "its first n bytes have bit 7 set": the status bytes at the front that have it. The count goes on from what was counted before.
fn count_on(statuses: &[u8], from: Tally) -> Tally
    requires { Counted statuses.now from }
    ensures { CountedOn statuses.now from result }
{
    let mut counted = from;
    for &status in &statuses[from.fields..] {
        if !wire::has_field(status) {
            return counted;
        }
        counted.fields += 1;
        counted.blocks += usize::from(wire::blocks_in(status));
    }
    counted
}

// 01, "the rest are 00h": four bytes at a time, and then what is left. A `for` over the fours: with `all` over both, four kinds of calls are over their limit.
fn is_blank_from(statuses: &[u8], place: usize) -> bool
    requires { place ≤ length statuses.now }
    ensures { result ≡ blank (drop place statuses.now) }
{
    let (fours, rest) = statuses[place..].as_chunks::<4>();
    for four in fours {
        if wire::number_at(four, 0) != 0 {
            return false;
        }
    }
    rest.iter().all(|&status| status == 0)
}

// The walk halts at the named field, to note where it starts, and goes on from there: no status is passed twice.
fn walk(statuses: &[u8], total: usize, field: usize) -> Survey
    requires { Statuses total statuses.now }
    ensures { (m : List ℕ) → table total m ≡ statuses.now → Saw total m field result }
{
    let none = Tally {
        fields: 0,
        blocks: 0,
    };
    let before = count_on(wire::front(statuses, field), none);
    let all = count_on(statuses, before);
    let rest_blank = is_blank_from(statuses, all.fields);
    Survey {
        total,
        sound: rest_blank & (all.blocks <= total),
        fields: all.fields,
        free: total.saturating_sub(all.blocks),
        first: before.blocks,
        status: wire::byte_at(statuses, field),
    }
}

// 01, "Memory": all that a command reads of the table, whether it is sound or not.
pub fn survey(memory: &[u8], total: usize, field: u8) -> Survey
    requires { Sized total memory.now }
    ensures { Saw total memory.now field result }
{
    let from = bytes_of(total);
    let to = from + total;
    walk(&memory[from..to], total, usize::from(field))
}
