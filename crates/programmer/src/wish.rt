// The label tape, checked and read (02, Req 04).
ghost use Rattle.std.specs.Prelude.{◌≡◌, ◌≤◌, take, drop, Ok, Err};
ghost use Rattle.std.specs.Iterator.{YieldsFirstBy, item_count};
ghost use Rattle.meaning.specs.Fields.{bytes_of, blocks};
ghost use Rattle.records.specs.Records.{record_at};
ghost use Rattle.programmer.specs.Wishes.{is_codes, of_its_size, checked_from, checked_tape, wish_of};
ghost use Rattle.programmer.specs.Reading.{RecordStands, FieldAt, field_as, fields_left, Finds};

use records::{Cursor, Record};

// A field's number is one byte.
pub(crate) const MOST_FIELDS: usize = 256;

// What is wrong with a tape: a bad record; a body that is not of its field's size. The place is that of the record's first byte.
#[derive(Clone, Copy, PartialEq, Eq, Debug)]
pub enum TapeFault {
    BadRecord { at: usize },
    WrongSize { at: usize },
}

// A wanted field: its status and its bytes.
#[derive(Clone, Copy)]
pub struct Wanted<'a> {
    pub status: u8,
    pub bytes: &'a [u8],
}

// The wanted fields from a place of the tape on, in number order, up to the first record that is none or not of its size; `left` at most.
#[derive(Drop)]
pub struct Fields<'a> {
    tape: &'a [u8],
    at: usize,
    left: usize,
}

// A record may be as long as its length's two bytes can say.
#[tactic(auto, using(crate::proofs::Reading::stands))]
fn record_at(tape: &[u8], at: usize) -> Option<Record<'_>>
    ensures { RecordStands tape.now at result }
{
    (Cursor { at }).read(tape, u16::MAX).ok()
}

// "first and once kind 20h with the four access codes".
#[tactic(auto, unfolding(crate::specs::Wishes::is_codes))]
fn has_codes(tape: &[u8]) -> bool
    ensures { result ≡ is_codes (record_at tape.now) }
{
    match record_at(tape, 0) {
        Some(record) => record.kind == 0x20 && record.body.len() == 4,
        None => false,
    }
}

// "kind 21h for each field (status with bit 7 set, ..".
#[tactic(auto, using(crate::proofs::Reading::cut_field, crate::proofs::Reading::other_kind, crate::proofs::Reading::no_bit))]
fn field_here(tape: &[u8], at: usize) -> Option<Record<'_>>
    ensures { FieldAt tape.now at result }
{
    let record = record_at(tape, at)?;
    if record.kind != 0x21 {
        return None;
    }
    if !wire::has_field(wire::byte_at(record.body, 0)) {
        return None;
    }
    Some(record)
}

// ".. then exactly its bytes)".
#[tactic(auto, unfolding(crate::specs::Wishes::of_its_size))]
fn is_sized(body: &[u8]) -> bool
    ensures { result ≡ of_its_size body.now }
{
    let blocks = wire::blocks_in(wire::byte_at(body, 0));
    body.len() == 1 + 16 * usize::from(blocks)
}

// Past a record of a wrong size, the first: a bad record tells more, another wrong size does not. `many` fields may still come. The walk of
// `check_fields` without the sizes: one walk for both carries the fault along, and a good tape costs some 30 in 100 more instructions.
#[tactic(auto, using(crate::proofs::Reading::fault_end, crate::proofs::Reading::none_left, crate::proofs::Reading::bad_here, crate::proofs::Reading::wrong_more))]
fn past_wrong(tape: &[u8], wrong: TapeFault, from: usize, many: usize) -> Result<(), TapeFault>
    requires { many ≤ 256 }
    ensures { result ≡ checked_from many (Err wrong) from (drop from tape.now) }
{
    let mut at = from;
    for _ in 0..many {
        if tape.len() <= at {
            return Err(wrong);
        }
        let Some(record) = field_here(tape, at) else {
            return Err(TapeFault::BadRecord { at });
        };
        at = record.next.at;
    }
    if at < tape.len() {
        return Err(TapeFault::BadRecord { at });
    }
    Err(wrong)
}

// The records behind the codes. No wrong size is carried along: of a good tape there is none.
#[tactic(auto, using(crate::proofs::Reading::fault_end, crate::proofs::Reading::none_left, crate::proofs::Reading::bad_here, crate::proofs::Reading::sized_more, crate::proofs::Reading::wrong_here))]
fn check_fields(tape: &[u8]) -> Result<(), TapeFault>
    ensures { result ≡ checked_from 256 (Ok tt) 8 (drop 8 tape.now) }
{
    let mut at = 8;
    for before in 0..MOST_FIELDS {
        if tape.len() <= at {
            return Ok(());
        }
        let Some(record) = field_here(tape, at) else {
            return Err(TapeFault::BadRecord { at });
        };
        if !is_sized(record.body) {
            let many = MOST_FIELDS - 1 - before;
            return past_wrong(tape, TapeFault::WrongSize { at }, record.next.at, many);
        }
        at = record.next.at;
    }
    if at < tape.len() {
        return Err(TapeFault::BadRecord { at });
    }
    Ok(())
}

// "The whole tape is checked before the first request". Inlined: as a call it costs two instructions a field more, and stack.
#[tactic(auto, unfolding(crate::specs::Wishes::checked_tape))]
#[inline(always)]
pub fn check(tape: &[u8]) -> Result<(), TapeFault>
    ensures { result ≡ checked_tape tape.now }
{
    if !has_codes(tape) {
        return Err(TapeFault::BadRecord { at: 0 });
    }
    check_fields(tape)
}

impl<'a> Iterator for Fields<'a> {
    type Item = Wanted<'a>;

    ghost next_gives = { YieldsFirstBy field_as fields_left };

    ghost remaining = { item_count fields_left };

    #[tactic(auto, using(crate::proofs::Reading::none_allowed, crate::proofs::Reading::none_here, crate::proofs::Reading::unsized_here, crate::proofs::Reading::field_more, crate::proofs::Reading::field_fewer, crate::proofs::Reading::some_body, crate::proofs::Reading::body_rest))]
    fn next(&mut self) -> Option<Wanted<'a>> {
        if self.left == 0 {
            return None;
        }
        let record = field_here(self.tape, self.at)?;
        if !is_sized(record.body) {
            return None;
        }
        self.at = record.next.at;
        self.left -= 1;
        Some(Wanted {
            status: record.body[0],
            bytes: &record.body[1..],
        })
    }
}

// The first wanted fields, so many at most.
#[tactic(auto, using(crate::proofs::Reading::first_of))]
pub fn first_fields(tape: &[u8], most: usize) -> Fields<'_>
    ensures fields { fields_left result ≡ take most (wish_of tape.now).fields }
    ensures few { result.left ≤ 256 }
{
    Fields {
        tape,
        at: 8,
        left: most.min(MOST_FIELDS),
    }
}

// Wanted field i.
pub fn find(tape: &[u8], i: usize) -> Option<Wanted<'_>>
    ensures { Finds (wish_of tape.now) i result }
{
    first_fields(tape, MOST_FIELDS).nth(i)
}
