// A named field looked up in the table, with the checks that 4Ah, 4Bh and 4Ch begin with (01, "The commands").
ghost use Rattle.std.specs.Prelude.{◌≡◌, List, ℕ, ◌≤◌, length};
ghost use Rattle.meaning.specs.Fields.{survey};
ghost use Rattle.fields.specs.Memory.{survey_of};
ghost use Rattle.fields.specs.Found.{FoundIn, OpenTo};

use crate::seen::Survey;
use crate::sizes::bytes_of;
use crate::status::is_barred;
use wire::codes::ErrorCode;

// A field's own part of memory, from its first byte up to the one past its last, and its status. Two places and no slice, for memory is lent on to be written.
#[derive(Clone, Copy)]
pub struct Field {
    pub from: usize,
    pub to: usize,
    pub status: u8,
}

// 03h; 12h.
#[tactic(auto, using(crate::proofs::Finds::found_unsound, crate::proofs::Finds::found_none))]
pub(crate) fn find_field(seen: Survey, field: u8) -> Result<Field, ErrorCode>
    requires { seen.first ≤ 65535 }
    ensures { (t : ℕ) (m : List ℕ) → survey_of seen ≡ survey t m field → FoundIn t m field result }
{
    if !seen.sound {
        return Err(ErrorCode::TABLE_DESTROYED);
    }
    if seen.fields <= usize::from(field) {
        return Err(ErrorCode::WRONG_FIELD);
    }
    let from = bytes_of(seen.first);
    let to = from + bytes_of(usize::from(wire::blocks_in(seen.status)));
    Ok(Field {
        from,
        to,
        status: seen.status,
    })
}

// 03h; 12h; 0Fh.
pub(crate) fn open_field(
    seen: Survey,
    codes: &[u8],
    field: u8,
    code: u8,
) -> Result<Field, ErrorCode>
    requires { (seen.first ≤ 65535) × (length codes.now ≡ 4) }
    ensures { (t : ℕ) (m : List ℕ) → survey_of seen ≡ survey t m field → OpenTo codes.now code t m field result }
{
    let found = find_field(seen, field)?;
    if is_barred(codes, found.status, code) {
        return Err(ErrorCode::WRONG_CODE);
    }
    Ok(found)
}
