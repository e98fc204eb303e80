// 4Dh: a field created, modified or deleted (01, "4Dh").
ghost use Rattle.std.specs.Prelude.{◌≡◌, true, false, List, length, ℕ, ◌+◌, ◌≤◌, ◌<◌};
ghost use Rattle.meaning.specs.Bytes.{both, differ};
ghost use Rattle.meaning.specs.State.{Plate, State};
ghost use Rattle.meaning.specs.Fields.{exists};
ghost use Rattle.meaning.specs.Commands.{c4d, create, modify, delete, shape_field};
ghost use Rattle.wire.specs.Answers.{Works};
ghost use Rattle.fields.specs.Memory.{Sits, survey_of};
ghost use Rattle.fields.specs.Replies.{Looked};
ghost use Rattle.fields.specs.Shape.{Blocks, Judged, Shapes, Surveyed};

use crate::change::{Change, apply, change_at, lacks_room};
use crate::reply::reply_two;
use crate::seen::Survey;
use crate::status::is_wrong_code;
use wire::Answer;
use wire::codes::ErrorCode;

// 01, "10h if the size changes and the field is not the last".
fn is_held(seen: Survey, field: u8, new: u8, old: u8) -> bool
    ensures { result ≡ both (differ new old) (differ (field + 1) seen.fields) }
{
    if new == old {
        return false;
    }
    usize::from(field) + 1 != seen.fields
}

// 0Fh unless the code equals the one the new status names, whatever bit 3 says; 10h.
fn judge_create(seen: Survey, codes: &[u8], new: u8, code: u8) -> Result<Change, ErrorCode>
    requires { Blocks seen.total seen.free × (length codes.now ≡ 4) }
    ensures { (f : ℕ) → Sits seen.total (survey_of seen) f → f ≡ seen.fields → exists new ≡ true
        → Judged codes.now seen.total f new (λ (s : State) (m : List ℕ). create seen.total s m (survey_of seen) f new code) result }
{
    if is_wrong_code(codes, new, code) {
        return Err(ErrorCode::WRONG_CODE);
    }
    let blocks = wire::blocks_in(new);
    if lacks_room(seen.free, blocks, 0) {
        return Err(ErrorCode::FIXED_SIZE);
    }
    Ok(change_at(seen.total - seen.free, 0, blocks))
}

// 0Fh unless the code equals the one the stored status names; 10h; 10h.
fn judge_modify(
    seen: Survey,
    codes: &[u8],
    field: u8,
    new: u8,
    code: u8,
) -> Result<Change, ErrorCode>
    requires { (seen.free ≤ 65535) × (seen.first ≤ 65535) × (length codes.now ≡ 4) }
    ensures { (t : ℕ) → Sits t (survey_of seen) field → field < seen.fields → exists new ≡ true
        → Judged codes.now t field new (λ (s : State) (m : List ℕ). modify t s m (survey_of seen) field new code) result }
{
    let stored = seen.status;
    if is_wrong_code(codes, stored, code) {
        return Err(ErrorCode::WRONG_CODE);
    }
    let blocks = wire::blocks_in(new);
    let old = wire::blocks_in(stored);
    if is_held(seen, field, blocks, old) {
        return Err(ErrorCode::FIXED_SIZE);
    }
    if lacks_room(seen.free, blocks, old) {
        return Err(ErrorCode::FIXED_SIZE);
    }
    Ok(change_at(seen.first, old, blocks))
}

// 0Fh as for modify; 0Dh if bits 0 to 6 differ from the stored ones (02, Req 02); 10h if not the last.
fn judge_delete(
    seen: Survey,
    codes: &[u8],
    field: u8,
    gone: u8,
    code: u8,
) -> Result<Change, ErrorCode>
    requires { (seen.first ≤ 65535) × (length codes.now ≡ 4) }
    ensures { (t : ℕ) → Sits t (survey_of seen) field → field < seen.fields → exists gone ≡ false
        → Judged codes.now t field gone (λ (s : State) (m : List ℕ). delete t s m (survey_of seen) field gone code) result }
{
    if is_wrong_code(codes, seen.status, code) {
        return Err(ErrorCode::WRONG_CODE);
    }
    if wire::attributes_in(gone) != wire::attributes_in(seen.status) {
        return Err(ErrorCode::WRONG_ARGUMENT);
    }
    if usize::from(field) + 1 != seen.fields {
        return Err(ErrorCode::FIXED_SIZE);
    }
    Ok(change_at(seen.first, wire::blocks_in(seen.status), 0))
}

// 03h; then create, modify or delete, otherwise 12h.
fn judge_shape(seen: Survey, codes: &[u8], request: &[u8]) -> Result<Change, ErrorCode>
    requires { Surveyed seen.total (survey_of seen) codes.now request.now }
    ensures { Shapes codes.now seen.total (survey_of seen) request.now result }
{
    let field = request[0];
    let number = usize::from(field);
    let status = request[1];
    let code = request[2];
    if !seen.sound {
        return Err(ErrorCode::TABLE_DESTROYED);
    }
    if wire::has_field(status) {
        if number == seen.fields {
            return judge_create(seen, codes, status, code);
        }
        if seen.fields < number {
            return Err(ErrorCode::WRONG_FIELD);
        }
        return judge_modify(seen, codes, field, status, code);
    }
    if seen.fields <= number {
        return Err(ErrorCode::WRONG_FIELD);
    }
    judge_delete(seen, codes, field, status, code)
}

// 4Dh: field, status, code. The reply repeats the status as received.
#[tactic(auto, using(crate::proofs::Rows::asked_4d))]
pub fn shape_field(
    seen: Survey,
    memory: &mut [u8],
    codes: &[u8],
    request: &[u8],
    room: &mut [u8],
) -> Answer
    requires { Looked c4d seen codes.now memory.old request.now room.old }
    ensures { (p : Plate) (s : State) → p.total ≡ seen.total → s.codes ≡ codes.now
        → Works (shape_field p s memory.old request.now) memory.old room.old result memory.new room.new }
{
    let field = request[0];
    let change = judge_shape(seen, codes, request)?;
    apply(memory, seen.total, request, change);
    reply_two(field, request[1], room)
}
