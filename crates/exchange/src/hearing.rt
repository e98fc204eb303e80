// The data part of what an exchange heard (01, "By a second call the data part is handed back").
ghost use Rattle.std.specs.Prelude.{◌≡◌, ◌+◌};
ghost use Rattle.exchange.specs.Passing.{data_heard, place_heard};

use crate::asking::{Heard, Refusal};

// A piece of the reply itself, by the bench; where nothing was sent, the empty piece. The request's buffer and the room are those that the exchange left.
pub fn data_heard<'a>(ended: Result<Heard, Refusal>, request: &[u8], room: &'a [u8]) -> &'a [u8]
    ensures value { result.now ≡ data_heard ended request.now room.now }
    ensures place { result.ref_ptr ≡ (room.entry.ref_ptr.0, place_heard ended request.now room.now + room.entry.ref_ptr.1) }
{
    let Ok(heard) = ended else {
        return &room[..0];
    };
    bench::data_of(
        wire::front(request, heard.request),
        wire::front(room, heard.reply),
    )
}
