// Reply data at the place of a room where it belongs: behind address and command.
ghost use Rattle.std.specs.Prelude.{◌≡◌, ◌≤◌, [], ◌∷◌, length};
ghost use Rattle.meaning.specs.Bytes.{longest_reply, put};
ghost use Rattle.fields.specs.Replies.{Repeatable, Replied, named};

use wire::Answer;

// Two bytes, stored where they belong: no slice of them is made to be filled in.
pub(crate) fn reply_two(first: u8, second: u8, room: &mut [u8]) -> Answer
    requires { longest_reply ≤ length room.old }
    ensures { Replied (first ∷ second ∷ []) room.old result room.new }
{
    room[2] = first;
    room[3] = second;
    Ok(Some(2))
}

// Field, offset and count, as the request has them.
// Three stores: copy_from_slice looks first whether the two overlap, 4 to 5 instructions more a call, and a fill is a loop.
pub(crate) fn repeat_three(request: &[u8], room: &mut [u8])
    requires { Repeatable request.now room.old }
    ensures { room.new ≡ put room.old 2 (named request.now) }
{
    room[2] = request[0];
    room[3] = request[1];
    room[4] = request[2];
}
