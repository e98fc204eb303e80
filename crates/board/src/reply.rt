// The reply to a request, from the state after the work (01, "the reply always carries the board's own address").
ghost use Rattle.std.specs.Prelude.{◌≡◌};
ghost use Rattle.meaning.specs.Demands.{waits};
ghost use Rattle.meaning.specs.State.{none, own_byte};
ghost use Rattle.state.specs.declared.state.State.{State};
ghost use Rattle.state.specs.Queue.{queue_of};
ghost use Rattle.state.specs.State.{state_with};
ghost use Rattle.board.specs.Work.{Sendable, Sends};

use wire::Answer;
use wire::codes::ERROR_REPLY;

// `own` is the board's address byte after the work, `waiting` whether a code waits then. The reply's data stands at place 2 of the room on; its length comes back, 0 being silence.
pub fn send(own: u8, waiting: bool, command: u8, answer: Answer, room: &mut [u8]) -> u8
    requires { Sendable answer room.old }
    ensures { (s : State) → own ≡ own_byte (state_with s none) → waiting ≡ waits (queue_of s.faults) → Sends s command answer room.old result room.new }
{
    match answer {
        Err(error) => {
            let body = [error.byte];
            wire::write(own, state::marked(ERROR_REPLY, waiting), &body, room);
            4
        }
        Ok(Some(n)) => {
            wire::seal(own, state::marked(command, waiting), usize::from(n), room);
            n + 3
        }
        Ok(None) => 0,
    }
}
