// session: runs the session on standard input and prints an answer for each record
#![tactic(auto)]

ghost use Rattle.std.specs.Prelude.{List, ◌≡◌, ℕ, length, is_err, IfOk};
ghost use Rattle.streams.specs.Streams.{Front, Saying};
ghost use Rattle.session.specs.Session.{session_printed_of};

use session_run::SessionRunner;
use streams::{Said, Unread};

const INPUT_ROOM: usize = 32769;

const TEXT_ROOM: usize = 270372;

// What the program says. A byte more than a session may have is enough to know of any input.
fn printed(input: &[u8], got: Result<usize, Unread>, room: &mut [u8]) -> Said
    requires input_room { length input.now ≡ 32769 }
    requires text_room { length room.old ≡ 270372 }
    ensures by_index { (s : List ℕ) → IfOk got (Front s input.now) →
        Saying (session_printed_of (is_err got) s) room.old result room.new }
{
    streams::put_answer(
        b"session",
        input,
        got,
        room,
        text::put_session::<SessionRunner>,
    )
}

fn main(rt: HostRuntime) {
    streams::answer_input::<INPUT_ROOM, TEXT_ROOM, _>(&rt, b"session", printed);
}
