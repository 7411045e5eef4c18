// image: runs the session on standard input and writes the pack image taken out at its end
// An image has what outlives a loss of power: a session that goes on from it goes on behind a power-on, and what a power-on loses is not in it.
#![tactic(auto)]

ghost use Rattle.std.specs.Prelude.{◌≡◌, List, ℕ, length, is_err, IfOk};
ghost use Rattle.streams.specs.Streams.{Front, Saying};
ghost use Rattle.image.specs.Image.{session_image_speech, session_image_of};

use session_run::SessionRunner;
use streams::{Said, Unread};

const INPUT_ROOM: usize = 32769;

const IMAGE_ROOM: usize = 160;

fn put_taken(bytes: &[u8], room: &mut [u8]) -> Said
    requires { length room.old ≡ 160 }
    ensures { Saying (session_image_speech bytes.now) room.old result room.new }
{
    text::put_taken::<SessionRunner, _>(
        bytes,
        b"no image was accepted",
        room,
        session_run::take_out,
    )
}

// What the program says. A byte more than a session may have is enough to know of any input.
fn extracted(input: &[u8], got: Result<usize, Unread>, room: &mut [u8]) -> Said
    requires input_room { length input.now ≡ 32769 }
    requires text_room { length room.old ≡ 160 }
    ensures by_index { (s : List ℕ) → IfOk got (Front s input.now) →
        Saying (session_image_of (is_err got) s) room.old result room.new }
{
    streams::put_answer(b"image", input, got, room, put_taken)
}

fn main(rt: HostRuntime) {
    streams::answer_input::<INPUT_ROOM, IMAGE_ROOM, _>(&rt, b"image", extracted);
}
