// mend OUT: writes the pack image on standard input to the file OUT with its damage mended, and prints a line for each byte that is changed
#![tactic(auto)]

ghost use Rattle.std.specs.Prelude.{◌≡◌, false, List, ℕ, length, is_err, IfOk};
ghost use Rattle.streams.specs.Streams.{Front, Saying, error, refused_text};
ghost use Rattle.mending.specs.Mending.{mend_refusal_number};
ghost use Rattle.mend.specs.Mend.{mend_refusal_words, mend_speech, Mends};

use mending::MendRefusal;
use streams::{Said, Stream, Unread};

fn put_why(why: MendRefusal, text: &mut [u8]) -> Said
    requires { length text.old ≡ 540 }
    ensures { Saying (error (refused_text (mend_refusal_number why) (mend_refusal_words why))) text.old result text.new }
{
    let words: &[u8] = match why {
        MendRefusal::Size => b"the image is not 60 bytes",
        MendRefusal::Family => b"the image has another family code",
    };
    streams::put_refused(u8::from(why), words, text)
}

// The lines, or why there are none.
fn put_lines(image: &[u8], text: &mut [u8; 540]) -> Said
    ensures { Saying (mend_speech image.now) text.old result text.new }
{
    match mending::changes(image, text) {
        Ok(count) => Said {
            stream: Stream::Output,
            count,
        },
        Err(why) => put_why(why, text),
    }
}

// What the image is refused with, the lines tell.
fn put_mended(image: &[u8], file: &mut [u8], text: &mut [u8; 540]) -> Said
    requires { length file.old ≡ 60 }
    ensures { Mends false image.now file.old text.old result file.new text.new }
{
    let _ = mending::mend(image, file);
    put_lines(image, text)
}

// What the program says, and the bytes for the file. A byte more than an image has is enough to know of any input. (That the rooms keep their
// lengths is said for `main`.) This is not `streams::put_answer`, since no contract tells a caller what a closure left in the room for the file.
fn repaired(
    input: &[u8; 61],
    got: Result<usize, Unread>,
    file: &mut [u8; 60],
    text: &mut [u8; 540],
) -> Said
    ensures by_index { (s : List ℕ) → IfOk got (Front s input.now) →
        Mends (is_err got) s file.old text.old result file.new text.new }
    ensures value { (60 ≡ length file.new) × (540 ≡ length text.new) }
{
    match got {
        Ok(count) => put_mended(&input[..streams::within(count, input)], file, text),
        Err(_) => streams::put_unread(b"mend", text),
    }
}

fn main(rt: HostRuntime) {
    let mut input = [0u8; 61];
    let got = streams::read_input(&rt, &mut input);
    let mut file = [0u8; 60];
    let mut text = [0u8; 540];
    let said = repaired(&input, got, &mut file, &mut text);
    streams::say_with_file(&rt, b"mend", said, &text, 1, &file);
}
