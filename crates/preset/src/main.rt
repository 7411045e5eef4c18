// preset IMAGE PARAMETERS: writes the session that sets block 1 of the pack image in one file to the 32 bytes in the other
#![tactic(auto)]

ghost use Rattle.std.specs.Prelude.{◌≡◌, List, ℕ, length, is_err, IfOk};
ghost use Rattle.numbers.specs.Choice.{either};
ghost use Rattle.streams.specs.Streams.{Front, Saying, error, refused_text};
ghost use Rattle.preset_session.specs.PresetSession.{preset_refusal_number};
ghost use Rattle.preset.specs.Preset.{preset_image_words, preset_refusal_words, preset_speech, preset_of};

use preset_session::PresetRefusal;
use record::Refusal;
use streams::{Said, Stream, Unread};

const IMAGE_ROOM: usize = 61;

const PARAMETERS_ROOM: usize = 33;

const TEXT_ROOM: usize = 120;

// The refusal of an image.
fn put_judged(number: u8, refusal: Refusal, room: &mut [u8]) -> Said
    requires { length room.old ≡ 120 }
    ensures { Saying (error (refused_text number (preset_image_words refusal))) room.old result room.new }
{
    let words: &[u8] = match refusal {
        Refusal::Size => b"the image is not 60 bytes",
        Refusal::Address => b"the address of the image has another family code or a wrong CRC",
        Refusal::Locks => b"the lock byte of the image is above 3",
        Refusal::Breaks => b"the breakpoints of the image are crossed or above 40 degrees",
        // An image is refused for no other cause.
        _ => b"the image is refused",
    };
    streams::put_refused(number, words, room)
}

fn put_why(why: PresetRefusal, room: &mut [u8]) -> Said
    requires { length room.old ≡ 120 }
    ensures { Saying (error (refused_text (preset_refusal_number why) (preset_refusal_words why))) room.old result room.new }
{
    let number = u8::from(why);
    let words: &[u8] = match why {
        PresetRefusal::Image(refusal) => return put_judged(number, refusal, room),
        PresetRefusal::Parameters => b"the parameters are not 32 bytes",
        PresetRefusal::Locked => b"block 1 is locked",
        PresetRefusal::Room => b"the room for the session is too small",
    };
    streams::put_refused(number, words, room)
}

fn put_preset(image: &[u8], wanted: &[u8], room: &mut [u8]) -> Said
    requires { length room.old ≡ 120 }
    ensures { Saying (preset_speech image.now wanted.now) room.old result room.new }
{
    match preset_session::write_session(image, wanted, room) {
        Ok(()) => Said {
            stream: Stream::Output,
            count: room.len(),
        },
        Err(why) => put_why(why, room),
    }
}

// What the program says. A byte more than each file should have is enough to know of any file.
fn programmed(
    image: &[u8],
    one: Result<usize, Unread>,
    wanted: &[u8],
    other: Result<usize, Unread>,
    room: &mut [u8],
) -> Said
    requires image_room { length image.now ≡ 61 }
    requires wanted_room { length wanted.now ≡ 33 }
    requires text_room { length room.old ≡ 120 }
    ensures by_index { (s t : List ℕ) → IfOk one (Front s image.now) → IfOk other (Front t wanted.now) →
        Saying (preset_of (either (is_err one) (is_err other)) s t) room.old result room.new }
{
    streams::put_answer_of_two(image, one, wanted, other, room, put_preset)
}

fn main(rt: HostRuntime) {
    streams::answer_files::<IMAGE_ROOM, PARAMETERS_ROOM, TEXT_ROOM, _>(&rt, b"preset", programmed);
}
