// tray_image SLOT: runs the tray session on standard input and writes the pack image taken out of a slot at its end
#![tactic(auto)]

ghost use Rattle.std.specs.Prelude.{◌≡◌, List, ℕ, length, is_err, IfOk};
ghost use Rattle.streams.specs.Streams.{Front, Saying, error};
ghost use Rattle.text.specs.Session.{OutOf};
ghost use Rattle.tray_run.specs.TrayRun.{named_held, named_pack};
ghost use Rattle.tray_image.specs.TrayImage.{is_number, slot_of, no_number_text, tray_image_speech, word_speech, tray_image_of};

use digits::Page;
use record::Refusal;
use streams::{Said, Stream, Unread};
use tray_run::TrayRunner;

const INPUT_ROOM: usize = 32769;

const IMAGE_ROOM: usize = 160;

// ---- SLOT

fn is_number(word: &[u8]) -> bool
    ensures { result ≡ is_number word.now }
{
    for c in word {
        if !c.is_ascii_digit() {
            return false;
        }
    }
    0 < word.len()
}

// The slot of that number, of the eight of a tray. No digit takes the number above 8, so that it never overflows.
fn slot_of(word: &[u8]) -> Option<u8>
    ensures { result ≡ slot_of word.now }
{
    let mut n = 0u64;
    for &c in word {
        n = (10 * n + u64::from(c.saturating_sub(b'0'))).min(8);
    }
    if n < 8 { Some(n as u8) } else { None }
}

fn put_no_number(room: &mut [u8]) -> Said
    requires { length room.old ≡ 160 }
    ensures { Saying (error no_number_text) room.old result room.new }
{
    let mut page = Page::new(room);
    page.put_bytes(b"tray_image: SLOT is no number\n");
    Said {
        stream: Stream::Error,
        count: page.used,
    }
}

// ---- the image

// A slot that no tray has is one without an image.
fn put_taken(bytes: &[u8], slot: Option<u8>, room: &mut [u8]) -> Said
    requires { length room.old ≡ 160 }
    ensures { Saying (tray_image_speech slot bytes.now) room.old result room.new }
{
    text::put_taken::<TrayRunner, _>(
        bytes,
        b"no image was accepted for this slot",
        room,
        |tray, room|
            ensures { OutOf (named_held slot tray) (named_pack slot tray) room.old result room.new }
        {
            match slot {
                Some(slot) => tray_run::take_out(tray, slot, room),
                None => Err(Refusal::Order),
            }
        },
    )
}

fn put_asked(word: &[u8], bytes: &[u8], room: &mut [u8]) -> Said
    requires { length room.old ≡ 160 }
    ensures { Saying (word_speech word.now bytes.now) room.old result room.new }
{
    if is_number(word) {
        return put_taken(bytes, slot_of(word), room);
    }
    put_no_number(room)
}

// What the program says. A byte more than a session may have is enough to know of any input.
fn extracted(word: &[u8], input: &[u8], got: Result<usize, Unread>, room: &mut [u8]) -> Said
    requires input_room { length input.now ≡ 32769 }
    requires text_room { length room.old ≡ 160 }
    ensures by_index { (s : List ℕ) → IfOk got (Front s input.now) →
        Saying (tray_image_of (is_err got) word.now s) room.old result room.new }
{
    streams::put_answer(
        b"tray_image",
        input,
        got,
        room,
        |bytes, room|
            requires { length room.old ≡ 160 }
            ensures { Saying (word_speech word.entry.now bytes.now) room.old result room.new }
        { put_asked(word, bytes, room) },
    )
}

fn main(rt: HostRuntime) {
    let mut room = [0u8; streams::NAME_ROOM];
    let length = streams::read_word(&rt, 1, &mut room);
    let word = &room[..length];
    streams::answer_input::<INPUT_ROOM, IMAGE_ROOM, _>(&rt, b"tray_image", |input, got, room| {
        extracted(word, input, got, room)
    });
}
