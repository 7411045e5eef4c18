// hex_out PACK FACTORY: writes the label and block 1 of a pack as Intel HEX, the label of the factory's image where the pack's block 0 is not locked
#![tactic(auto)]

ghost use Rattle.std.specs.Prelude.{◌≡◌, List, ℕ, ◌+◌, ◌≤◌, length, is_err, IfOk};
ghost use Rattle.numbers.specs.Choice.{either};
ghost use Rattle.streams.specs.Streams.{Front, Saying, error, refused_text};
ghost use Rattle.digits.specs.Digits.{Appends};
ghost use Rattle.intel_hex.specs.Export.{hex_refusal_number};
ghost use Rattle.hex_out.specs.HexOut.{refused_as_text, side_words, refused_side_words, hex_out_refusal_words, hex_out_speech, hex_out_of};

use digits::Page;
use intel_hex::HexRefusal;
use streams::{Said, Stream, Unread};

const PACK_ROOM: usize = 61;

const FACTORY_ROOM: usize = 61;

const TEXT_ROOM: usize = 144;

// What a record of an image would be refused with.
fn put_refusal(refusal: u8, page: &mut Page)
    requires { page.old.used + 96 ≤ length page.old.room.now }
    ensures { Appends 96 (refused_as_text refusal) page.old page.new }
{
    page.put_bytes(b" is refused in a record of kind 1 with ");
    page.put_decimal(refusal as usize);
    page.put_bytes(b": ");
    text::put_meaning(refusal, page);
}

// The image of the pack or of the factory.
fn put_side(number: u8, side: &[u8], refusal: u8, room: &mut [u8]) -> Said
    requires side_len_bound { length side.now ≤ 7 }
    requires room_len { length room.old ≡ 144 }
    ensures { Saying (error (refused_text number (side_words side.now refusal))) room.old result room.new }
{
    let mut page = Page::new(room);
    page.put_decimal(number as usize);
    page.put_bytes(b": ");
    page.put_bytes(b"the image of the ");
    page.put_bytes(side);
    put_refusal(refusal, &mut page);
    page.put_byte(b'\n');
    Said {
        stream: Stream::Error,
        count: page.used,
    }
}

// Which of the two images is refused; the pack's, where both are.
fn put_image_refused(number: u8, pack: &[u8], factory: &[u8], room: &mut [u8]) -> Said
    requires { length room.old ≡ 144 }
    ensures { Saying (error (refused_text number (refused_side_words pack.now factory.now)))
        room.old result room.new }
{
    let first = record::taken_number(record::judged(pack));
    if first == 0 {
        let second = record::taken_number(record::judged(factory));
        return put_side(number, b"factory", second, room);
    }
    put_side(number, b"pack", first, room)
}

fn put_why(why: HexRefusal, pack: &[u8], factory: &[u8], room: &mut [u8]) -> Said
    requires { length room.old ≡ 144 }
    ensures { Saying (error (refused_text (hex_refusal_number why) (hex_out_refusal_words why pack.now factory.now)))
        room.old result room.new }
{
    let number = u8::from(why);
    match why {
        HexRefusal::Line(_) | HexRefusal::Whole => {
            streams::put_refused(number, b"the text is refused", room)
        }
        HexRefusal::Image => put_image_refused(number, pack, factory, room),
        HexRefusal::Room => streams::put_refused(
            number,
            b"the room for the text is too small",
            room,
        ),
    }
}

fn put_export(pack: &[u8], factory: &[u8], room: &mut [u8]) -> Said
    requires { length room.old ≡ 144 }
    ensures { Saying (hex_out_speech pack.now factory.now) room.old result room.new }
{
    match intel_hex::write_text(pack, factory, room) {
        Ok(()) => Said {
            stream: Stream::Output,
            count: room.len(),
        },
        Err(why) => put_why(why, pack, factory, room),
    }
}

// What the program says. A byte more than an image has is enough to know of any file.
fn exported(
    pack: &[u8],
    one: Result<usize, Unread>,
    factory: &[u8],
    other: Result<usize, Unread>,
    room: &mut [u8],
) -> Said
    requires pack_room { length pack.now ≡ 61 }
    requires factory_room { length factory.now ≡ 61 }
    requires text_room { length room.old ≡ 144 }
    ensures by_index { (s t : List ℕ) → IfOk one (Front s pack.now) → IfOk other (Front t factory.now) →
        Saying (hex_out_of (either (is_err one) (is_err other)) s t) room.old result room.new }
{
    streams::put_answer_of_two(pack, one, factory, other, room, put_export)
}

fn main(rt: HostRuntime) {
    streams::answer_files::<PACK_ROOM, FACTORY_ROOM, TEXT_ROOM, _>(&rt, b"hex_out", exported);
}
