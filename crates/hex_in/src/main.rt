// hex_in: reads Intel HEX on standard input and writes the 48 bytes that it has, a label and block 1
#![tactic(auto)]

ghost use Rattle.std.specs.Prelude.{◌≡◌, List, ℕ, ◌+◌, ◌≤◌, length, is_err, IfOk};
ghost use Rattle.streams.specs.Streams.{Front, Saying, error, refused_text};
ghost use Rattle.digits.specs.Digits.{Appends};
ghost use Rattle.intel_hex.specs.Export.{hex_refusal_number};
ghost use Rattle.intel_hex.specs.Import.{text_lines};
ghost use Rattle.hex_in.specs.HexIn.{cause_words, flaw_words, gap_words, hex_in_refusal_words, most_text, room_size, hex_in_speech, hex_in_of};

use digits::Page;
use intel_hex::{Cause, Flaw, Gap, HexRefusal};
use streams::{Said, Stream, Unread};

const INPUT_ROOM: usize = 65537;

const TEXT_ROOM: usize = 128;

// What is wrong with a line, behind its number.
fn put_cause(cause: Cause, page: &mut Page)
    requires { page.old.used + 72 ≤ length page.old.room.now }
    ensures { Appends 72 (cause_words cause) page.old page.new }
{
    match cause {
        Cause::Empty => page.put_bytes(b" is empty"),
        Cause::Colon => page.put_bytes(b" does not begin with a colon"),
        Cause::Feed => page.put_bytes(b" has no line feed at its end"),
        Cause::Return => page.put_bytes(
            b" ends with a carriage return: take them out, as by tr -d '\\r'",
        ),
        Cause::Digits => page.put_bytes(
            b" has a character that is no upper-case digit: if lower case, tr a-f A-F",
        ),
        Cause::Pairs => page.put_bytes(b" has not the pairs of digits that its count asks"),
        Cause::Sum => page.put_bytes(b" has a wrong checksum"),
        Cause::Place => page.put_bytes(
            b" is neither the end record nor 16 bytes at 0020h, 0060h or 0070h",
        ),
    }
}

// A bad line.
fn put_flaw(number: u8, flaw: Flaw, room: &mut [u8]) -> Said
    requires line_bound { flaw.line ≤ most_text }
    requires room_len { length room.old ≡ room_size }
    ensures { Saying (error (refused_text number (flaw_words flaw))) room.old result room.new }
{
    let mut page = Page::new(room);
    page.put_decimal(number as usize);
    page.put_bytes(b": ");
    page.put_bytes(b"line ");
    page.put_decimal(flaw.line);
    put_cause(flaw.cause, &mut page);
    page.put_byte(b'\n');
    Said {
        stream: Stream::Error,
        count: page.used,
    }
}

// What a text without a bad line lacks.
fn put_gap(number: u8, gap: Gap, room: &mut [u8]) -> Said
    requires { length room.old ≡ room_size }
    ensures { Saying (error (refused_text number (gap_words gap))) room.old result room.new }
{
    match gap {
        Gap::Label => streams::put_refused(
            number,
            b"the record at 0020h is missing or repeated",
            room,
        ),
        Gap::Low => streams::put_refused(
            number,
            b"the record at 0060h is missing or repeated",
            room,
        ),
        Gap::High => streams::put_refused(
            number,
            b"the record at 0070h is missing or repeated",
            room,
        ),
        Gap::End => streams::put_refused(number, b"the end record is missing or repeated", room),
        Gap::Last => streams::put_refused(number, b"the end record is not last", room),
    }
}

fn put_why(why: HexRefusal, text: &[u8], room: &mut [u8]) -> Said
    requires text_len_bound { length text.now ≤ most_text }
    requires room_len { length room.old ≡ room_size }
    ensures { Saying (error (refused_text (hex_refusal_number why) (hex_in_refusal_words why (text_lines text.now))))
        room.old result room.new }
{
    let number = u8::from(why);
    match why {
        HexRefusal::Line(_) => match intel_hex::first_bad(text) {
            Some(flaw) => put_flaw(number, flaw, room),
            // Never so: a text is refused for a line only if one is bad.
            None => streams::put_refused(number, b"the text is refused", room),
        },
        HexRefusal::Whole => put_gap(number, intel_hex::first_gap(text), room),
        HexRefusal::Image => streams::put_refused(number, b"the text is refused", room),
        HexRefusal::Room => streams::put_refused(
            number,
            b"the room for the bytes is too small",
            room,
        ),
    }
}

// A text of more than 65,536 bytes is not read.
fn put_import(text: &[u8], room: &mut [u8]) -> Said
    requires { length room.old ≡ room_size }
    ensures { Saying (hex_in_speech text.now) room.old result room.new }
{
    if 65536 < text.len() {
        let mut page = Page::new(room);
        page.put_bytes(b"hex_in: the text is over 65536 bytes\n");
        return Said {
            stream: Stream::Error,
            count: page.used,
        };
    }
    match intel_hex::read_text(text, room) {
        Ok(()) => Said {
            stream: Stream::Output,
            count: 48,
        },
        Err(why) => put_why(why, text, room),
    }
}

// What the program says. A byte more than a text may have is enough to know of any input.
fn imported(input: &[u8], got: Result<usize, Unread>, room: &mut [u8]) -> Said
    requires input_room { length input.now ≡ 65537 }
    requires text_room { length room.old ≡ 128 }
    ensures by_index { (s : List ℕ) → IfOk got (Front s input.now) →
        Saying (hex_in_of (is_err got) s) room.old result room.new }
{
    streams::put_answer(b"hex_in", input, got, room, put_import)
}

fn main(rt: HostRuntime) {
    streams::answer_input::<INPUT_ROOM, TEXT_ROOM, _>(&rt, b"hex_in", imported);
}
