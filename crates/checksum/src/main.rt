// checksum: prints the 1-Wire CRC of each message on standard input (a length byte, then the bytes)
#![tactic(auto)]

ghost use Rattle.std.specs.Prelude.{◌≡◌, List, ℕ, ◌*◌, ◌<◌, ◌≤◌, length, is_err, IfOk};
ghost use Rattle.digits.specs.Digits.{Writing};
ghost use Rattle.streams.specs.Streams.{Front, Saying, output};
ghost use Rattle.checksum.specs.Sums.{crc_line, there_of, sums_text, checked_text, summed_of, Summed};

use digits::{Letters, Page};
use streams::{Said, Stream, Unread};

const INPUT_ROOM: usize = 65537;

const TEXT_ROOM: usize = 196608;

// A line of the answer, and how many bytes its message takes: all that are left where it is not there whole.
#[derive(Clone, Copy)]
struct Message {
    line: [u8; 3],
    size: usize,
}

fn crc_line(c: u8) -> [u8; 3]
    ensures { result ≡ crc_line c }
{
    [
        digits::hex(Letters::Lower, c / 16),
        digits::hex(Letters::Lower, c % 16),
        b'\n',
    ]
}

// Whether a message of n bytes is there, where left bytes are left.
fn there(n: usize, left: usize) -> bool
    ensures { result ≡ there_of n left }
{
    n <= 64 && n <= left
}

// The message at the front.
fn first_message(bytes: &[u8]) -> Message
    requires { 0 < length bytes.now }
    ensures { Summed bytes.now result.line result.size }
{
    let n = usize::from(bytes[0]);
    if there(n, bytes.len() - 1) {
        let size = 1 + n;
        let line = crc_line(crc::crc(&bytes[1..size]));
        Message { line, size }
    } else {
        Message {
            line: *b"--\n",
            size: bytes.len(),
        }
    }
}

// The lines of all messages: each byte is worth at most one line of three bytes. A message says itself how long it is, so this is no walk over the bytes.
fn put_sums(bytes: &[u8], out: &mut [u8]) -> usize
    requires { 3 * length bytes.now ≤ length out.old }
    ensures { Writing (3 * length bytes.now) (sums_text bytes.now) out.old 0 result out.new }
{
    let mut page = Page::new(out);
    let mut rest = bytes;
    while !rest.is_empty() {
        let message = first_message(rest);
        page.put_bytes(&message.line);
        rest = &rest[message.size..];
    }
    page.used
}

// Longer input than 65,536 bytes is answered by `--` alone.
fn put_checked(bytes: &[u8], out: &mut [u8]) -> usize
    requires { 196608 ≤ length out.old }
    ensures { Writing 196608 (checked_text bytes.now) out.old 0 result out.new }
{
    if 65536 < bytes.len() {
        let mut page = Page::new(out);
        page.put_bytes(b"--\n");
        return page.used;
    }
    put_sums(bytes, out)
}

fn put_lines(bytes: &[u8], out: &mut [u8]) -> Said
    requires { 196608 ≤ length out.old }
    ensures { Saying (output (checked_text bytes.now)) out.old result out.new }
{
    Said {
        stream: Stream::Output,
        count: put_checked(bytes, out),
    }
}

// What the program says. A byte more than an input may have is enough to know of any.
fn summed(input: &[u8], got: Result<usize, Unread>, room: &mut [u8]) -> Said
    requires input_room { length input.now ≡ 65537 }
    requires text_room { length room.old ≡ 196608 }
    ensures by_index { (s : List ℕ) → IfOk got (Front s input.now) →
        Saying (summed_of (is_err got) s) room.old result room.new }
{
    streams::put_answer(b"checksum", input, got, room, put_lines)
}

fn main(rt: HostRuntime) {
    streams::answer_input::<INPUT_ROOM, TEXT_ROOM, _>(&rt, b"checksum", summed);
}
