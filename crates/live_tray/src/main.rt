// live_tray: answers the records of a tray on standard input as they come
// resume_tray STATE: the same, from the state in the file STATE, which then has the state behind the last record
#![tactic(auto)]

ghost use Rattle.std.specs.Prelude.{◌≡◌, IfOk, ◌+◌, ◌≤◌, ◌<◌, length};
ghost use Rattle.streams.specs.Streams.{Saying};
ghost use Rattle.text.specs.Live.{Turning};
ghost use Rattle.tray_record.specs.Tray.{TrayWf, tray_did};
ghost use Rattle.state_bytes.specs.State.{number_in};
ghost use Rattle.text.specs.Session.{OutOf};
ghost use Rattle.tray_run.specs.TrayRun.{named_held, named_pack};
ghost use Rattle.live_tray.specs.LiveTray.{TrayLent, tray_held_of, tray_start_speech, tray_end_speech, slot_named, slot_at_end_speech};

use digits::Page;
use record::Refusal;
use state_bytes::StateRefusal;
use streams::{Said, Stream};
use tray_record::Tray;

// 2^52.
const TURNS: usize = 4503599627370496;

const TEXT_ROOM: usize = 557056;

// What a turn did: the state after it, how many records it answered, how many bytes they were, and what is said.
#[derive(Clone, Copy)]
struct Turned {
    tray: Tray,
    lines: usize,
    used: usize,
    said: Said,
}

// The whole records at the front of some bytes, each with 256 bytes of reply room of its own, and their lines, numbered from a number on. (That they are
// at most 1,024 is said for the caller's sums.)
fn answered(
    tray: Tray,
    first: usize,
    bytes: &[u8],
    replies: &mut [u8],
    answers: &mut [u64],
    out: &mut [u8],
) -> Turned
    requires tray_wf { TrayWf tray }
    requires first_bound { first + 1024 < 18446744073709551616 }
    requires bytes_len_bound { length bytes.now ≤ 131072 }
    requires tray_lent { TrayLent (length replies.old) (length answers.old) (length out.old) }
    ensures turning { Turning tray_did 1024 tray first bytes.now replies.old answers.old out.old
        result.tray result.lines result.used result.said replies.new answers.new out.new }
    ensures kept { TrayWf result.tray }
    ensures few { result.lines ≤ 1024 }
{
    let used = runs::span(bytes, 1024);
    let ran = tray_run::run_on(tray, &bytes[..used], replies, answers);
    let lines = ran.ended.lines;
    let replied = ran.ended.replied;
    let mut page = Page::new(out);
    text::put_codes(first, &answers[..lines], &replies[..replied], &mut page);
    Turned {
        tray: ran.state,
        lines,
        used,
        said: Said {
            stream: Stream::Output,
            count: page.used,
        },
    }
}

// What is said at the end of the input, where so many bytes are left: they are of a record that is cut, whose line has the kind 0 and the answer 2. Or of a
// read that failed.
fn ended(program: &[u8], number: usize, left: usize, failed: bool, out: &mut [u8]) -> Said
    requires program_len_bound { length program.now ≤ 16 }
    requires number_bound { number + 1 < 18446744073709551616 }
    requires in_bounds { 64 ≤ length out.old }
    ensures { Saying (tray_end_speech program.now failed number left) out.old result out.new }
{
    if failed {
        return streams::put_unread(program, out);
    }
    let codes = [131072u64];
    let few = left.min(1);
    let mut page = Page::new(out);
    text::put_codes(number, &codes[..few], b"", &mut page);
    Said {
        stream: Stream::Output,
        count: page.used,
    }
}

// The state that the file had: where there was none, or it was empty, that before the first record.
fn held(kept: &[u8]) -> Result<Tray, StateRefusal>
    ensures value { result ≡ tray_held_of kept.now }
    ensures kept { IfOk result TrayWf }
{
    if kept.is_empty() {
        return Ok(tray_record::empty());
    }
    state_bytes::tray_state_in(kept)
}

// The header, or why the bytes in the file are no state.
fn put_start(start: Result<Tray, StateRefusal>, out: &mut [u8]) -> Said
    requires { 64 ≤ length out.old }
    ensures { Saying (tray_start_speech (number_in start)) out.old result out.new }
{
    match start {
        Ok(_) => {
            let mut page = Page::new(out);
            text::put_header(&mut page);
            Said {
                stream: Stream::Output,
                count: page.used,
            }
        }
        Err(refusal) => {
            let number = u8::from(refusal);
            match refusal {
                StateRefusal::Size => streams::put_refused(number, b"STATE is not 1363 bytes", out),
                StateRefusal::Version => streams::put_refused(
                    number,
                    b"STATE is of another version",
                    out,
                ),
                StateRefusal::Unsound => streams::put_refused(
                    number,
                    b"STATE is no state of a tray",
                    out,
                ),
            }
        }
    }
}

// The slot that a word of one digit names, of the eight of a tray.
fn slot_named(word: &[u8]) -> Option<u8>
    ensures { result ≡ slot_named word.now }
{
    if word.len() != 1 {
        return None;
    }
    let c = word[0];
    if b'0' <= c && c <= b'7' {
        return Some(c - b'0');
    }
    None
}

// The image of a slot; one that no tray has is one without an image.
fn take_out(tray: Tray, slot: Option<u8>, room: &mut [u8]) -> Result<usize, Refusal>
    ensures { OutOf (named_held slot tray) (named_pack slot tray) room.old result room.new }
{
    match slot {
        Some(slot) => {
            tray_run::take_out(tray, slot, room)?;
            Ok(tray_run::image_size(tray, slot))
        }
        None => Err(Refusal::Order),
    }
}

// The image of the pack in a slot at the end.
fn put_image(tray: Tray, slot: Option<u8>, room: &mut [u8]) -> Said
    requires { length room.old ≡ 160 }
    ensures { Saying (slot_at_end_speech tray slot) room.old result room.new }
{
    match take_out(tray, slot, room) {
        Ok(count) => Said {
            stream: Stream::Output,
            count,
        },
        Err(refusal) => streams::put_refused(
            u8::from(refusal),
            b"no image was accepted for this slot",
            room,
        ),
    }
}

// Writes the image of the slot that the second word names to the file of the third, and then the state to that of the first.
fn keep_both(rt: &HostRuntime, tray: Tray, state: &[u8]) {
    let mut word = [0u8; streams::NAME_ROOM];
    let length = streams::read_word(rt, 2, &mut word);
    let slot = slot_named(&word[..length]);
    let mut room = [0u8; 160];
    let said = put_image(tray, slot, &mut room);
    if said.stream == Stream::Error {
        streams::say(rt, b"resume_tray", said, &room);
        return;
    }
    let count = streams::within(said.count, &room);
    if streams::write_named(rt, b"resume_tray", 3, &room[..count]).is_ok() {
        let _ = streams::write_named(rt, b"resume_tray", 1, state);
    }
}

// Where the call has words, the state goes to the file that the first names, and the image before it to that of the third.
fn keep(rt: &HostRuntime, words: usize, tray: Tray) {
    if words < 2 {
        return;
    }
    let mut state = [0u8; 1363];
    let _ = state_bytes::tray_state_out(tray, &mut state);
    if 2 < words {
        keep_both(rt, tray, &state);
        return;
    }
    let _ = streams::write_named(rt, b"resume_tray", 1, &state);
}

// Reads, answers and writes, turn by turn, up to the end of the input. No run comes to so many turns.
fn serve(
    rt: &HostRuntime,
    program: &[u8],
    words: usize,
    start: Tray,
    bytes: &mut [u8],
    replies: &mut [u8],
    answers: &mut [u64],
    out: &mut [u8],
)
    requires program_len_bound { length program.now ≤ 16 }
    requires tray_wf { TrayWf start }
    requires bytes_len { length bytes.old ≡ 69635 }
    requires tray_lent { TrayLent (length replies.old) (length answers.old) (length out.old) }
{
    let mut tray = start;
    let mut count = 0;
    let mut number = 1;
    for _ in 0..TURNS {
        let most = (bytes.len() - count).min(4096);
        let got = streams::read_some(rt, bytes, count, most);
        let read = got.unwrap_or(0);
        if read == 0 {
            let last = ended(program, number, count, got.is_err(), out);
            if streams::say_all(rt, program, last, out).is_ok() {
                keep(rt, words, tray);
            }
            return;
        }
        let end = count + read;
        let turned = answered(tray, number, &bytes[..end], replies, answers, out);
        tray = turned.tray;
        if streams::say_all(rt, program, turned.said, out).is_err() {
            return;
        }
        count = streams::keep_rest(bytes, turned.used, end);
        number += turned.lines;
    }
}

// The room for the text of a turn. (That it has this size is said for the caller.)
fn text_room() -> [u8; TEXT_ROOM]
    ensures { 557056 ≡ length result }
{
    [0u8; TEXT_ROOM]
}

// A read takes at most 4,096 bytes, which complete at most 1,024 records, of 256 bytes of reply and 32 bytes of a line and two for each byte of its reply.
// A record that is cut leaves at most 65,538 bytes.
fn begin(rt: &HostRuntime, program: &[u8], words: usize, kept: &[u8])
    requires { length program.now ≤ 16 }
{
    let start = held(kept);
    let mut out = text_room();
    let head = put_start(start, &mut out);
    if streams::say_all(rt, program, head, &out).is_err() {
        return;
    }
    if let Ok(tray) = start {
        let mut bytes = [0u8; 69635];
        let mut replies = [0u8; 262144];
        let mut answers = [0u64; 1024];
        serve(
            rt,
            program,
            words,
            tray,
            &mut bytes,
            &mut replies,
            &mut answers,
            &mut out,
        );
    }
}

fn main(rt: HostRuntime) {
    let words = streams::word_count(&rt);
    if words < 2 {
        begin(&rt, b"live_tray", words, b"");
        return;
    }
    let mut kept = [0u8; 1364];
    let Ok(count) = streams::read_kept(&rt, b"resume_tray", 1, &mut kept) else {
        return;
    };
    let n = streams::within(count, &kept);
    begin(&rt, b"resume_tray", words, &kept[..n]);
}
