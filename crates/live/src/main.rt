// live: answers records on standard input as they come
// resume STATE: the same, from the state in the file STATE, which then has the state behind the last record
#![tactic(auto)]

ghost use Rattle.std.specs.Prelude.{◌≡◌, IfOk, ◌+◌, ◌≤◌, ◌<◌, length};
ghost use Rattle.streams.specs.Streams.{Saying};
ghost use Rattle.text.specs.Live.{Turning};
ghost use Rattle.runs.specs.SessionRecord.{SessionWf, did_of};
ghost use Rattle.state_bytes.specs.State.{number_in};
ghost use Rattle.live.specs.Live.{Lent, held_of, start_speech, last_speech, at_end_speech};

use digits::Page;
use runs::Session;
use state_bytes::StateRefusal;
use streams::{Said, Stream};

// 2^52.
const TURNS: usize = 4503599627370496;

const TEXT_ROOM: usize = 557056;

// What a turn did: the state after it, how many records it answered, how many bytes they were, and what is said.
#[derive(Clone, Copy)]
struct Turned {
    session: Session,
    lines: usize,
    used: usize,
    said: Said,
}

// The whole records at the front of some bytes, each with 256 bytes of reply room of its own, and their lines, numbered from a number on. (That they are
// at most 1,024 is said for the caller's sums.)
fn answered(
    session: Session,
    first: usize,
    bytes: &[u8],
    replies: &mut [u8],
    answers: &mut [u64],
    out: &mut [u8],
) -> Turned
    requires session_wf { SessionWf session }
    requires first_bound { first + 1024 < 18446744073709551616 }
    requires bytes_len_bound { length bytes.now ≤ 131072 }
    requires lent { Lent (length replies.old) (length answers.old) (length out.old) }
    ensures turning { Turning did_of 1024 session first bytes.now replies.old answers.old out.old
        result.session result.lines result.used result.said replies.new answers.new out.new }
    ensures kept { SessionWf result.session }
    ensures few { result.lines ≤ 1024 }
{
    let used = runs::span(bytes, 1024);
    let ran = session_run::run_on(session, &bytes[..used], replies, answers);
    let lines = ran.ended.lines;
    let replied = ran.ended.replied;
    let mut page = Page::new(out);
    text::put_codes(first, &answers[..lines], &replies[..replied], &mut page);
    Turned {
        session: ran.state,
        lines,
        used,
        said: Said {
            stream: Stream::Output,
            count: page.used,
        },
    }
}

// What is said at the end of the input, where so many bytes are left: they are of a record that is cut, whose line has the kind 0 and the answer 2. Or of a
// read that failed.
fn ended(program: &[u8], number: usize, left: usize, failed: bool, out: &mut [u8]) -> Said
    requires program_len_bound { length program.now ≤ 8 }
    requires number_bound { number + 1 < 18446744073709551616 }
    requires in_bounds { 64 ≤ length out.old }
    ensures { Saying (last_speech program.now failed number left) out.old result out.new }
{
    if failed {
        return streams::put_unread(program, out);
    }
    let codes = [131072u64];
    let few = left.min(1);
    let mut page = Page::new(out);
    text::put_codes(number, &codes[..few], b"", &mut page);
    Said {
        stream: Stream::Output,
        count: page.used,
    }
}

// The state that the file had: where there was none, or it was empty, that before the first record.
fn held(kept: &[u8]) -> Result<Session, StateRefusal>
    ensures value { result ≡ held_of kept.now }
    ensures kept { IfOk result SessionWf }
{
    if kept.is_empty() {
        return Ok(session_run::empty());
    }
    state_bytes::state_in(kept)
}

// The header, or why the bytes in the file are no state.
fn put_start(start: Result<Session, StateRefusal>, out: &mut [u8]) -> Said
    requires { 64 ≤ length out.old }
    ensures { Saying (start_speech (number_in start)) out.old result out.new }
{
    match start {
        Ok(_) => {
            let mut page = Page::new(out);
            text::put_header(&mut page);
            Said {
                stream: Stream::Output,
                count: page.used,
            }
        }
        Err(refusal) => {
            let number = u8::from(refusal);
            match refusal {
                StateRefusal::Size => streams::put_refused(number, b"STATE is not 172 bytes", out),
                StateRefusal::Version => streams::put_refused(
                    number,
                    b"STATE is of another version",
                    out,
                ),
                StateRefusal::Unsound => streams::put_refused(
                    number,
                    b"STATE is no state of a gauge",
                    out,
                ),
            }
        }
    }
}

// The image at the end.
fn put_image(session: Session, room: &mut [u8]) -> Said
    requires { length room.old ≡ 160 }
    ensures { Saying (at_end_speech session) room.old result room.new }
{
    match session_run::take_out(session, room) {
        Ok(count) => Said {
            stream: Stream::Output,
            count,
        },
        Err(refusal) => streams::put_refused(u8::from(refusal), b"no image was accepted", room),
    }
}

// Writes the image to the second file, and then the state to the first.
fn keep_both(rt: &HostRuntime, session: Session, state: &[u8]) {
    let mut room = [0u8; 160];
    let said = put_image(session, &mut room);
    if said.stream == Stream::Error {
        streams::say(rt, b"resume", said, &room);
        return;
    }
    let count = streams::within(said.count, &room);
    if streams::write_named(rt, b"resume", 2, &room[..count]).is_ok() {
        let _ = streams::write_named(rt, b"resume", 1, state);
    }
}

// Where the call has words, the state goes to the file that the first names, and the image before it to that of the second.
fn keep(rt: &HostRuntime, words: usize, session: Session) {
    if words < 2 {
        return;
    }
    let mut state = [0u8; 172];
    let _ = state_bytes::state_out(session, &mut state);
    if 2 < words {
        keep_both(rt, session, &state);
        return;
    }
    let _ = streams::write_named(rt, b"resume", 1, &state);
}

// Reads, answers and writes, turn by turn, up to the end of the input. No run comes to so many turns.
fn serve(
    rt: &HostRuntime,
    program: &[u8],
    words: usize,
    start: Session,
    bytes: &mut [u8],
    replies: &mut [u8],
    answers: &mut [u64],
    out: &mut [u8],
)
    requires program_len_bound { length program.now ≤ 8 }
    requires session_wf { SessionWf start }
    requires bytes_len { length bytes.old ≡ 69635 }
    requires lent { Lent (length replies.old) (length answers.old) (length out.old) }
{
    let mut session = start;
    let mut count = 0;
    let mut number = 1;
    for _ in 0..TURNS {
        let most = (bytes.len() - count).min(4096);
        let got = streams::read_some(rt, bytes, count, most);
        let read = got.unwrap_or(0);
        if read == 0 {
            let last = ended(program, number, count, got.is_err(), out);
            if streams::say_all(rt, program, last, out).is_ok() {
                keep(rt, words, session);
            }
            return;
        }
        let end = count + read;
        let turned = answered(session, number, &bytes[..end], replies, answers, out);
        session = turned.session;
        if streams::say_all(rt, program, turned.said, out).is_err() {
            return;
        }
        count = streams::keep_rest(bytes, turned.used, end);
        number += turned.lines;
    }
}

// The room for the text of a turn. (That it has this size is said for the caller.)
fn text_room() -> [u8; TEXT_ROOM]
    ensures { 557056 ≡ length result }
{
    [0u8; TEXT_ROOM]
}

// A read takes at most 4,096 bytes, which complete at most 1,024 records, of 256 bytes of reply and 32 bytes of a line and two for each byte of its reply.
// A record that is cut leaves at most 65,538 bytes.
fn begin(rt: &HostRuntime, program: &[u8], words: usize, kept: &[u8])
    requires { length program.now ≤ 8 }
{
    let start = held(kept);
    let mut out = text_room();
    let head = put_start(start, &mut out);
    if streams::say_all(rt, program, head, &out).is_err() {
        return;
    }
    if let Ok(session) = start {
        let mut bytes = [0u8; 69635];
        let mut replies = [0u8; 262144];
        let mut answers = [0u64; 1024];
        serve(
            rt,
            program,
            words,
            session,
            &mut bytes,
            &mut replies,
            &mut answers,
            &mut out,
        );
    }
}

fn main(rt: HostRuntime) {
    let words = streams::word_count(&rt);
    if words < 2 {
        begin(&rt, b"live", words, b"");
        return;
    }
    let mut kept = [0u8; 173];
    let Ok(count) = streams::read_kept(&rt, b"resume", 1, &mut kept) else {
        return;
    };
    let n = streams::within(count, &kept);
    begin(&rt, b"resume", words, &kept[..n]);
}
