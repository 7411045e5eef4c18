// What is printed: the line of an answer, and the text of a run.
#![tactic(auto)]

ghost use Rattle.std.specs.Prelude.{◌≡◌, [], ◌+◌, ◌*◌, ◌≤◌, ◌<◌, length, take, ◌++◌};
ghost use Rattle.std.specs.Prelude.{Bool, List, ℕ};
ghost use Rattle.digits.specs.Digits.{lower, pairs_of, Writing, Appends};
ghost use Rattle.streams.specs.Streams.{Saying, error, refused_text};
ghost use Rattle.gauge.specs.declared.Gauge.{Gauge};
ghost use Rattle.text.specs.Line.{kind_text, fields_text, end_text};
ghost use Rattle.text.specs.Text.{codes_most, codes_text, header_text, over_text, coded_text, most_of, fits_of, Held, ended_text, Reporting};
ghost use Rattle.text.specs.Text.{pack_speech, unrun_speech, image_meaning, refused_image, refused_image_text, first_coded};
ghost use Rattle.text.specs.Session.{session_speech, OutOf, GivesOut, out_speech};

use digits::Page;
use record::Refusal;
use runs::{Ended, Outcome, WholeRunner};
use streams::{Said, Stream};

fn put_kind(table: &[u8; 512], kind: usize, answer: usize, page: &mut Page)
    requires table_value { table.now ≡ pairs_of lower }
    requires kind_bound { kind < 65536 }
    requires used_in_bounds { page.old.used + 4 ≤ length page.old.room.now }
    ensures { Appends 4 (kind_text kind answer) page.old page.new }
{
    if answer == 2 {
        page.put_bytes(b"----");
        return;
    }
    page.put_entry(table, (kind / 256) as u8);
    page.put_entry(table, (kind % 256) as u8);
}

// What stands between the number and the reply. The table for the kind's digits is the caller's: it keeps it from line to line.
pub fn put_fields(table: &[u8; 512], kind: usize, answer: usize, page: &mut Page)
    requires table_value { table.now ≡ pairs_of lower }
    requires kind_bound { kind < 65536 }
    requires answer_bound { answer < 256 }
    requires used_in_bounds { page.old.used + 12 ≤ length page.old.room.now }
    ensures { Appends 10 (fields_text kind answer) page.old page.new }
{
    page.put_byte(b' ');
    put_kind(table, kind, answer, page);
    page.put_byte(b' ');
    page.put_decimal(answer);
    page.put_byte(b' ');
}

// The same of a record that is done, and of a kind of one byte.
pub fn put_done(table: &[u8; 512], kind: u8, page: &mut Page)
    requires table_value { table.now ≡ pairs_of lower }
    requires used_in_bounds { page.old.used + 8 ≤ length page.old.room.now }
    ensures { Appends 8 (fields_text kind 0) page.old page.new }
{
    page.put_bytes(b" 00");
    page.put_entry(table, kind);
    page.put_bytes(b" 0 ");
}

// The end of a line without a reply.
pub fn put_bare_end(page: &mut Page)
    requires { page.old.used + 2 ≤ length page.old.room.now }
    ensures { Appends 2 (end_text []) page.old page.new }
{
    page.put_bytes(b"-\n");
}

// The reply and the end of the line.
pub fn put_end(table: &[u8; 512], reply: &[u8], page: &mut Page)
    requires table_value { table.now ≡ pairs_of lower }
    requires reply_in_bounds { page.old.used + (2 + 2 * length reply.now) ≤ length page.old.room.now }
    ensures { Appends (2 + 2 * length reply.now) (end_text reply.now) page.old page.new }
{
    if reply.is_empty() {
        put_bare_end(page);
        return;
    }
    page.put_hex(table, reply);
    page.put_byte(b'\n');
}

// The lines, numbered from a number on. A line's code has its kind, its answer and the length of its reply, which is the next part of the replies. Most
// codes are below 655360 = 10 * 65536, and have an answer of one digit and no reply; and most of these below 256, which is the kind of a record that is
// done. (Always inlined: where it is called at two places, as in `live`, the page would stand in memory, and a line take 20 to 48 instructions more.)
#[inline(always)]
pub fn put_codes(first: usize, codes: &[u64], replies: &[u8], page: &mut Page)
    requires codes_bound { first + length codes.now < 18446744073709551616 }
    requires replies_in_bounds { page.old.used + codes_most first (length codes.now) (length replies.now) ≤ length page.old.room.now }
    ensures { Appends (codes_most first (length codes.now) (length replies.now))
        (codes_text first codes.now replies.now) page.old page.new }
{
    let table = digits::lower_pairs();
    let mut four = digits::packed(first);
    let mut used = 0;
    for (i, &code) in codes.iter().enumerate() {
        let number = first + i;
        page.put_counted(four.high, four.low, number);
        four = digits::counted_up(number, four);
        if code < 655360 {
            if code < 256 {
                put_done(&table, code as u8, page);
                put_bare_end(page);
            } else {
                let kind = (code % 65536) as usize;
                put_fields(&table, kind, (code / 65536) as usize, page);
                put_bare_end(page);
            }
        } else {
            let kind = (code % 65536) as usize;
            let rest = &replies[used..];
            let count = ((code / 16777216) as usize).min(rest.len());
            put_fields(&table, kind, (code / 65536 % 256) as usize, page);
            put_end(&table, &rest[..count], page);
            used += count;
        }
    }
}

// ---- the text

pub fn put_header(page: &mut Page)
    requires { page.old.used + 25 ≤ length page.old.room.now }
    ensures { Appends 25 header_text page.old page.new }
{
    page.put_bytes(b"record kind answer reply\n");
}

fn put_over(page: &mut Page)
    requires { page.old.used + 11 ≤ length page.old.room.now }
    ensures { Appends 11 over_text page.old page.new }
{
    page.put_bytes(b"0 ---- 1 -\n");
}

fn put_coded(outcome: Outcome, codes: &[u64], replies: &[u8], out: &mut [u8]) -> usize
    requires { Held (length codes.now) (length replies.now) (length out.old) }
    ensures { Writing (most_of (length codes.now) (length replies.now))
        (coded_text outcome codes.now replies.now) out.old 0 result out.new }
{
    let mut page = Page::new(out);
    put_header(&mut page);
    match outcome {
        Outcome::Done => {
            put_codes(1, codes, replies, &mut page);
            page.used
        }
        Outcome::Over => {
            put_over(&mut page);
            page.used
        }
    }
}

fn fits(lines: usize, replied: usize, room: usize) -> bool
    ensures { result ≡ fits_of lines replied room }
{
    if 99999 < lines {
        return false;
    }
    let least = 36 + 17 * lines;
    if room < least {
        return false;
    }
    replied <= (room - least) / 2
}

// The text of a run, of one pack or of a tray, at the front of the room, and how many bytes it is: of as many of the lent answers as it has lines,
// and of as many bytes of the lent replies. 0, and nothing is written, where the lines are more than five digits can number, or where the room
// is less than such a text can take: 36 bytes, 17 for each line, 2 for each byte of the replies.
pub fn report(ended: Ended, answers: &[u64], replies: &[u8], out: &mut [u8]) -> usize
    ensures { Reporting (ended_text ended answers.now replies.now (length out.old))
        out.old result out.new }
{
    let lines = ended.lines.min(answers.len());
    let replied = ended.replied.min(replies.len());
    if fits(lines, replied, out.len()) {
        return put_coded(ended.outcome, &answers[..lines], &replies[..replied], out);
    }
    0
}

// Why a session was not run, in a line for standard error. Of one that was run nothing is said.
pub fn put_unrun(outcome: Outcome, room: &mut [u8]) -> Said
    requires { 40 ≤ length room.old }
    ensures { Saying (unrun_speech outcome) room.old result room.new }
{
    match outcome {
        Outcome::Done => Said {
            stream: Stream::Output,
            count: 0,
        },
        Outcome::Over => streams::put_refused(
            runs::outcome_number(Outcome::Over),
            b"the session is over 32,768 bytes",
            room,
        ),
    }
}

// ---- why no image was accepted

// What the refusal of an image means, by its number.
pub fn put_meaning(answer: u8, page: &mut Page)
    requires { page.old.used + 50 ≤ length page.old.room.now }
    ensures { Appends 50 (image_meaning answer) page.old page.new }
{
    match answer {
        4 => page.put_bytes(b"it is not 60 bytes (61 in kind 8)"),
        5 => page.put_bytes(b"it comes after an event or after eight images"),
        6 => page.put_bytes(b"its address has another family code or a wrong CRC"),
        7 => page.put_bytes(b"its lock byte is above 3"),
        10 => page.put_bytes(b"its breakpoints are crossed or above 40 degrees"),
        12 => page.put_bytes(b"its address is there already"),
        _ => page.put_bytes(b"it is refused"),
    }
}

fn refused_image(kind: u64, answer: u8) -> bool
    ensures { result ≡ refused_image kind answer }
{
    (kind == 1 || kind == 8) && 0 < answer
}

fn put_refused_image(number: usize, answer: u8, page: &mut Page)
    requires number_bound { number < 100000 }
    requires used_in_bounds { page.old.used + 105 ≤ length page.old.room.now }
    ensures { Appends 105 (refused_image_text number answer) page.old page.new }
{
    page.put_bytes(b"; the first that was refused, record ");
    page.put_decimal(number);
    page.put_bytes(b", got ");
    page.put_decimal(answer as usize);
    page.put_bytes(b": ");
    put_meaning(answer, page);
}

fn put_first_refused(codes: &[u64], page: &mut Page)
    requires codes_len_bound { length codes.now < 100000 }
    requires used_in_bounds { page.old.used + 105 ≤ length page.old.room.now }
    ensures { Appends 105 (first_coded 1 codes.now) page.old page.new }
{
    for (i, &code) in codes.iter().enumerate() {
        let answer = (code / 65536 % 256) as u8;
        if refused_image(code % 65536, answer) {
            put_refused_image(i + 1, answer, page);
            return;
        }
    }
}

// That no image was accepted, in words, and which was refused first, of as many of the lent answers as the run has lines.
pub fn put_no_image(
    number: u8,
    words: &[u8],
    lines: usize,
    answers: &[u64],
    room: &mut [u8],
) -> Said
    requires answers_len_bound { length answers.now < 100000 }
    requires words_in_bounds { length words.now + 113 ≤ length room.old }
    ensures { Saying (error (refused_text number (words.now ++ first_coded 1 (take lines answers.now))))
        room.old result room.new }
{
    let few = lines.min(answers.len());
    let mut page = Page::new(room);
    page.put_decimal(number as usize);
    page.put_bytes(b": ");
    page.put_bytes(words);
    put_first_refused(&answers[..few], &mut page);
    page.put_byte(b'\n');
    Said {
        stream: Stream::Error,
        count: page.used,
    }
}

// ---- a program that runs a session

// The text of a session, with an answer for each record that 32,768 bytes can hold and 65,536 bytes of reply room.
pub fn put_session<R: WholeRunner>(bytes: &[u8], out: &mut [u8]) -> Said
where
    R::State: Drop,
    requires { 270372 ≤ length out.old }
    ensures { Saying (session_speech R.did R.first bytes.now) out.old result out.new }
{
    let mut replies = [0u8; 65536];
    let mut answers = [0u64; 8192];
    let ran = R::run(bytes, &mut replies, &mut answers);
    let count = report(ran.ended, &answers, &replies, out);
    Said {
        stream: Stream::Output,
        count,
    }
}

// The image that was taken out of a state, where there is one; or, in words, that there is none, of a run that has so many lines.
fn put_out(
    taken: Result<usize, Refusal>,
    words: &[u8],
    lines: usize,
    answers: &[u64],
    room: &mut [u8],
) -> Said
    requires answers_len_bound { length answers.now < 100000 }
    requires words_in_bounds { length words.now + 113 ≤ length room.old }
    ensures { (held : Bool) (gauge : Gauge) (before : List ℕ) → OutOf held gauge before taken room.old → 61 ≤ length before →
        length room.old ≡ length before →
        Saying (pack_speech held gauge (words.now ++ first_coded 1 (take lines answers.now))) before result room.new }
{
    match taken {
        Ok(count) => Said {
            stream: Stream::Output,
            count,
        },
        Err(refusal) => put_no_image(u8::from(refusal), words, lines, answers, room),
    }
}

// The image that is taken out at the end of a session, or why there is none: the words say that no image was accepted.
pub fn put_taken<R: WholeRunner, F: FnOnce(R::State, &mut [u8]) -> Result<usize, Refusal>>(
    bytes: &[u8],
    words: &[u8],
    room: &mut [u8],
    take: F,
) -> Said
where
    R::State: Drop,
    requires takes { F.IsAlwaysCallable take }
    requires words_in_bounds { length words.now + 113 ≤ length room.old }
    ensures { (held : R.State → Bool) (gauge : R.State → Gauge) → GivesOut (F.post take) held gauge →
        Saying (out_speech R.did R.first held gauge words.now bytes.now) room.old result room.new }
{
    let mut scratch = [0u8; 65536];
    let mut answers = [0u64; 8192];
    let ran = R::run(bytes, &mut scratch, &mut answers);
    match ran.ended.outcome {
        Outcome::Done => {
            let taken = take(ran.state, room);
            put_out(taken, words, ran.ended.lines, &answers, room)
        }
        Outcome::Over => put_unrun(Outcome::Over, room),
    }
}
