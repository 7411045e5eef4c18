// What a program reads, standard input or files that its words name, and what it says: one thing, on standard output or standard error, and a file
// beside it.
#![tactic(auto)]

ghost use Rattle.std.specs.Prelude.{◌≡◌, ◌+◌, ◌^◌, ◌≤◌, ◌<◌, List, ℕ, length, take, is_err, IfOk};
ghost use Rattle.digits.specs.Digits.{Writing};
ghost use Rattle.streams.specs.Streams.{Front, CountWithin, Speech, error, unread_text, refused_text, beside_text, Saying, RestKept};
ghost use Rattle.streams.specs.Work.{TakesRoom, Speaks, AlikeFrom, read_speech};
ghost use Rattle.streams.specs.Work.{TakesInput, TakesFiles, TakesRoomOfTwo, SpeaksOfTwo, AlikeOfTwoFrom, read_speech_of_two};
ghost use Rattle.numbers.specs.Choice.{either};

use digits::Page;
use std::env::{Env, FillError};
use std::fs::{File, OpenOptions};
use std::io::{Cursor, ErrorKind, Read, Write};
use std::{fs, io, str};

// The size of a room for a name: the most bytes that the system takes of one, with the zero behind it.
pub const NAME_ROOM: usize = 4096;

// What could not be read.
#[derive(Clone, Copy, PartialEq, Eq)]
pub enum Unread {
    Input,
    File,
}

#[derive(Clone, Copy, PartialEq, Eq)]
pub enum Stream {
    Output,
    Error,
}

// What a program says: the first bytes of its room, so many, and where they go.
#[derive(Clone, Copy)]
pub struct Said {
    pub stream: Stream,
    pub count: usize,
}

// Reads until the input ends, the room is full, or a read fails. The count goes on by what a read brought, so this is no walk over the bytes. Which
// bytes come, no contract can say.
fn read_from<R: Read>(from: &mut R, room: &mut [u8]) -> io::Result<usize>
    ensures { IfOk result (λ count. count ≤ length room.new) }
{
    let mut count = 0;
    while count < room.len() {
        let got = from.read(&mut room[count..])?;
        if got == 0 {
            return Ok(count);
        }
        count += got;
    }
    Ok(count)
}

// How many bytes of standard input are at the front of the room.
pub fn read_input(rt: &HostRuntime, room: &mut [u8]) -> Result<usize, Unread>
    ensures { IfOk result (λ count. count ≤ length room.new) }
{
    read_from(&mut rt.stdin(), room).map_err(|_| Unread::Input)
}

// One read of standard input, of at most so many bytes, into a room from a place on. Where none come the input is at its end.
pub fn read_some(rt: &HostRuntime, room: &mut [u8], at: usize, most: usize) -> Result<usize, Unread>
    requires { at + most ≤ length room.old }
    ensures { IfOk result (λ count. count ≤ most) }
{
    rt.stdin()
        .read(&mut room[at..at + most])
        .map_err(|_| Unread::Input)
}

// Moves what stands in a room from one place up to another to its front, and says how many bytes it is.
pub fn keep_rest(room: &mut [u8], from: usize, end: usize) -> usize
    requires { end ≤ length room.old }
    ensures { RestKept room.old from end result room.new }
{
    // What stands at the front already is not copied over itself: a long record may come in many small reads.
    if from == 0 {
        return end;
    }
    if end <= from {
        return 0;
    }
    room.copy_within(from..end, 0);
    end - from
}

// Writes all the bytes, or fails with the first write that fails or takes nothing. Some of them may then be written. (Not the library's `write_all`,
// which goes on behind a write that was interrupted.)
fn write_all<W: Write>(to: &mut W, bytes: &[u8]) -> io::Result<()> {
    let mut rest = bytes;
    while !rest.is_empty() {
        let some = to.write(rest)?;
        if some == 0 {
            return Err(io::Error::from(ErrorKind::WriteZero));
        }
        rest = &rest[some..];
    }
    Ok(())
}

// Where standard error does not take it, there is nobody to tell.
fn complain(rt: &HostRuntime, text: &[u8]) {
    let _ = write_all(&mut rt.stderr(), text);
}

// ---- words of the call

// How many words the call has, the program's own name among them.
pub fn word_count(rt: &HostRuntime) -> usize {
    let mut start = [0u8; 1];
    for count in 0..usize::MAX {
        if let Err(FillError::NotPresent) = rt.arg(count, &mut start) {
            return count;
        }
    }
    usize::MAX
}

// A word of the call, at the front of the room, and how many bytes it has: none, where there is no such word, or where it is longer than the room.
pub fn read_word(rt: &HostRuntime, word: usize, room: &mut [u8]) -> usize
    ensures fits { result ≤ length room.new }
    ensures whole { result ≡ length (take result room.new) }
{
    rt.arg(word, room).unwrap_or(0)
}

// ---- a file that is read

// The name as text, which is all that the system is asked for.
fn path_of(name: &[u8]) -> io::Result<&str> {
    str::from_utf8(name).map_err(|_| io::Error::new(
        ErrorKind::InvalidInput,
        "its name is not UTF-8",
    ))
}

fn open_read(rt: &HostRuntime, name: &[u8]) -> io::Result<File> {
    File::open(rt, path_of(name)?)
}

// The failure, when it is said.
fn say_unread(rt: &HostRuntime, program: &[u8], name: &[u8]) -> Unread {
    complain(rt, program);
    complain(rt, b": cannot read ");
    complain(rt, name);
    complain(rt, b"\n");
    Unread::File
}

fn read_file(rt: &HostRuntime, name: &[u8], room: &mut [u8]) -> io::Result<usize>
    ensures { IfOk result (λ count. count ≤ length room.new) }
{
    read_from(&mut open_read(rt, name)?, room)
}

// Reads the file that a word of the call names. Where it cannot be opened or read, standard error has a line with its name.
pub fn read_named(
    rt: &HostRuntime,
    program: &[u8],
    word: usize,
    room: &mut [u8],
) -> Result<usize, Unread>
    ensures { IfOk result (λ count. count ≤ length room.new) }
{
    let mut name = [0u8; NAME_ROOM];
    let n = read_word(rt, word, &mut name);
    read_file(rt, &name[..n], room).map_err(|_| say_unread(rt, program, &name[..n]))
}

// Nothing is read where no file has the name.
fn read_if_there(rt: &HostRuntime, name: &[u8], room: &mut [u8]) -> io::Result<usize>
    ensures { IfOk result (λ count. count ≤ length room.new) }
{
    match open_read(rt, name) {
        Ok(mut file) => read_from(&mut file, room),
        Err(error) => match error.kind() {
            ErrorKind::NotFound => Ok(0),
            _ => Err(error),
        },
    }
}

// The same as `read_named`, but that nothing is read where no file has the name, or the call has no such word.
pub fn read_kept(
    rt: &HostRuntime,
    program: &[u8],
    word: usize,
    room: &mut [u8],
) -> Result<usize, Unread>
    ensures { IfOk result (λ count. count ≤ length room.new) }
{
    let mut name = [0u8; NAME_ROOM];
    let n = read_word(rt, word, &mut name);
    read_if_there(rt, &name[..n], room).map_err(|_| say_unread(rt, program, &name[..n]))
}

// ---- what is said

// A count within the room.
pub fn within(count: usize, room: &[u8]) -> usize
    ensures { CountWithin count room.now result }
{
    count.min(room.len())
}

// The failure of a read, in words.
pub fn put_unread(name: &[u8], room: &mut [u8]) -> Said
    requires { length name.now + 29 ≤ length room.old }
    ensures { Saying (error (unread_text name.now)) room.old result room.new }
{
    let mut page = Page::new(room);
    page.put_bytes(name);
    page.put_bytes(b": cannot read standard input\n");
    Said {
        stream: Stream::Error,
        count: page.used,
    }
}

// A refusal: its number and its meaning.
pub fn put_refused(number: u8, words: &[u8], room: &mut [u8]) -> Said
    requires { length words.now + 8 ≤ length room.old }
    ensures { Saying (error (refused_text number words.now)) room.old result room.new }
{
    let mut page = Page::new(room);
    page.put_decimal(number as usize);
    page.put_bytes(b": ");
    page.put_bytes(words);
    page.put_byte(b'\n');
    Said {
        stream: Stream::Error,
        count: page.used,
    }
}

// What a program says of its input: what a work makes of the bytes that were read, or that they could not be read. The room for the input has a byte more
// than the longest input of which the bytes matter: so what is said of what was read is what is said of the whole input.
pub fn put_answer<F: FnOnce(&[u8], &mut [u8]) -> Said>(
    name: &[u8],
    input: &[u8],
    got: Result<usize, Unread>,
    room: &mut [u8],
    work: F,
) -> Said
    requires name_fits { length name.now + 29 ≤ length room.old }
    requires takes { TakesRoom (F.pre work) (length room.old) }
    ensures by_index { (speech : List ℕ → Speech) → Speaks (F.post work) speech → AlikeFrom (length input.now) speech → (s : List ℕ) →
        IfOk got (Front s input.now) → Saying (read_speech name.now (is_err got) speech s) room.old result room.new }
{
    match got {
        Ok(count) => work(&input[..within(count, input)], room),
        Err(_) => put_unread(name, room),
    }
}

// The same of two files. Of a file that was not read something was said already.
pub fn put_answer_of_two<F: FnOnce(&[u8], &[u8], &mut [u8]) -> Said>(
    first: &[u8],
    one: Result<usize, Unread>,
    second: &[u8],
    other: Result<usize, Unread>,
    room: &mut [u8],
    work: F,
) -> Said
    requires { TakesRoomOfTwo (F.pre work) (length room.old) }
    ensures by_index { (speech : List ℕ → List ℕ → Speech) → SpeaksOfTwo (F.post work) speech →
        AlikeOfTwoFrom (length first.now) (length second.now) speech →
        (s t : List ℕ) → IfOk one (Front s first.now) → IfOk other (Front t second.now) →
        Saying (read_speech_of_two (either (is_err one) (is_err other)) speech s t) room.old result room.new }
{
    match (one, other) {
        (Ok(n), Ok(m)) => work(
            &first[..within(n, first)],
            &second[..within(m, second)],
            room,
        ),
        _ => Said {
            stream: Stream::Error,
            count: 0,
        },
    }
}

// Why what is said is not on standard output: it was for standard error, or it could not be written.
#[derive(Clone, Copy, PartialEq, Eq)]
pub enum Unsaid {
    Refusal,
    Unwritten,
}

fn write_output(rt: &HostRuntime, name: &[u8], text: &[u8]) -> Result<(), Unsaid> {
    write_all(&mut rt.stdout(), text).map_err(|_| {
        complain(rt, name);
        complain(rt, b": cannot write standard output\n");
        Unsaid::Unwritten
    })
}

// Writes what is said. Where standard output does not take it, standard error has a line.
pub fn say_all(rt: &HostRuntime, name: &[u8], said: Said, room: &[u8]) -> Result<(), Unsaid> {
    let count = within(said.count, room);
    match said.stream {
        Stream::Output => write_output(rt, name, &room[..count]),
        Stream::Error => {
            complain(rt, &room[..count]);
            Err(Unsaid::Refusal)
        }
    }
}

pub fn say(rt: &HostRuntime, name: &[u8], said: Said, room: &[u8]) {
    let _ = say_all(rt, name, said, room);
}

// ---- a file that is written

// Why a file is not written.
#[derive(Drop)]
pub enum Unwritten {
    LongName,
    NoName,
    Link,
    NoPlainFile,
    Folder,
    NoFolder,
    // The other name of the file is taken: another run is writing, or one that was ended left it.
    Taken,
    // A call of the system failed.
    Failed(io::Error),
    // The same, while the file had its other name.
    Unfinished(io::Error),
}

// The system's words for a failure, without its number, which stands behind them.
fn system_words(text: &[u8]) -> &[u8] {
    match str::from_utf8(text) {
        Ok(words) => match words.split_once(" (os error ") {
            Some((words, _)) => words.as_bytes(),
            None => text,
        },
        Err(_) => text,
    }
}

fn say_failure(rt: &HostRuntime, failure: &io::Error) {
    let mut words = Cursor::new([0u8; 128]);
    let _ = write!(words, "{failure}");
    let n = within(words.position() as usize, words.get_ref());
    let text = words.into_inner();
    complain(rt, system_words(&text[..n]));
}

fn say_cause(rt: &HostRuntime, name: &[u8], why: &[u8]) {
    complain(rt, b": cannot write ");
    complain(rt, name);
    complain(rt, b": ");
    complain(rt, why);
}

fn say_name(rt: &HostRuntime, why: &[u8]) {
    complain(rt, b": the name of the file to write is ");
    complain(rt, why);
}

fn say_unwritten(rt: &HostRuntime, program: &[u8], name: &[u8], beside: &[u8], why: &Unwritten) {
    complain(rt, program);
    match why {
        Unwritten::LongName => say_name(rt, b"too long"),
        Unwritten::NoName => say_name(rt, b"empty"),
        Unwritten::Link => say_cause(rt, name, b"it is a link; give the name of the file itself"),
        Unwritten::NoPlainFile => say_cause(rt, name, b"it is not a plain file"),
        Unwritten::Folder => say_cause(rt, name, b"it is a folder"),
        Unwritten::NoFolder => say_cause(rt, name, b"there is no such folder"),
        Unwritten::Taken => {
            say_cause(rt, name, beside);
            complain(rt, b" is there, in use by another run or left by one\n");
            return;
        }
        Unwritten::Failed(failure) | Unwritten::Unfinished(failure) => {
            say_cause(rt, name, b"");
            say_failure(rt, failure);
        }
    }
    complain(rt, b"\n");
}

fn open_update(rt: &HostRuntime, name: &[u8]) -> io::Result<File> {
    OpenOptions::new()
        .read(true)
        .write(true)
        .open(rt, path_of(name)?)
}

fn open_new(rt: &HostRuntime, name: &[u8]) -> io::Result<File> {
    OpenOptions::new()
        .write(true)
        .create_new(true)
        .open(rt, path_of(name)?)
}

// Whether the name is that of a link.
fn is_link(rt: &HostRuntime, name: &[u8]) -> io::Result<bool> {
    Ok(fs::symlink_metadata(rt, path_of(name)?)?.is_symlink())
}

fn rename(rt: &HostRuntime, from: &[u8], to: &[u8]) -> io::Result<()> {
    fs::rename(rt, path_of(from)?, path_of(to)?)
}

fn remove(rt: &HostRuntime, name: &[u8]) -> io::Result<()> {
    fs::remove_file(rt, path_of(name)?)
}

// A file may take the name if it is free, or if a plain file has it that may be written. No device has `fsync`, and no folder can be opened so.
fn check_replaceable(rt: &HostRuntime, name: &[u8]) -> Result<(), Unwritten> {
    match open_update(rt, name) {
        Ok(file) => file.sync_all().map_err(|_| Unwritten::NoPlainFile),
        Err(error) => match error.kind() {
            ErrorKind::NotFound => Ok(()),
            ErrorKind::IsADirectory => Err(Unwritten::Folder),
            _ => Err(Unwritten::Failed(error)),
        },
    }
}

fn make(rt: &HostRuntime, beside: &[u8]) -> Result<File, Unwritten> {
    open_new(rt, beside).map_err(|error| match error.kind() {
        ErrorKind::AlreadyExists => Unwritten::Taken,
        ErrorKind::NotFound => Unwritten::NoFolder,
        _ => Unwritten::Failed(error),
    })
}

// Writes all bytes to the device, and closes the file.
fn fill(mut file: File, bytes: &[u8]) -> io::Result<()> {
    write_all(&mut file, bytes)?;
    file.sync_all()
}

// Fills the file that was made under the other name, and then gives it its own.
fn finish(
    rt: &HostRuntime,
    name: &[u8],
    beside: &[u8],
    file: File,
    bytes: &[u8],
) -> io::Result<()> {
    fill(file, bytes)?;
    rename(rt, beside, name)
}

// The other name of a file: its own, and `.new` behind it. A name that is too long for that has none.
fn put_beside(name: &[u8], room: &mut [u8]) -> usize
    requires { length room.old ≡ 4096 }
    ensures { Writing 4004 (beside_text name.now) room.old 0 result room.new }
{
    if 4000 < name.len() {
        return 0;
    }
    let mut page = Page::new(room);
    page.put_bytes(name);
    page.put_bytes(b".new");
    page.used
}

// Makes the file under another name, and then gives it its own: so it is whole, or what had the name is as it was.
fn write_file(rt: &HostRuntime, name: &[u8], beside: &[u8], bytes: &[u8]) -> Result<(), Unwritten> {
    if beside.is_empty() {
        return Err(Unwritten::LongName);
    }
    if name.is_empty() {
        return Err(Unwritten::NoName);
    }
    if is_link(rt, name).unwrap_or(false) {
        return Err(Unwritten::Link);
    }
    check_replaceable(rt, name)?;
    let file = make(rt, beside)?;
    finish(rt, name, beside, file, bytes).map_err(Unwritten::Unfinished)
}

// Says why a file is not written, and then leaves none under the other name.
fn give_up(rt: &HostRuntime, program: &[u8], name: &[u8], beside: &[u8], why: &Unwritten) {
    say_unwritten(rt, program, name, beside, why);
    if let Unwritten::Unfinished(_) = why {
        let _ = remove(rt, beside);
    }
}

// Writes the file that a word of the call names, which is not a link. Where it cannot be written, standard error has a line that says why.
pub fn write_named(
    rt: &HostRuntime,
    program: &[u8],
    word: usize,
    bytes: &[u8],
) -> Result<(), Unwritten> {
    let mut name = [0u8; NAME_ROOM];
    let Ok(n) = rt.arg(word, &mut name) else {
        say_unwritten(rt, program, b"", b"", &Unwritten::LongName);
        return Err(Unwritten::LongName);
    };
    let mut room = [0u8; NAME_ROOM];
    let m = within(put_beside(&name[..n], &mut room), &room);
    let (name, beside) = (&name[..n], &room[..m]);
    write_file(rt, name, beside, bytes).inspect_err(|why| give_up(rt, program, name, beside, why))
}

// Says what is said; where it goes to standard output, the file that a word of the call names is written first. Where it cannot be written,
// standard error has a line, and nothing else is said.
pub fn say_with_file(
    rt: &HostRuntime,
    program: &[u8],
    said: Said,
    room: &[u8],
    word: usize,
    bytes: &[u8],
) {
    if said.stream == Stream::Output && write_named(rt, program, word, bytes).is_err() {
        return;
    }
    say(rt, program, said, room);
}

// ---- a program, whole

// Reads standard input, and says what the program makes of what was read.
pub fn answer_input<
    const N: usize,
    const M: usize,
    F: FnOnce(&[u8], Result<usize, Unread>, &mut [u8]) -> Said,
>(rt: &HostRuntime, name: &[u8], put: F)
    requires takes { TakesInput (F.pre put) N M }
    requires input_bound { N < 2 ^ 63 }
    requires room_bound { M < 2 ^ 63 }
{
    let mut input = [0u8; N];
    let got = read_input(rt, &mut input);
    let mut room = [0u8; M];
    let said = put(&input, got, &mut room);
    say(rt, name, said, &room);
}

// Reads the files that the first two words of the call name, and says what the program makes of what was read.
pub fn answer_files<
    const N: usize,
    const M: usize,
    const K: usize,
    F: FnOnce(&[u8], Result<usize, Unread>, &[u8], Result<usize, Unread>, &mut [u8]) -> Said,
>(rt: &HostRuntime, name: &[u8], put: F)
    requires takes { TakesFiles (F.pre put) N M K }
    requires first_bound { N < 2 ^ 63 }
    requires second_bound { M < 2 ^ 63 }
    requires room_bound { K < 2 ^ 63 }
{
    let mut first = [0u8; N];
    let one = read_named(rt, name, 1, &mut first);
    let mut second = [0u8; M];
    let other = read_named(rt, name, 2, &mut second);
    let mut room = [0u8; K];
    let said = put(&first, one, &second, other, &mut room);
    say(rt, name, said, &room);
}
