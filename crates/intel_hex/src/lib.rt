// Intel HEX: a line of it, and the text of a label and block 1, written and read.
#![tactic(auto)]

ghost use Rattle.std.specs.Prelude.{◌≡◌, ◌+◌, ◌*◌, ◌%◌, ◌<◌, ◌≤◌, ◌++◌, length, drop, slice_index, IfSome};
ghost use Rattle.digits.specs.Digits.{upper, hex_bytes, Appends};
ghost use Rattle.intel_hex.specs.Line.{hex_line_text, byte_sum, checksum_of, data_record, bytes_in, address_in, data_in, formed_of};
ghost use Rattle.intel_hex.specs.Line.{sums_to_zero, placed_of, headed_of, expected_of, checked_line_of, fault_number};
ghost use Rattle.intel_hex.specs.Export.{hex_refusal_number, image_accepted, both_accepted, export_label, export_text, export_size, export_answer, Exporting};
ghost use Rattle.intel_hex.specs.Import.{text_lines, Cut, lines_left, lines_answer, count_of, last_address, whole_text, data_at};
ghost use Rattle.intel_hex.specs.Import.{imported_of, import_size, import_answer, Importing};
ghost use Rattle.intel_hex.specs.Flaw.{pairs_cause, begun_cause, form_cause, cause_of, flaw_from, gap_of};

use digits::{Letters, Page};

// What is wrong with a line: its form, its checksum, or which record it is.
#[derive(Clone, Copy)]
pub enum Fault {
    Form,
    Checksum,
    Record,
}

// The answer's number.
impl From<Fault> for u8 {
    fn from(fault: Fault) -> u8
        ensures { result ≡ fault_number fault }
    {
        match fault {
            Fault::Form => 40,
            Fault::Checksum => 41,
            Fault::Record => 42,
        }
    }
}

// What keeps a text from being written or read: a line; lines that are not the whole; an image; or the room.
#[derive(Clone, Copy)]
pub enum HexRefusal {
    Line(Fault),
    Whole,
    Image,
    Room,
}

// The answer's number.
impl From<HexRefusal> for u8 {
    fn from(refusal: HexRefusal) -> u8
        ensures { result ≡ hex_refusal_number refusal }
    {
        match refusal {
            HexRefusal::Line(fault) => u8::from(fault),
            HexRefusal::Whole => 43,
            HexRefusal::Image => 44,
            HexRefusal::Room => 45,
        }
    }
}

// ---- written

// The sum of bytes, modulo 256.
fn total(bytes: &[u8]) -> u8
    ensures { result ≡ byte_sum bytes.now % 256 }
{
    let mut sum: u8 = 0;
    for byte in bytes {
        sum = sum.wrapping_add(*byte);
    }
    sum
}

fn checksum(bytes: &[u8]) -> u8
    ensures { result ≡ checksum_of bytes.now }
{
    0u8.wrapping_sub(total(bytes))
}

// The bytes of a record of data: count, address, type, data and checksum.
pub fn data_record(address: u8, carried: &[u8]) -> [u8; 21]
    requires { length carried.now ≡ 16 }
    ensures { result ≡ data_record address carried.now }
{
    let mut bytes = [0u8; 21];
    slices::store_array([16, 0, address, 0], &mut bytes, 0);
    slices::store(carried, &mut bytes, 4);
    bytes[20] = checksum(&bytes[..20]);
    bytes
}

// The line of some bytes.
pub fn put_line(bytes: &[u8], page: &mut Page)
    requires { page.old.used + (2 * length bytes.now + 2) ≤ length page.old.room.now }
    ensures { Appends (1 + (2 * length bytes.now + 1)) (hex_line_text bytes.now) page.old page.new }
{
    page.put_byte(b':');
    page.put_pairs(Letters::Upper, bytes);
    page.put_byte(b'\n');
}

// ---- read

// A byte of a line, by its place; 0 behind the last.
pub fn byte_in(line: &[u8], k: usize) -> u8
    requires { k < 32 }
    ensures { result ≡ slice_index (bytes_in line.now) k }
{
    let at = 2 * k + 1;
    if line.len() < at + 3 {
        return 0;
    }
    digits::upper_byte(line[at], line[at + 1])
}

pub fn address_in(line: &[u8]) -> u16
    ensures { result ≡ address_in line.now }
{
    u16::from_be_bytes([byte_in(line, 1), byte_in(line, 2)])
}

#[tactic(auto, using(crate::proofs::Laws::formed_short))]
fn formed(line: &[u8]) -> bool
    ensures { result ≡ formed_of line.now }
{
    let n = line.len();
    if n < 12 {
        return false;
    }
    let pairs = usize::from(byte_in(line, 0)) + 5;
    line[0] == b':'
        && line[n - 1] == b'\n'
        && digits::upper_digits(&line[1..n - 1])
        && n - 2 == 2 * pairs
}

// The sum of the bytes that digits stand for, modulo 256.
fn total_read(text: &[u8]) -> u8
    ensures { result ≡ byte_sum (hex_bytes upper text.now) % 256 }
{
    let mut sum: u8 = 0;
    for pair in text.chunks_exact(2) {
        sum = sum.wrapping_add(digits::upper_byte(pair[0], pair[1]));
    }
    sum
}

fn sums_to_zero(line: &[u8]) -> bool
    requires { 2 ≤ length line.now }
    ensures { result ≡ sums_to_zero line.now }
{
    let end = line.len() - 1;
    total_read(&line[1..end]) == 0
}

fn placed(address: u16) -> bool
    ensures { result ≡ placed_of address }
{
    matches!(address, 0x20 | 0x60 | 0x70)
}

fn headed(count: u8, kind: u8, line: &[u8]) -> bool
    ensures { result ≡ headed_of count kind line.now }
{
    byte_in(line, 0) == count && byte_in(line, 3) == kind
}

// Whether it is the end record, or 16 bytes at one of the three addresses.
#[tactic(auto, unfolding(crate::specs::Line::expected_of))]
fn expected(line: &[u8]) -> bool
    ensures { result ≡ expected_of line.now }
{
    let at = address_in(line);
    (headed(0, 1, line) && at == 0) || (headed(16, 0, line) && placed(at))
}

// A line, judged by itself.
#[tactic(auto, using(crate::proofs::Laws::formed_long), unfolding(crate::specs::Line::checked_line_of))]
pub fn checked_line(line: &[u8]) -> Result<(), Fault>
    ensures { result ≡ checked_line_of line.now }
{
    if !formed(line) {
        return Err(Fault::Form);
    }
    if !sums_to_zero(line) {
        return Err(Fault::Checksum);
    }
    if !expected(line) {
        return Err(Fault::Record);
    }
    Ok(())
}

// The data of a record of 16 bytes.
pub fn put_data(line: &[u8], page: &mut Page)
    requires in_bounds { 20 ≤ length (bytes_in line.now) }
    requires used_in_bounds { page.old.used + 16 ≤ length page.old.room.now }
    ensures { Appends 16 (data_in line.now) page.old page.new }
{
    for i in 0..16 {
        page.put_byte(byte_in(line, 4 + i));
    }
}

// ---- export

fn image_accepted(image: &[u8]) -> bool
    ensures { result ≡ image_accepted image.now }
{
    record::judged(image).is_ok()
}

#[tactic(auto, unfolding(crate::specs::Export::both_accepted))]
fn both_accepted(pack: &[u8], factory: &[u8]) -> bool
    ensures { result ≡ both_accepted pack.now factory.now }
{
    image_accepted(pack) && image_accepted(factory)
}

// The label for export, a part of one of the two images.
pub fn export_label<'a>(pack: &'a [u8], factory: &'a [u8]) -> &'a [u8]
    ensures { result.now ≡ export_label pack.now factory.now }
{
    if !both_accepted(pack, factory) {
        return &pack[..0];
    }
    if pack[record::LOCKS_AT] % 2 == 1 {
        return &pack[record::LABEL_AT..record::BLOCK_AT];
    }
    &factory[record::LABEL_AT..record::BLOCK_AT]
}

#[tactic(auto, unfolding(crate::specs::Export::export_answer))]
fn export_answer(pack: &[u8], factory: &[u8], room: usize) -> Result<(), HexRefusal>
    ensures { result ≡ export_answer pack.now factory.now room }
{
    if !both_accepted(pack, factory) {
        return Err(HexRefusal::Image);
    }
    if room < 144 {
        return Err(HexRefusal::Room);
    }
    Ok(())
}

// Three records of data and the end record, a line each.
fn put_text(label: &[u8], block: &[u8], room: &mut [u8])
    requires label_len { length label.now ≡ 16 }
    requires block_len { length block.now ≡ 32 }
    requires export_size_in_bounds { export_size ≤ length room.old }
    ensures { room.new ≡ export_text label.now block.now ++ drop export_size room.old }
{
    let first = data_record(0x20, label);
    let second = data_record(0x60, &block[0..16]);
    let third = data_record(0x70, &block[16..32]);
    let end = [0u8, 0, 0, 1, 0xff];
    let mut page = Page::new(room);
    put_line(&first, &mut page);
    put_line(&second, &mut page);
    put_line(&third, &mut page);
    put_line(&end, &mut page);
}

// Writes the text at the front of the room, or nothing.
pub fn write_text<'a>(pack: &'a [u8], factory: &'a [u8], room: &mut [u8]) -> Result<(), HexRefusal>
    ensures { Exporting pack.now factory.now room.old result room.new }
{
    export_answer(pack, factory, room.len())?;
    let label = export_label(pack, factory);
    put_text(label, &pack[record::BLOCK_AT..record::ACR_AT], room);
    Ok(())
}

// ---- import

// Where the first line of a text ends: after its line feed, or at the end of the text.
fn line_end(text: &[u8]) -> usize
    requires { 0 < length text.now }
    ensures { Cut text.now result }
{
    match text.iter().position(|byte| *byte == b'\n') {
        Some(i) => i + 1,
        None => text.len(),
    }
}

// What is left of the lines of a text.
#[derive(Drop)]
struct TextLines<'a> {
    rest: &'a [u8],
}

impl<'a> Iterator for TextLines<'a> {
    ghost use Rattle.std.specs.Iterator.{item_count, YieldsFirstRef};

    type Item = &'a [u8];

    ghost next_gives = { YieldsFirstRef lines_left };

    ghost remaining = { item_count lines_left };

    fn next(&mut self) -> Option<&'a [u8]> {
        if self.rest.is_empty() {
            return None;
        }
        let (line, rest) = self.rest.split_at(line_end(self.rest));
        self.rest = rest;
        Some(line)
    }
}

fn split_lines(text: &[u8]) -> TextLines<'_>
    ensures { lines_left result ≡ text_lines text.now }
{
    TextLines { rest: text }
}

// The first bad line decides.
fn lines_answer(text: &[u8]) -> Result<(), HexRefusal>
    ensures { result ≡ lines_answer (text_lines text.now) }
{
    for line in split_lines(text) {
        checked_line(line).map_err(HexRefusal::Line)?;
    }
    Ok(())
}

// How many lines have an address.
fn count(text: &[u8], address: u16) -> usize
    ensures { result ≡ count_of address (text_lines text.now) }
{
    split_lines(text)
        .filter(|line| address_in(line) == address)
        .count()
}

// The address of the last line, or 1.
fn last_address(text: &[u8]) -> u16
    ensures { result ≡ last_address 1 (text_lines text.now) }
{
    match split_lines(text).last() {
        Some(line) => address_in(line),
        None => 1,
    }
}

// Whether each of the four records is there once, the end record last.
#[tactic(auto, unfolding(crate::specs::Import::whole_text))]
fn whole_text(text: &[u8]) -> bool
    ensures { result ≡ whole_text (text_lines text.now) }
{
    let data = count(text, 0x20) == 1 && count(text, 0x60) == 1 && count(text, 0x70) == 1;
    data && count(text, 0) == 1 && last_address(text) == 0
}

#[tactic(auto, unfolding(crate::specs::Import::import_answer))]
fn import_answer(text: &[u8], room: usize) -> Result<(), HexRefusal>
    ensures { result ≡ import_answer (text_lines text.now) room }
{
    lines_answer(text)?;
    if !whole_text(text) {
        return Err(HexRefusal::Whole);
    }
    if room < 48 {
        return Err(HexRefusal::Room);
    }
    Ok(())
}

// The data of the line at an address.
fn put_found(text: &[u8], address: u16, page: &mut Page)
    requires text_len { length (data_at address (text_lines text.now)) ≡ 16 }
    requires used_in_bounds { page.old.used + 16 ≤ length page.old.room.now }
    ensures { Appends 16 (data_at address (text_lines text.now)) page.old page.new }
{
    for line in split_lines(text) {
        if address_in(line) == address {
            put_data(line, page);
            return;
        }
    }
}

// The label, and the two halves of block 1.
fn put_imported(text: &[u8], room: &mut [u8])
    requires label_len { length (data_at 0x20 (text_lines text.now)) ≡ 16 }
    requires low_len { length (data_at 0x60 (text_lines text.now)) ≡ 16 }
    requires high_len { length (data_at 0x70 (text_lines text.now)) ≡ 16 }
    requires import_size_in_bounds { import_size ≤ length room.old }
    ensures { room.new ≡ imported_of (text_lines text.now) ++ drop import_size room.old }
{
    let mut page = Page::new(room);
    put_found(text, 0x20, &mut page);
    put_found(text, 0x60, &mut page);
    put_found(text, 0x70, &mut page);
}

// Reads the 48 bytes to the front of the room, or nothing.
pub fn read_text(text: &[u8], room: &mut [u8]) -> Result<(), HexRefusal>
    ensures { Importing text.now room.old result room.new }
{
    import_answer(text, room.len())?;
    put_imported(text, room);
    Ok(())
}

// ---- what is wrong with a text, for the words of a refusal

// Why a line is bad: six ways in which it is not formed, its checksum, or which record it is.
#[derive(Clone, Copy)]
pub enum Cause {
    Empty,
    Colon,
    Feed,
    Return,
    Digits,
    Pairs,
    Sum,
    Place,
}

// A bad line of a text: its number, from 1 on, and why it is bad.
#[derive(Clone, Copy)]
pub struct Flaw {
    pub line: usize,
    pub cause: Cause,
}

// Of a line that has a colon, a line feed and a checksum's length between them.
#[tactic(auto, using(crate::proofs::Flaws::digits_alone), unfolding(crate::specs::Flaw::pairs_cause))]
fn pairs_cause(line: &[u8]) -> Cause
    requires { 12 ≤ length line.now }
    ensures { result ≡ pairs_cause line.now }
{
    let n = line.len();
    if line[n - 2] == b'\r' {
        return Cause::Return;
    }
    if digits::upper_digits(&line[1..n - 1]) {
        return Cause::Pairs;
    }
    Cause::Digits
}

// Of a line that has a colon.
#[tactic(auto, unfolding(crate::specs::Flaw::begun_cause))]
fn begun_cause(line: &[u8]) -> Cause
    requires { 0 < length line.now }
    ensures { result ≡ begun_cause line.now }
{
    let n = line.len();
    if line[n - 1] != b'\n' {
        return Cause::Feed;
    }
    if n < 12 {
        return Cause::Pairs;
    }
    pairs_cause(line)
}

// Why a line is not formed.
#[tactic(auto, unfolding(crate::specs::Flaw::form_cause))]
fn form_cause(line: &[u8]) -> Cause
    requires { 0 < length line.now }
    ensures { result ≡ form_cause line.now }
{
    if line[0] == b'\n' {
        return Cause::Empty;
    }
    if line[0] == b':' {
        return begun_cause(line);
    }
    Cause::Colon
}

#[tactic(auto, using(crate::proofs::Laws::formed_long), unfolding(crate::specs::Flaw::cause_of))]
fn cause_of(line: &[u8]) -> Cause
    requires { 0 < length line.now }
    ensures { result ≡ cause_of line.now }
{
    if !formed(line) {
        return form_cause(line);
    }
    if !sums_to_zero(line) {
        return Cause::Sum;
    }
    Cause::Place
}

pub fn first_bad(text: &[u8]) -> Option<Flaw>
    ensures value { result ≡ flaw_from 1 (text_lines text.now) }
    ensures small { IfSome result (λ flaw. flaw.line ≤ length text.now) }
{
    for (i, line) in split_lines(text).enumerate() {
        if checked_line(line).is_err() {
            return Some(Flaw {
                line: i + 1,
                cause: cause_of(line),
            });
        }
    }
    None
}

// What a text without a bad line lacks.
#[derive(Clone, Copy)]
pub enum Gap {
    Label,
    Low,
    High,
    End,
    Last,
}

#[tactic(auto, unfolding(crate::specs::Flaw::gap_of))]
pub fn first_gap(text: &[u8]) -> Gap
    ensures { result ≡ gap_of (text_lines text.now) }
{
    if count(text, 0x20) != 1 {
        return Gap::Label;
    }
    if count(text, 0x60) != 1 {
        return Gap::Low;
    }
    if count(text, 0x70) != 1 {
        return Gap::High;
    }
    if count(text, 0) != 1 {
        return Gap::End;
    }
    Gap::Last
}
