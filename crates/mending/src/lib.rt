// Mending damaged images: the image that a session accepts, and the lines that tell what was changed.
#![tactic(auto)]

ghost use Rattle.std.specs.Prelude.{◌≡◌, ◌++◌, ◌+◌, ◌≤◌, min, max, length, drop};
ghost use Rattle.numbers.specs.Offset.{moved_into};
ghost use Rattle.digits.specs.Digits.{lower, pairs_of, Writing, Appends};
ghost use Rattle.mending.specs.Mending.{mend_refusal_number, mending_answer, capped_of, arranged_of, mended_breaks, mended_of};
ghost use Rattle.mending.specs.Mending.{change_line, change_text, changes_from, changes_size, Mending, Listing};

use digits::Page;
use params::Breaks;
use record::{AGING_AT, BLOCK_AT, IMAGE_SIZE, LOCKS_AT};

// What keeps an image from being mended: its size or that of the room, or its family code.
#[derive(Clone, Copy)]
pub enum MendRefusal {
    Size,
    Family,
}

impl From<MendRefusal> for u8 {
    ghost from_gives = { λ refusal number. number ≡ mend_refusal_number refusal };

    fn from(refusal: MendRefusal) -> u8 {
        match refusal {
            MendRefusal::Size => 30,
            MendRefusal::Family => 31,
        }
    }
}

// Where the CRC of the address stands, and the breakpoints, TBP34 first.
const CRC_AT: usize = 7;

const BREAKS_AT: usize = 52;

// The answer for an image and a room of so many bytes.
fn answer(image: &[u8], room: usize) -> Result<(), MendRefusal>
    ensures { result ≡ mending_answer image.now room }
{
    if image.len() != IMAGE_SIZE {
        return Err(MendRefusal::Size);
    }
    if room < IMAGE_SIZE {
        return Err(MendRefusal::Size);
    }
    if image[0] != 0x3d {
        return Err(MendRefusal::Family);
    }
    Ok(())
}

// ---- the breakpoints

// None above 40 °C.
fn capped(breaks: Breaks) -> Breaks
    ensures { result ≡ capped_of breaks }
{
    let top = numbers::ZERO7 + 40;
    Breaks {
        b34: breaks.b34.min(top),
        b23: breaks.b23.min(top),
        b12: breaks.b12.min(top),
    }
}

// The same three, TBP12 the smallest and TBP34 the largest.
fn arranged(breaks: Breaks) -> Breaks
    ensures { result ≡ arranged_of breaks }
{
    let low = breaks.b12.min(breaks.b23);
    let high = breaks.b12.max(breaks.b23);
    Breaks {
        b34: high.max(breaks.b34),
        b23: low.max(high.min(breaks.b34)),
        b12: low.min(breaks.b34),
    }
}

// Those of the image, mended.
fn mended_breaks(image: &[u8]) -> Breaks
    requires { length image.now ≡ 60 }
    ensures { result ≡ mended_breaks image.now }
{
    let block = slices::array_at(image, BLOCK_AT);
    arranged(capped(Breaks::of(&block)))
}

// ---- the image

// A saved AS, moved to the nearest end.
fn aged(x: u8) -> u8
    ensures { result ≡ moved_into 63 128 x }
{
    x.clamp(63, 128)
}

// The image with its damage mended.
fn mended_image(image: &[u8]) -> [u8; IMAGE_SIZE]
    requires { length image.now ≡ 60 }
    ensures { result ≡ mended_of image.now }
{
    let mut mended: [u8; IMAGE_SIZE] = slices::array_at(image, 0);
    mended[CRC_AT] = crc::crc(&image[..CRC_AT]);
    let breaks = mended_breaks(image);
    mended[BREAKS_AT] = numbers::offset8(breaks.b34);
    mended[BREAKS_AT + 1] = numbers::offset8(breaks.b23);
    mended[BREAKS_AT + 2] = numbers::offset8(breaks.b12);
    mended[AGING_AT] = aged(image[AGING_AT]);
    mended[LOCKS_AT] = image[LOCKS_AT] % 4;
    mended
}

// The mended image at the front of the room, whose rest stays.
fn put_mended(image: &[u8], room: &mut [u8])
    requires image_len { length image.now ≡ 60 }
    requires in_bounds { 60 ≤ length room.old }
    ensures { room.new ≡ mended_of image.now ++ drop 60 room.old }
{
    slices::store_array(mended_image(image), room, 0);
}

// Writes the mended image at the front of the room, or nothing.
pub fn mend(image: &[u8], room: &mut [u8]) -> Result<(), MendRefusal>
    ensures { Mending image.now room.old result room.new }
{
    answer(image, room.len())?;
    put_mended(image, room);
    Ok(())
}

// ---- the lines

// Offset, old and new, in hex.
fn put_line(table: &[u8; 512], offset: u8, old: u8, new: u8, page: &mut Page)
    requires table_value { table.now ≡ pairs_of lower }
    requires used_in_bounds { page.old.used + 9 ≤ length page.old.room.now }
    ensures { Appends 9 (change_line offset old new) page.old page.new }
{
    page.put_entry(table, offset);
    page.put_byte(b' ');
    page.put_entry(table, old);
    page.put_byte(b' ');
    page.put_entry(table, new);
    page.put_byte(b'\n');
}

// The line of a byte, where it was changed.
fn put_change(table: &[u8; 512], offset: u8, old: u8, new: u8, page: &mut Page)
    requires table_value { table.now ≡ pairs_of lower }
    requires used_in_bounds { page.old.used + 9 ≤ length page.old.room.now }
    ensures { Appends 9 (change_text offset old new) page.old page.new }
{
    if old == new {
        return;
    }
    put_line(table, offset, old, new, page);
}

// The lines of two images, at the front of the room.
fn put_changes(old: &[u8], new: &[u8], room: &mut [u8]) -> usize
    requires old_len { length old.now ≡ 60 }
    requires new_len { length new.now ≡ 60 }
    requires changes_size_in_bounds { changes_size ≤ length room.old }
    ensures { Writing changes_size (changes_from 0 old.now new.now) room.old 0 result room.new }
{
    let table = digits::lower_pairs();
    let mut page = Page::new(room);
    for i in 0..old.len() {
        put_change(&table, i as u8, old[i], new[i], &mut page);
    }
    page.used
}

// Writes a line for each byte that mending changes, or nothing, and returns how many bytes the lines are. The lines of any image have room: there are
// nine bytes for each of its bytes.
pub fn changes(image: &[u8], room: &mut [u8; 540]) -> Result<usize, MendRefusal>
    ensures { Listing image.now room.old result room.new }
{
    answer(image, IMAGE_SIZE)?;
    let mended = mended_image(image);
    Ok(put_changes(image, &mended, room))
}
