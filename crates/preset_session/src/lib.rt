// Programming packs at the bench: from an image and 32 wanted bytes, the session that sets block 1 to them.
#![tactic(auto)]

ghost use Rattle.std.specs.Prelude.{◌≡◌, ◌++◌, ◌≤◌, length, drop};
ghost use Rattle.preset_session.specs.PresetSession.{write_payload, programming_of, programming_size, preset_refusal_number};
ghost use Rattle.preset_session.specs.PresetSession.{accepted_answer, preset_answer, Programming};

use digits::Page;
use record::Refusal;

// What keeps a session from being written: the image, for what a record of it would be refused; the length of the parameters; block 1, which is
// locked; or the room.
#[derive(Clone, Copy)]
pub enum PresetRefusal {
    Image(Refusal),
    Parameters,
    Locked,
    Room,
}

impl From<PresetRefusal> for u8 {
    ghost from_gives = { λ refusal number. number ≡ preset_refusal_number refusal };

    fn from(refusal: PresetRefusal) -> u8 {
        match refusal {
            PresetRefusal::Image(refusal) => u8::from(refusal),
            PresetRefusal::Parameters => 22,
            PresetRefusal::Locked => 20,
            PresetRefusal::Room => 21,
        }
    }
}

// The answer for an image that is accepted.
fn accepted_answer(image: &[u8], wanted: &[u8], room: usize) -> Result<(), PresetRefusal>
    requires { length image.now ≡ 60 }
    ensures { result ≡ accepted_answer image.now wanted.now room }
{
    if wanted.len() != 32 {
        return Err(PresetRefusal::Parameters);
    }
    if image[record::LOCKS_AT] / 2 % 2 == 1 {
        return Err(PresetRefusal::Locked);
    }
    if room < 120 {
        return Err(PresetRefusal::Room);
    }
    Ok(())
}

fn answer(image: &[u8], wanted: &[u8], room: usize) -> Result<(), PresetRefusal>
    ensures { result ≡ preset_answer image.now wanted.now room }
{
    let judged = record::judged(image);
    match judged {
        Ok(_) => accepted_answer(image, wanted, room),
        Err(refusal) => Err(PresetRefusal::Image(refusal)),
    }
}

// The write of the wanted bytes.
fn write_payload(wanted: &[u8]) -> [u8; 36]
    requires { length wanted.now ≡ 32 }
    ensures { result ≡ write_payload wanted.now }
{
    let mut payload = [0u8; 36];
    slices::store_array([0, 0xcc, 0x6c, 0x60], &mut payload, 0);
    slices::store(wanted, &mut payload, 4);
    payload
}

// An image record, and a write, a copy and a read-back of block 1.
fn put_session(image: &[u8], wanted: &[u8], room: &mut [u8])
    requires image_len { length image.now ≡ 60 }
    requires wanted_len { length wanted.now ≡ 32 }
    requires programming_size_in_bounds { programming_size ≤ length room.old }
    ensures { room.new ≡ programming_of image.now wanted.now ++ drop programming_size room.old }
{
    let writing = write_payload(wanted);
    let copying = [0u8, 0xcc, 0x48, 0x60];
    let reading = [32u8, 0xcc, 0x69, 0x60];
    let mut page = Page::new(room);
    runs::put_record(1, image, &mut page);
    runs::put_record(4, &writing, &mut page);
    runs::put_record(4, &copying, &mut page);
    runs::put_record(4, &reading, &mut page);
}

// Writes the session at the front of the room, or nothing.
pub fn write_session(image: &[u8], wanted: &[u8], room: &mut [u8]) -> Result<(), PresetRefusal>
    ensures { Programming image.now wanted.now room.old result room.new }
{
    answer(image, wanted, room.len())?;
    put_session(image, wanted, room);
    Ok(())
}
