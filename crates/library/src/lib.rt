// The gauge for programs in C: include/trovimbe.h declares these functions. Each slice is a pointer and a length there.
#![tactic(auto)]

ghost use Rattle.std.specs.Prelude.{◌≡◌};
ghost use Rattle.library.specs.Library.{kept_pack, kept_tray, Started, RecordDone, PackImage, SlotImage};

// What a call says: its answer, and how many bytes stand at the front of the room that was lent for them. (The C interface has no Result.)
#[repr(C)]
#[derive(Clone, Copy)]
pub struct LibraryResult {
    pub answer: u8,
    pub count: usize,
}

fn said(answer: u8, count: usize) -> LibraryResult
    ensures { result ≡ record { answer = answer; count = count } }
{
    LibraryResult {
        answer: answer,
        count: count,
    }
}

// Each call stands here for a pack and for a tray: C asks for both by name. What they share is a match of two arms, which one function for both would
// not make plainer.

// ---- one pack

// The state before the first record; 53 where the room is not that of a state. (A number, here and below: the C interface.)
#[unsafe(no_mangle)]
pub extern "C" fn trovimbe_start(state: &mut [u8]) -> u8
    ensures { Started kept_pack state.old result state.new }
{
    if state.len() != 172 {
        return 53;
    }
    let before = session_run::empty();
    let _ = state_bytes::state_out(before, state);
    0
}

// The record at the front of some bytes, run in the state that the caller keeps; 54 where there are too few for its header.
#[unsafe(no_mangle)]
pub extern "C" fn trovimbe_record(state: &mut [u8], bytes: &[u8], reply: &mut [u8]) -> LibraryResult
    ensures { RecordDone kept_pack state.old bytes.now reply.old result state.new reply.new }
{
    if bytes.len() < 4 {
        return said(54, 0);
    }
    match state_bytes::state_step(state, bytes, reply) {
        Ok(step) => said(step.answer, step.replied),
        Err(refusal) => said(u8::from(refusal), 0),
    }
}

// The image of the pack as it is now, which is all that outlives a loss of power.
#[unsafe(no_mangle)]
pub extern "C" fn trovimbe_image(state: &[u8], image: &mut [u8]) -> LibraryResult
    ensures { PackImage state.now image.old result image.new }
{
    let session = match state_bytes::state_in(state) {
        Ok(session) => session,
        Err(refusal) => return said(u8::from(refusal), 0),
    };
    match session_run::take_out(session, image) {
        Ok(count) => said(0, count),
        Err(reason) => said(u8::from(reason), 0),
    }
}

// ---- a tray

// The tray before the first record; 53 where the room is not that of a tray's state.
#[unsafe(no_mangle)]
pub extern "C" fn trovimbe_tray_start(state: &mut [u8]) -> u8
    ensures { Started kept_tray state.old result state.new }
{
    if state.len() != 1363 {
        return 53;
    }
    let before = tray_record::empty();
    let _ = state_bytes::tray_state_out(before, state);
    0
}

// As of one pack, with the records of a tray.
#[unsafe(no_mangle)]
pub extern "C" fn trovimbe_tray_record(
    state: &mut [u8],
    bytes: &[u8],
    reply: &mut [u8],
) -> LibraryResult
    ensures { RecordDone kept_tray state.old bytes.now reply.old result state.new reply.new }
{
    if bytes.len() < 4 {
        return said(54, 0);
    }
    match state_bytes::tray_state_step(state, bytes, reply) {
        Ok(step) => said(step.answer, step.replied),
        Err(refused) => said(u8::from(refused), 0),
    }
}

// The image of the pack in a slot.
#[unsafe(no_mangle)]
pub extern "C" fn trovimbe_tray_image(state: &[u8], slot: u8, image: &mut [u8]) -> LibraryResult
    ensures { SlotImage slot state.now image.old result image.new }
{
    let tray = match state_bytes::tray_state_in(state) {
        Ok(tray) => tray,
        Err(refused) => return said(u8::from(refused), 0),
    };
    match tray_run::take_out(tray, slot, image) {
        Ok(count) => said(0, count),
        Err(cause) => said(u8::from(cause), 0),
    }
}
