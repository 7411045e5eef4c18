// One record of a tray, read; the search over its packs; and what a transaction does with those that it reaches.
#![tactic(auto)]

ghost use Rattle.std.specs.Prelude.{◌≡◌, true, ◌≤◌, ◌<◌, is_some, length};
ghost use Rattle.state.specs.State.{MeterWf};
ghost use Rattle.record.specs.Record.{fitted_of};
ghost use Rattle.runs.specs.AnyRecord.{front_by};
ghost use Rattle.tray_record.specs.Wire.{and_bytes};
ghost use Rattle.tray_record.specs.Tray.{empty_tray, TrayWf, search_of, tray_kind_of, ahead_of, accepted_for, tray_asked_at, matched_of};
ghost use Rattle.tray_record.specs.Tray.{reach_by, tray_reach, tray_acted, named_slot, image_at};
ghost use Rattle.tray_record.specs.Tray.{reach_span, selecting_of, changing_of, answer_of, line_high, on_line, beside_line, unheard_of};

use bus::{Rom, Transaction};
use gauge::Gauge;
use record::{Event, Form, IMAGE_SIZE, Kind, Refusal};
use runs::Record;
use state::{Common, Label, Meter, Profile, Tick};

// The packs on one line, each by its parts; how many there are; and whether the opening is closed. (The parts stand in three arrays, since an event
// takes out and stores back the one that it changes: with whole gauges in one array a conversion took a fifth more.)
#[derive(Clone, Copy)]
pub struct Tray {
    pub count: u8,
    pub closed: bool,
    pub commons: [Common; 8],
    pub labels: [Label; 8],
    pub meters: [Meter; 8],
}

// The slots that a transaction reaches, one after the other: from the first on, before the stop. (No range of std: callers and laws read the fields.)
#[derive(Clone, Copy)]
pub struct Span {
    pub first: u8,
    pub stop: u8,
}

// Before the first record.
pub fn empty() -> Tray
    ensures value { result ≡ empty_tray }
    ensures kept { TrayWf result }
{
    let zeros = [0u8; IMAGE_SIZE];
    let gauge = gauge::image_in(Profile::Ds2781, &zeros);
    Tray {
        count: 0,
        closed: false,
        commons: [gauge.common; 8],
        labels: [gauge.label; 8],
        meters: [gauge.meter; 8],
    }
}

// ---- what a record asks

// The slot that the record at the front names, where a tray can have it.
#[tactic(auto, using(crate::proofs::Laws::within), unfolding(crate::specs::Tray::named_slot))]
pub fn slot(rest: &[u8]) -> usize
    ensures value { result ≡ named_slot rest.now }
    ensures small { result < 8 }
{
    // Returned from within: with one match each record of a tray takes 3 instructions more.
    if let Some(&named) = rest.get(4) {
        let slot = usize::from(named);
        if slot < 8 {
            return slot;
        }
    }
    0
}

// Whether the record at the front is an image, long enough for its address.
#[tactic(auto, unfolding(crate::specs::Tray::image_at))]
pub fn image_at(rest: &[u8]) -> bool
    ensures { result ≡ image_at rest.now }
{
    4 + IMAGE_SIZE <= rest.len() && matches!(slices::pair(rest, 2), 1 | 8)
}

#[tactic(auto, unfolding(crate::specs::Tray::tray_kind_of))]
fn kind_of(n: u16) -> Kind
    ensures { result ≡ tray_kind_of n }
{
    match n {
        1 => Kind::Image(Profile::Ds2781),
        4 => Kind::Transaction(Form::Short),
        7 => Kind::Transaction(Form::Long),
        8 => Kind::Image(Profile::Ds2775),
        18 => Kind::Reading,
        19 => Kind::Conversion,
        21 => Kind::PowerOn,
        22 => Kind::Sample,
        _ => Kind::Unknown,
    }
}

// How many bytes stand ahead of the old payload.
fn ahead(kind: Kind) -> usize
    ensures value { result ≡ ahead_of kind }
    ensures small { result ≤ 1 }
{
    match kind {
        Kind::Reading | Kind::Conversion | Kind::PowerOn | Kind::Sample => 1,
        Kind::Image(_) | Kind::Transaction(_) | Kind::Unknown => 0,
    }
}

// What stands for an accepted image in a plain session. (One arm for the four alike would cost a conversion of a tray 10 instructions.)
fn accepted(kind: Kind, count: u8, closed: bool, payload: &[u8]) -> bool
    requires { ahead_of kind ≤ length payload.now }
    ensures { result ≡ accepted_for count closed kind payload.now }
{
    match kind {
        Kind::Image(_) => closed || 8 <= count,
        Kind::Reading => payload[0] < count,
        Kind::Conversion => payload[0] < count,
        Kind::PowerOn => payload[0] < count,
        Kind::Sample => payload[0] < count,
        Kind::Transaction(_) => 0 < count,
        Kind::Unknown => false,
    }
}

fn asked(
    kind: u16,
    count: u8,
    closed: bool,
    again: bool,
    last: Tick,
    room: usize,
    payload: &[u8],
) -> Result<Event, Refusal>
    ensures { result ≡ fitted_of room (tray_asked_at count closed again last kind payload.now) }
{
    let decoded = kind_of(kind);
    let from = ahead(decoded);
    if payload.len() < from {
        return Err(Refusal::Size);
    }
    let loaded = accepted(decoded, count, closed, payload);
    record::fitted_by(decoded, again, loaded, last, room, &payload[from..])
}

// The record at the front of the rest, by whether an accepted pack has an image's address, by the tick of the slot's pack, and with so many bytes of
// reply room left.
#[tactic(auto, using(crate::proofs::Fronts::fronts))]
pub fn front(rest: &[u8], count: u8, closed: bool, again: bool, last: Tick, room: usize) -> Record
    ensures { result ≡ front_by (tray_asked_at count closed again last) room rest.now }
{
    if runs::whole(rest) {
        let n = slices::pair(rest, 0) as usize;
        let kind = slices::pair(rest, 2);
        let end = 4 + n;
        let taken = asked(kind, count, closed, again, last, room, &rest[4..end]);
        return runs::read_off(kind, end, taken);
    }
    runs::refused(0, 2, rest.len())
}

// ---- the search

// An address has eight bytes, which is told to a proof.
fn sized(address: [u8; 8])
    ensures { length address ≡ 8 }
{}

// The slot whose pack has the address in the eight bytes: the slots and the bytes are gone over by loops of their own, as document 01 has it.
#[tactic(auto, unfolding(crate::specs::Tray::search_of))]
fn search(commons: [Common; 8], count: u8, address: &[u8]) -> Option<u8>
    requires { (count ≤ 8) × (length address.now ≡ 8) }
    ensures { result ≡ search_of commons count address.now }
{
    let mut found = None;
    'slots: for slot in 0..count {
        let own = commons[usize::from(slot)].address;
        sized(own);
        for j in 0..8 {
            if own[j] != address[j] {
                continue 'slots;
            }
        }
        found = Some(slot);
        break;
    }
    found
}

// Whether an accepted pack has the address in the eight bytes.
pub fn known(commons: [Common; 8], count: u8, address: &[u8]) -> bool
    requires { (count ≤ 8) × (length address.now ≡ 8) }
    ensures { result ≡ is_some (search_of commons count address.now) }
{
    search(commons, count, address).is_some()
}

// The slot whose pack a Match selects.
#[tactic(auto, unfolding(crate::specs::Tray::matched_of))]
fn matched(commons: [Common; 8], count: u8, master: &[u8]) -> Option<u8>
    requires { count ≤ 8 }
    ensures { result ≡ matched_of commons count master.now }
{
    search(commons, count, master.get(1..9)?)
}

// ---- replies on one line

// Another reply on the same line.
#[tactic(auto, using(crate::proofs::Anded::and_end))]
pub fn wire(reply: &[u8], room: &mut [u8])
    requires { length reply.now ≤ length room.old }
    ensures { room.new ≡ and_bytes room.old reply.now }
{
    for i in 0..reply.len() {
        room[i] &= reply[i];
    }
}

// ---- whom a transaction reaches

// The slots of the packs that hear it: the one that a Match finds, else all of them or none.
#[tactic(auto, using(crate::proofs::Laws::matched_at))]
pub fn reached(transaction: Transaction, commons: [Common; 8], count: u8, master: &[u8]) -> Span
    requires { count ≤ 8 }
    ensures value { result ≡ reach_span count (reach_by transaction.rom (matched_of commons count master.now)) }
    ensures inside { (result.first ≤ result.stop) × (result.stop ≤ count) }
{
    match transaction.rom {
        Rom::Match => match matched(commons, count, master) {
            Some(slot) => Span {
                first: slot,
                stop: slot + 1,
            },
            None => Span { first: 0, stop: 0 },
        },
        Rom::Net33 | Rom::Net39 | Rom::Skip => Span {
            first: 0,
            stop: count,
        },
        Rom::Quiet => Span { first: 0, stop: 0 },
    }
}

// Whether these are selected: all but by a net address read.
pub fn selecting(rom: Rom) -> bool
    ensures { result ≡ selecting_of rom }
{
    matches!(rom, Rom::Match | Rom::Skip)
}

// ---- what those do that it reaches

// Whether they change: where they do not, the tray is not handed on, which would copy it.
pub fn changing(transaction: Transaction) -> bool
    ensures { result ≡ changing_of transaction }
{
    selecting(transaction.rom) && gauge::can_change(transaction.command)
}

// Each changes by itself, and no other.
#[tactic(auto, using(crate::proofs::Laws::pack_wf, crate::proofs::Acting::changing_start))]
pub fn changed(mut tray: Tray, transaction: Transaction, master: &[u8]) -> Tray
    requires tray_wf { TrayWf tray }
    requires transaction_value { changing_of transaction ≡ true }
    ensures value { result ≡ tray_acted transaction master.now (tray_reach tray transaction master.now) tray }
    ensures kept { TrayWf result }
{
    let span = reached(transaction, tray.commons, tray.count, master);
    for i in usize::from(span.first)..usize::from(span.stop) {
        let gauge = Gauge {
            common: tray.commons[i],
            label: tray.labels[i],
            meter: tray.meters[i],
        };
        let after = gauge.ran(transaction, master);
        tray.commons[i] = after.common;
        tray.labels[i] = after.label;
        tray.meters[i] = after.meter;
    }
    tray
}

// One of them replies, by its parts: the first in the room itself, each further one by way of a scratch room.
pub fn heard(
    common: Common,
    label: Label,
    meter: Meter,
    transaction: Transaction,
    first: bool,
    scratch: &mut [u8],
    room: &mut [u8],
)
    requires meter_wf { MeterWf meter }
    requires count_in_scratch { transaction.count ≤ length scratch.old }
    requires count_in_room { transaction.count ≤ length room.old }
    ensures room_after { room.new ≡ on_line transaction first (answer_of transaction common label meter) room.old }
    ensures aside { scratch.new ≡ beside_line transaction first (answer_of transaction common label meter) scratch.old }
    ensures bytes { and_bytes (line_high transaction) (answer_of transaction common label meter) ≡ answer_of transaction common label meter }
{
    let chosen = selecting(transaction.rom);
    if first {
        replies::replied(common, label, meter, transaction, chosen, room);
    } else {
        let n = transaction.count as usize;
        replies::replied(common, label, meter, transaction, chosen, scratch);
        wire(&scratch[..n], room);
    }
}

// With no slot before the stop the line stays high.
pub fn unheard(stop: usize, transaction: Transaction, room: &mut [u8])
    requires { transaction.count ≤ length room.old }
    ensures { room.new ≡ unheard_of transaction stop room.old }
{
    if stop == 0 {
        let n = transaction.count as usize;
        replies::fill_ones(&mut room[..n]);
    }
}
