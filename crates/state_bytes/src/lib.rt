// The state as bytes, out and in, of a session and of a tray: `gauge_layout` and those below it, in code. And a record, run in the state that a lent room
// holds as bytes: what it asks is found out from a few of them, and of a gauge only the parts are read and written that such an event can change.
#![tactic(auto)]

ghost use Rattle.std.specs.Prelude.{◌≡◌, IfOk, true, ◌++◌, ◌+◌, ◌*◌, ◌≤◌, ◌<◌, length, get_or, drop};
ghost use Rattle.slices.specs.Slices.{Stored};
ghost use Rattle.state.specs.State.{counts_cycles, MeterWf, image_size_of};
ghost use Rattle.replies.specs.Reply.{replied_of};
ghost use Rattle.gauge.specs.Gauge.{with_parts, conversion_of, sampling_of, reading_of, power_on_of, written_of, copied_of, recalled_of, locked_of};
ghost use Rattle.gauge.specs.Change.{changed_of};
ghost use Rattle.gauge.specs.Act.{ran_of, act_of, reply_of};
ghost use Rattle.gauge.specs.Image.{image_of};
ghost use Rattle.runs.specs.SessionRecord.{SessionWf, of_session};
ghost use Rattle.runs.specs.AnyRecord.{front_by};
ghost use Rattle.tray_record.specs.Tray.{TrayWf, pack_of, stored_of, closed_of, pack_joined, tray_reach, tray_acted, tray_reply, changing_of, named_slot};
ghost use Rattle.tray_record.specs.Tray.{of_tray};
ghost use Rattle.tray_record.specs.Tray.{line_high, on_line};
ghost use Rattle.tray_record.specs.Wire.{and_bytes};
ghost use Rattle.state_bytes.specs.Layout.{flag_byte, flag_in};
ghost use Rattle.state_bytes.specs.State.{profile_in, cells_layout, charge_layout, cycles_layout, flow_layout, shown_layout, trace_layout, average_layout};
ghost use Rattle.state_bytes.specs.State.{tick_layout, results_layout, flags_layout, meter_layout, gauge_layout, label_layout, common_layout, head_bytes};
ghost use Rattle.state_bytes.specs.State.{from_cycles, from_flow, from_charge, session_at, state_bytes};
ghost use Rattle.state_bytes.specs.State.{state_refusal_number, number_in, checked, state_in, uncounted_by, StateOut};
ghost use Rattle.state_bytes.specs.Tested.{octet_at, clear_of, clear_octets, sound_numbers, sound_place, sound_places};
ghost use Rattle.state_bytes.specs.TrayState.{packs_out, tray_at, tray_state_bytes, tray_state_in, TrayStateOut};
ghost use Rattle.state_bytes.specs.Places.{gauge_at, with_common, Placed, Became, TrayBecame, answer_by, known_in};
ghost use Rattle.state_bytes.specs.Steps.{step_of, StateStepped, TrayStateStepped};

use bus::{Command, Transaction};
use gauge::Gauge;
use record::{Change, Event};
use runs::{Record, Session};
use state::{
    Average, Block, Cells, Charge, Common, Cycles, Flags, Flow, Label, Locks, Meter, Model,
    Profile, Reading, Results, Saved, Shown, Since, Tick, Trace,
};
use tray_record::Tray;

// ---- where the parts of a struct stand, from its own first byte on

const BLOCK_AT: usize = 7;

const BLOCK_COPY: usize = 32;

// of the meter
const CHARGE_AT: usize = 71;

const FLOW_AT: usize = 82;

const CYCLES_AT: usize = 103;

const SHOWN_AT: usize = 108;

// of its flow
const SINCE_AT: usize = 6;

const AVERAGE_AT: usize = 9;

const TICK_AT: usize = 18;

// of what it shows
const RESULTS_AT: usize = 6;

const READING_AT: usize = 12;

const FLAGS_AT: usize = 17;

// of the gauge
const LABEL_COPY: usize = 16;

const LABEL_SIZE: usize = 32;

const COMMON_SIZE: usize = 9;

const BL0_AT: usize = 8;

const LAST_TICK_AT: usize = 141;

const GAUGE_SIZE: usize = 170;

// ---- where the parts of a state stand

const STATE_VERSION: u8 = 1;

const STATE_SIZE: usize = 172;

const LOADED_AT: usize = 1;

const GAUGE_AT: usize = 2;

const TRAY_VERSION: u8 = 129;

const TRAY_STATE_SIZE: usize = 1363;

const MAX_PACKS: u8 = 8;

const COUNT_AT: usize = 1;

const CLOSED_AT: usize = 2;

const PACKS_AT: usize = 3;

// ---- in

// Here and below a part is read and written at an index of the whole state, and no page is written: it stands in the middle of a state that stays as it is
// elsewhere, and theorems name its offset, which is said once (`gauge_layout` and those below it, `Placed`, `Became`).

fn flag_at(bytes: &[u8], at: usize) -> bool
    requires { at < length bytes.now }
    ensures { result ≡ flag_in (get_or bytes.now at 0) }
{
    bytes[at] == 1
}

fn profile_at(bytes: &[u8], at: usize) -> Profile
    requires { at < length bytes.now }
    ensures { result ≡ profile_in (flag_in (get_or bytes.now at 0)) }
{
    if flag_at(bytes, at) {
        return Profile::Ds2775;
    }
    Profile::Ds2781
}

fn cells_at(bytes: &[u8], at: usize) -> Cells
    requires { at + 71 ≤ length bytes.now }
    ensures { result ≡ cells_layout.at bytes.now at }
{
    let acr = slices::pair(bytes, at);
    let profile = profile_at(bytes, at + 4);
    let lock = flag_at(bytes, at + 5);
    let bl1 = flag_at(bytes, at + 6);
    let shadow = slices::array_at(bytes, at + BLOCK_AT);
    let eeprom = slices::array_at(bytes, at + BLOCK_AT + BLOCK_COPY);
    Cells {
        saved: Saved {
            acr,
            aging: bytes[at + 2],
            cycles: bytes[at + 3],
        },
        profile,
        locks: Locks { lock, bl1 },
        block: Block { shadow, eeprom },
    }
}

fn charge_at(bytes: &[u8], at: usize) -> Charge
    requires { at + 11 ≤ length bytes.now }
    ensures { result ≡ charge_layout.at bytes.now at }
{
    Charge {
        aging: bytes[at],
        count: slices::quad(bytes, at + 1),
        learnf: flag_at(bytes, at + 5),
        mark: flag_at(bytes, at + 6),
        age: slices::quad(bytes, at + 7),
    }
}

fn trace_at(bytes: &[u8], at: usize) -> Trace
    requires { at + 6 ≤ length bytes.now }
    ensures { result ≡ trace_layout.at bytes.now at }
{
    Trace {
        two: flag_at(bytes, at),
        before: slices::pair(bytes, at + 1),
        last: slices::pair(bytes, at + 3),
        any: flag_at(bytes, at + 5),
    }
}

fn average_at(bytes: &[u8], at: usize) -> Average
    requires { at + 9 ≤ length bytes.now }
    ensures { result ≡ average_layout.at bytes.now at }
{
    Average {
        sum: slices::quad(bytes, at),
        made: slices::pair(bytes, at + 4),
        known: flag_at(bytes, at + 6),
        iavg: slices::pair(bytes, at + 7),
    }
}

fn tick_at(bytes: &[u8], at: usize) -> Tick
    requires { at + 3 ≤ length bytes.now }
    ensures { result ≡ tick_layout.at bytes.now at }
{
    Tick {
        any: flag_at(bytes, at),
        last: slices::pair(bytes, at + 1),
    }
}

fn flow_at(bytes: &[u8], at: usize) -> Flow
    requires { at + 21 ≤ length bytes.now }
    ensures { result ≡ flow_layout.at bytes.now at }
{
    Flow {
        trace: trace_at(bytes, at),
        since: Since {
            any: flag_at(bytes, at + SINCE_AT),
            lowest: slices::pair(bytes, at + SINCE_AT + 1),
        },
        average: average_at(bytes, at + AVERAGE_AT),
        tick: tick_at(bytes, at + TICK_AT),
    }
}

fn results_at(bytes: &[u8], at: usize) -> Results
    requires { at + 6 ≤ length bytes.now }
    ensures { result ≡ results_layout.at bytes.now at }
{
    Results {
        rarc: bytes[at],
        rsrc: bytes[at + 1],
        raac: slices::pair(bytes, at + 2),
        rsac: slices::pair(bytes, at + 4),
    }
}

fn flags_at(bytes: &[u8], at: usize) -> Flags
    requires { at + 4 ≤ length bytes.now }
    ensures { result ≡ flags_layout.at bytes.now at }
{
    Flags {
        aef: flag_at(bytes, at),
        chgtf: flag_at(bytes, at + 1),
        sef: flag_at(bytes, at + 2),
        porf: flag_at(bytes, at + 3),
    }
}

fn shown_at(bytes: &[u8], at: usize) -> Shown
    requires { at + 21 ≤ length bytes.now }
    ensures { result ≡ shown_layout.at bytes.now at }
{
    Shown {
        model: Model {
            full: slices::pair(bytes, at),
            ae: slices::pair(bytes, at + 2),
            se: slices::pair(bytes, at + 4),
        },
        results: results_at(bytes, at + RESULTS_AT),
        reading: Reading {
            volt: slices::pair(bytes, at + READING_AT),
            temp: slices::pair(bytes, at + READING_AT + 2),
            known: flag_at(bytes, at + READING_AT + 4),
        },
        flags: flags_at(bytes, at + FLAGS_AT),
    }
}

fn meter_at(bytes: &[u8], at: usize) -> Meter
    requires { at + 129 ≤ length bytes.now }
    ensures { result ≡ meter_layout.at bytes.now at }
{
    let cells = cells_at(bytes, at);
    let charge = charge_at(bytes, at + CHARGE_AT);
    let flow = flow_at(bytes, at + FLOW_AT);
    let shown = shown_at(bytes, at + SHOWN_AT);
    Meter {
        cells,
        charge,
        flow,
        cycles: Cycles {
            count: bytes[at + CYCLES_AT],
            rest: slices::quad(bytes, at + CYCLES_AT + 1),
        },
        shown,
    }
}

fn label_at(bytes: &[u8], at: usize) -> Label
    requires { at + 32 ≤ length bytes.now }
    ensures { result ≡ label_layout.at bytes.now at }
{
    let shadow = slices::array_at(bytes, at);
    let eeprom = slices::array_at(bytes, at + LABEL_COPY);
    Label { shadow, eeprom }
}

fn common_at(bytes: &[u8], at: usize) -> Common
    requires { at + 9 ≤ length bytes.now }
    ensures { result ≡ common_layout.at bytes.now at }
{
    let address = slices::array_at(bytes, at);
    let bl0 = flag_at(bytes, at + BL0_AT);
    Common { address, bl0 }
}

// The gauge that stands from an index on.
fn gauge_at(bytes: &[u8], at: usize) -> Gauge
    requires { at + 170 ≤ length bytes.now }
    ensures { result ≡ gauge_layout.at bytes.now at }
{
    let label = label_at(bytes, at);
    let common = common_at(bytes, at + LABEL_SIZE);
    let meter = meter_at(bytes, at + LABEL_SIZE + COMMON_SIZE);
    Gauge {
        label,
        common,
        meter,
    }
}

// The session of as many bytes as a state has.
fn session_at(bytes: &[u8]) -> Session
    requires { length bytes.now ≡ 172 }
    ensures { result ≡ session_at bytes.now }
{
    Session {
        loaded: flag_at(bytes, LOADED_AT),
        gauge: gauge_at(bytes, GAUGE_AT),
    }
}

// ---- out

fn flag(b: bool) -> u8
    ensures { result ≡ flag_byte b }
{
    u8::from(b)
}

fn profile_flag(profile: Profile) -> u8
    ensures { result ≡ flag_byte (counts_cycles profile) }
{
    flag(state::counts_cycles(profile))
}

fn label_out(label: Label, room: &mut [u8], at: usize)
    requires { at + 32 ≤ length room.old }
    ensures { Stored 32 (label_layout.out label) room.old at room.new }
{
    slices::store_array(label.shadow, room, at);
    slices::store_array(label.eeprom, room, at + LABEL_COPY);
}

fn common_out(common: Common, room: &mut [u8], at: usize)
    requires { at + 9 ≤ length room.old }
    ensures { Stored 9 (common_layout.out common) room.old at room.new }
{
    let bl0 = [flag(common.bl0)];
    slices::store_array(common.address, room, at);
    slices::store_array(bl0, room, at + BL0_AT);
}

// The saved cells, the profile and the locks.
fn cells_head(saved: Saved, profile: Profile, locks: Locks) -> [u8; 7]
    ensures { result ≡ head_bytes saved profile locks }
{
    let [acr0, acr1] = saved.acr.to_le_bytes();
    [
        acr0,
        acr1,
        saved.aging,
        saved.cycles,
        profile_flag(profile),
        flag(locks.lock),
        flag(locks.bl1),
    ]
}

fn cells_out(cells: Cells, room: &mut [u8], at: usize)
    requires { at + 71 ≤ length room.old }
    ensures { Stored 71 (cells_layout.out cells) room.old at room.new }
{
    let head = cells_head(cells.saved, cells.profile, cells.locks);
    slices::store_array(head, room, at);
    slices::store_array(cells.block.shadow, room, at + BLOCK_AT);
    slices::store_array(cells.block.eeprom, room, at + BLOCK_AT + BLOCK_COPY);
}

fn charge_bytes(charge: Charge) -> [u8; 11]
    ensures { result ≡ charge_layout.out charge }
{
    let [count0, count1, count2, count3] = charge.count.to_le_bytes();
    let [age0, age1, age2, age3] = charge.age.to_le_bytes();
    [
        charge.aging,
        count0,
        count1,
        count2,
        count3,
        flag(charge.learnf),
        flag(charge.mark),
        age0,
        age1,
        age2,
        age3,
    ]
}

fn cycles_bytes(cycles: Cycles) -> [u8; 5]
    ensures { result ≡ cycles_layout.out cycles }
{
    let [rest0, rest1, rest2, rest3] = cycles.rest.to_le_bytes();
    [cycles.count, rest0, rest1, rest2, rest3]
}

fn flow_bytes(flow: Flow) -> [u8; 21]
    ensures { result ≡ flow_layout.out flow }
{
    let [before0, before1] = flow.trace.before.to_le_bytes();
    let [last0, last1] = flow.trace.last.to_le_bytes();
    let [lowest0, lowest1] = flow.since.lowest.to_le_bytes();
    let [sum0, sum1, sum2, sum3] = flow.average.sum.to_le_bytes();
    let [made0, made1] = flow.average.made.to_le_bytes();
    let [iavg0, iavg1] = flow.average.iavg.to_le_bytes();
    let [tick0, tick1] = flow.tick.last.to_le_bytes();
    [
        flag(flow.trace.two),
        before0,
        before1,
        last0,
        last1,
        flag(flow.trace.any),
        flag(flow.since.any),
        lowest0,
        lowest1,
        sum0,
        sum1,
        sum2,
        sum3,
        made0,
        made1,
        flag(flow.average.known),
        iavg0,
        iavg1,
        flag(flow.tick.any),
        tick0,
        tick1,
    ]
}

fn shown_bytes(shown: Shown) -> [u8; 21]
    ensures { result ≡ shown_layout.out shown }
{
    let [full0, full1] = shown.model.full.to_le_bytes();
    let [ae0, ae1] = shown.model.ae.to_le_bytes();
    let [se0, se1] = shown.model.se.to_le_bytes();
    let [raac0, raac1] = shown.results.raac.to_le_bytes();
    let [rsac0, rsac1] = shown.results.rsac.to_le_bytes();
    let [volt0, volt1] = shown.reading.volt.to_le_bytes();
    let [temp0, temp1] = shown.reading.temp.to_le_bytes();
    [
        full0,
        full1,
        ae0,
        ae1,
        se0,
        se1,
        shown.results.rarc,
        shown.results.rsrc,
        raac0,
        raac1,
        rsac0,
        rsac1,
        volt0,
        volt1,
        temp0,
        temp1,
        flag(shown.reading.known),
        flag(shown.flags.aef),
        flag(shown.flags.chgtf),
        flag(shown.flags.sef),
        flag(shown.flags.porf),
    ]
}

// The meter from its cycle counter on.
fn cycles_on(meter: Meter, room: &mut [u8], at: usize)
    requires { at + 26 ≤ length room.old }
    ensures { Stored 26 (from_cycles meter) room.old at room.new }
{
    slices::store_array(cycles_bytes(meter.cycles), room, at);
    slices::store_array(shown_bytes(meter.shown), room, at + 5);
}

// The meter from its flow on.
fn flow_on(meter: Meter, room: &mut [u8], at: usize)
    requires { at + 47 ≤ length room.old }
    ensures { Stored 47 (from_flow meter) room.old at room.new }
{
    slices::store_array(flow_bytes(meter.flow), room, at);
    cycles_on(meter, room, at + 21);
}

// The meter from its charge on.
fn charge_on(meter: Meter, room: &mut [u8], at: usize)
    requires { at + 58 ≤ length room.old }
    ensures { Stored 58 (from_charge meter) room.old at room.new }
{
    slices::store_array(charge_bytes(meter.charge), room, at);
    flow_on(meter, room, at + 11);
}

fn meter_out(meter: Meter, room: &mut [u8], at: usize)
    requires { at + 129 ≤ length room.old }
    ensures { Stored 129 (meter_layout.out meter) room.old at room.new }
{
    cells_out(meter.cells, room, at);
    charge_on(meter, room, at + CHARGE_AT);
}

// Writes a gauge from an index on.
fn gauge_out(gauge: Gauge, room: &mut [u8], at: usize)
    requires { at + 170 ≤ length room.old }
    ensures { Stored 170 (gauge_layout.out gauge) room.old at room.new }
{
    label_out(gauge.label, room, at);
    common_out(gauge.common, room, at + LABEL_SIZE);
    meter_out(gauge.meter, room, at + LABEL_SIZE + COMMON_SIZE);
}

fn put_state(session: Session, room: &mut [u8])
    requires { 172 ≤ length room.old }
    ensures { Stored 172 (state_bytes session) room.old 0 room.new }
{
    slices::store_array([STATE_VERSION, flag(session.loaded)], room, 0);
    gauge_out(session.gauge, room, GAUGE_AT);
}

// The state of a session goes to the first bytes of the room; nothing is written where they do not fit.
pub fn state_out(session: Session, room: &mut [u8]) -> Result<(), StateRefusal>
    ensures { StateOut session room.old result room.new }
{
    if room.len() < STATE_SIZE {
        return Err(StateRefusal::Size);
    }
    put_state(session, room);
    Ok(())
}

// ---- which bytes are a state

fn uncounted(profile: Profile, cycles: Cycles, saved: u8) -> bool
    ensures { result ≡ uncounted_by profile cycles saved }
{
    if state::counts_cycles(profile) {
        return true;
    }
    cycles.count == 0 && cycles.rest == 0 && saved == 0
}

// Eight bytes as one number, the low byte first.
fn octet(bytes: &[u8], at: usize) -> u64
    requires { at + 8 ≤ length bytes.now }
    ensures { result ≡ octet_at bytes.now at }
{
    slices::quad(bytes, at) as u64 + 4294967296 * (slices::quad(bytes, at + 4) as u64)
}

fn clear(word: u64, mask: u64) -> bool
    ensures { result ≡ clear_of word mask }
{
    word & mask == 0
}

// Of the gauge that stands from an index on, the bytes that have to be below a power of two: eight at once, by the bits that are then 0. BL0, the profile,
// LOCK and BL1; the count, LEARNF and the mark; the flags of the currents and of the lowest voltage; how many conversions were made, the flags of the
// average and of the tick; the voltage, the temperature and the flags that are shown.
fn clear_octets(bytes: &[u8], at: usize) -> bool
    requires { at + 170 ≤ length bytes.now }
    ensures { result ≡ clear_octets bytes.now at }
{
    if !clear(octet(bytes, at + 40), 0xFEFE_FE00_0000_00FE) {
        return false;
    }
    if !clear(octet(bytes, at + 112), 0x00FE_FEF0_0000_0000) {
        return false;
    }
    if !clear(octet(bytes, at + 123), 0x00FE_FE00_0000_00FE) {
        return false;
    }
    if !clear(octet(bytes, at + 134), 0xFE00_00FE_FC00_0000) {
        return false;
    }
    clear(octet(bytes, at + 162), 0xFEFE_FEFE_FEF8_00FC)
}

// And its numbers that have another bound: FULL, the age counter, AS, the sum of the currents; and that a profile without a cycle counter counts none.
fn sound_numbers(bytes: &[u8], at: usize) -> bool
    requires { at + 170 ≤ length bytes.now }
    ensures { result ≡ sound_numbers bytes.now at }
{
    if 16384 < slices::pair(bytes, at + 149) {
        return false;
    }
    if 2097120 <= slices::quad(bytes, at + 119) {
        return false;
    }
    if bytes[at + 112] < 63 {
        return false;
    }
    if 128 < bytes[at + 112] {
        return false;
    }
    let run = (bytes[at + 136] % 8) as u32;
    if 65535 * run < slices::quad(bytes, at + 132) {
        return false;
    }
    let profile = profile_at(bytes, at + 45);
    let cycles = Cycles {
        count: bytes[at + 144],
        rest: slices::quad(bytes, at + 145),
    };
    uncounted(profile, cycles, bytes[at + 44])
}

// Whether the gauge that stands from an index on is well-formed, and each of its flags 0 or 1.
fn sound_gauge(bytes: &[u8], at: usize) -> bool
    requires { at + 170 ≤ length bytes.now }
    ensures { result ≡ sound_place bytes.now at }
{
    if clear_octets(bytes, at) {
        return sound_numbers(bytes, at);
    }
    false
}

// Whether each of so many gauges, which stand one behind the other, is well-formed and each of its flags 0 or 1.
fn sound_places(bytes: &[u8], from: usize, n: usize) -> bool
    requires { (n ≤ 8) × (from + n * 170 ≤ length bytes.now) }
    ensures { result ≡ sound_places bytes.now from 0 n }
{
    for i in 0..n {
        if !sound_gauge(bytes, from + i * GAUGE_SIZE) {
            return false;
        }
    }
    true
}

// Why bytes are no state; and `Size`, why a state does not go into a room.
#[derive(Clone, Copy)]
pub enum StateRefusal {
    Size,
    Version,
    Unsound,
}

impl From<StateRefusal> for u8 {
    fn from(refusal: StateRefusal) -> u8
        ensures { result ≡ state_refusal_number refusal }
    {
        match refusal {
            StateRefusal::Size => 50,
            StateRefusal::Version => 51,
            StateRefusal::Unsound => 52,
        }
    }
}

// Whether the bytes are a state. A value is written as the bytes that it was read from where each flag among them is 0 or 1.
fn check_state(bytes: &[u8]) -> Result<(), StateRefusal>
    ensures { result ≡ checked (state_in bytes.now) }
{
    if bytes.len() != STATE_SIZE {
        return Err(StateRefusal::Size);
    }
    if bytes[0] != STATE_VERSION {
        return Err(StateRefusal::Version);
    }
    if bytes[LOADED_AT] < 2 && sound_places(bytes, GAUGE_AT, 1) {
        return Ok(());
    }
    Err(StateRefusal::Unsound)
}

// The state that the bytes are.
pub fn state_in(bytes: &[u8]) -> Result<Session, StateRefusal>
    ensures value { result ≡ state_in bytes.now }
    ensures kept { IfOk result SessionWf }
{
    check_state(bytes)?;
    Ok(session_at(bytes))
}

// ---- the state of a tray

// A tray's functions are no instances of a session's: what is put, read, tested and run differs in each, and one for both would be handed these steps and
// keep the order of two or three of them.

// Every tray has eight places, which is told to a proof.
fn eight_places(commons: [Common; 8], labels: [Label; 8], meters: [Meter; 8])
    ensures { (length commons ≡ 8) × (length labels ≡ 8) × (length meters ≡ 8) }
{}

// The tray of as many bytes as a tray's state has: the gauge of each place is stored there.
fn tray_at(bytes: &[u8]) -> Tray
    requires { length bytes.now ≡ 1363 }
    ensures { result ≡ tray_at bytes.now }
{
    let mut tray = tray_record::empty();
    tray.count = bytes[COUNT_AT];
    tray.closed = flag_at(bytes, CLOSED_AT);
    for i in 0..8 {
        let gauge = gauge_at(bytes, PACKS_AT + i * GAUGE_SIZE);
        tray.commons[i] = gauge.common;
        tray.labels[i] = gauge.label;
        tray.meters[i] = gauge.meter;
    }
    tray
}

// Writes the gauges of the eight places, one behind the other.
fn places_out(tray: Tray, room: &mut [u8])
    requires { 1363 ≤ length room.old }
    ensures { Stored 1360 (packs_out tray) room.old 3 room.new }
{
    let commons = tray.commons;
    let labels = tray.labels;
    let meters = tray.meters;
    eight_places(commons, labels, meters);
    for i in 0..8 {
        let gauge = Gauge {
            label: labels[i],
            common: commons[i],
            meter: meters[i],
        };
        gauge_out(gauge, room, PACKS_AT + i * GAUGE_SIZE);
    }
}

fn put_tray_state(tray: Tray, room: &mut [u8])
    requires { 1363 ≤ length room.old }
    ensures { Stored 1363 (tray_state_bytes tray) room.old 0 room.new }
{
    slices::store_array([TRAY_VERSION, tray.count, flag(tray.closed)], room, 0);
    places_out(tray, room);
}

// The state of a tray goes to the first bytes of the room; nothing is written where they do not fit.
pub fn tray_state_out(tray: Tray, room: &mut [u8]) -> Result<(), StateRefusal>
    ensures { TrayStateOut tray room.old result room.new }
{
    if room.len() < TRAY_STATE_SIZE {
        return Err(StateRefusal::Size);
    }
    put_tray_state(tray, room);
    Ok(())
}

// Whether the bytes are a tray.
fn check_tray_state(bytes: &[u8]) -> Result<(), StateRefusal>
    ensures { result ≡ checked (tray_state_in bytes.now) }
{
    if bytes.len() != TRAY_STATE_SIZE {
        return Err(StateRefusal::Size);
    }
    if bytes[0] != TRAY_VERSION {
        return Err(StateRefusal::Version);
    }
    if bytes[COUNT_AT] <= MAX_PACKS && bytes[CLOSED_AT] < 2 && sound_places(bytes, PACKS_AT, 8) {
        return Ok(());
    }
    Err(StateRefusal::Unsound)
}

// The tray that the bytes are.
pub fn tray_state_in(bytes: &[u8]) -> Result<Tray, StateRefusal>
    ensures value { result ≡ tray_state_in bytes.now }
    ensures kept { IfOk result TrayWf }
{
    check_tray_state(bytes)?;
    Ok(tray_at(bytes))
}

// ---- an event of the gauge that stands from an index on

// A reading of a signed 32-bit voltage and temperature, which come as z + 2^31.
fn read_at(state: &mut [u8], at: usize, volt: u32, temp: u32)
    requires { Placed state.old at }
    ensures { Became state.old at (reading_of (gauge_at state.old at) volt temp) state.new }
{
    let meter = meter_at(state, at + LABEL_SIZE + COMMON_SIZE);
    let next = reading::read(meter, volt, temp);
    meter_out(next, state, at + LABEL_SIZE + COMMON_SIZE);
}

// A conversion of a signed 32-bit raw current, which comes as z + 2^31.
fn converted_at(state: &mut [u8], at: usize, raw: u32)
    requires { Placed state.old at }
    ensures { Became state.old at (conversion_of (gauge_at state.old at) raw) state.new }
{
    let meter = meter_at(state, at + LABEL_SIZE + COMMON_SIZE);
    let next = conversion::convert(meter, raw);
    meter_out(next, state, at + LABEL_SIZE + COMMON_SIZE);
}

// A sample of such a raw current, with its tick.
fn sampled_at(state: &mut [u8], at: usize, raw: u32, tick: u16)
    requires { Placed state.old at }
    ensures { Became state.old at (sampling_of (gauge_at state.old at) raw tick) state.new }
{
    let meter = meter_at(state, at + LABEL_SIZE + COMMON_SIZE);
    let next = samples::sample(meter, raw, tick);
    meter_out(next, state, at + LABEL_SIZE + COMMON_SIZE);
}

// Another label and meter are written.
fn parts_out(label: Label, meter: Meter, state: &mut [u8], at: usize)
    requires { Placed state.old at × MeterWf meter }
    ensures { Became state.old at (with_parts (gauge_at state.old at) label meter) state.new }
{
    label_out(label, state, at);
    meter_out(meter, state, at + LABEL_SIZE + COMMON_SIZE);
}

fn powered_at(state: &mut [u8], at: usize)
    requires { Placed state.old at }
    ensures { Became state.old at (power_on_of (gauge_at state.old at)) state.new }
{
    let old_label = label_at(state, at);
    let old_meter = meter_at(state, at + LABEL_SIZE + COMMON_SIZE);
    let label = label::powered(old_label);
    let meter = old_meter.restarted();
    parts_out(label, meter, state, at);
}

// Each reads and writes by itself: a meter that is read ahead of the match costs a conversion 98 instructions more (docs/SPEED.md).
fn changed_at(state: &mut [u8], at: usize, change: Change)
    requires { Placed state.old at }
    ensures { Became state.old at (changed_of (gauge_at state.old at) change) state.new }
{
    match change {
        Change::Reading(volt, temp) => read_at(state, at, volt, temp),
        Change::Conversion(raw) => converted_at(state, at, raw),
        Change::Sample(raw, tick) => sampled_at(state, at, raw, tick),
        Change::PowerOn => powered_at(state, at),
    }
}

// 6Ch: bytes written from the address a upward.
fn written_at(state: &mut [u8], at: usize, a: usize, bytes: &[u8])
    requires placed { Placed state.old at }
    requires a_bound { a < 256 }
    ensures { Became state.old at (written_of (gauge_at state.old at) a bytes.now) state.new }
{
    let bl0 = flag_at(state, at + LABEL_SIZE + BL0_AT);
    let old_label = label_at(state, at);
    let old_meter = meter_at(state, at + LABEL_SIZE + COMMON_SIZE);
    let label = label::written(old_label, bl0, a, bytes);
    let meter = block1::meter_written(old_meter, a, bytes);
    parts_out(label, meter, state, at);
}

// 48h at the address a.
fn copied_at(state: &mut [u8], at: usize, a: usize)
    requires { Placed state.old at }
    ensures { Became state.old at (copied_of (gauge_at state.old at) a) state.new }
{
    let bl0 = flag_at(state, at + LABEL_SIZE + BL0_AT);
    let old_label = label_at(state, at);
    let old_meter = meter_at(state, at + LABEL_SIZE + COMMON_SIZE);
    let label = label::copied(old_label, bl0, a);
    let meter = block1::meter_copied(old_meter, a);
    parts_out(label, meter, state, at);
}

// B8h at the address a.
fn recalled_at(state: &mut [u8], at: usize, a: usize)
    requires { Placed state.old at }
    ensures { Became state.old at (recalled_of (gauge_at state.old at) a) state.new }
{
    let old_label = label_at(state, at);
    let old_meter = meter_at(state, at + LABEL_SIZE + COMMON_SIZE);
    let label = label::recalled(old_label, a);
    let meter = block1::meter_recalled(old_meter, a);
    parts_out(label, meter, state, at);
}

// Another common part and meter are written.
fn locks_out(common: Common, meter: Meter, state: &mut [u8], at: usize)
    requires { Placed state.old at × MeterWf meter }
    ensures { Became state.old at (with_common (gauge_at state.old at) common meter) state.new }
{
    common_out(common, state, at + LABEL_SIZE);
    meter_out(meter, state, at + LABEL_SIZE + COMMON_SIZE);
}

// 6Ah at the address a.
fn locked_at(state: &mut [u8], at: usize, a: usize)
    requires { Placed state.old at }
    ensures { Became state.old at (locked_of (gauge_at state.old at) a) state.new }
{
    let old_common = common_at(state, at + LABEL_SIZE);
    let old_meter = meter_at(state, at + LABEL_SIZE + COMMON_SIZE);
    let common = label::locked(old_common, old_meter.cells.locks.lock, a);
    let meter = block1::meter_locked(old_meter, a);
    locks_out(common, meter, state, at);
}

// The function command of a transaction, of a gauge that is selected.
fn ran_at(state: &mut [u8], at: usize, transaction: Transaction, master: &[u8])
    requires { Placed state.old at }
    ensures { Became state.old at (ran_of (gauge_at state.old at) transaction master.now) state.new }
{
    let a = usize::from(transaction.address);
    let command = transaction.command;
    match command {
        Command::Read => {}
        Command::Write => {
            let from = usize::from(transaction.from).min(master.len());
            written_at(state, at, a, &master[from..]);
        }
        Command::Copy => copied_at(state, at, a),
        Command::Recall => recalled_at(state, at, a),
        Command::Lock => locked_at(state, at, a),
        Command::Nothing => {}
    }
}

// The reply of the gauge, chosen or not, goes to the front of the room. (Its parts are read here, so that the compiler reads only what a reply needs.)
fn replied_at(state: &[u8], at: usize, transaction: Transaction, chosen: bool, room: &mut [u8])
    requires placed { Placed state.now at }
    requires count_in_bounds { transaction.count ≤ length room.old }
    ensures { room.new ≡ (let gauge = gauge_at state.now at in
        replied_of chosen gauge.common gauge.label gauge.meter transaction ++ drop transaction.count room.old) }
{
    let common = common_at(state, at + LABEL_SIZE);
    let label = label_at(state, at);
    let meter = meter_at(state, at + LABEL_SIZE + COMMON_SIZE);
    replies::replied(common, label, meter, transaction, chosen, room);
}

// ---- a step of a session

// What a step says of a record that was run: its answer and how many bytes it replied.
#[derive(Clone, Copy)]
pub struct Step {
    pub answer: u8,
    pub replied: usize,
}

fn stepped(answer: u8, replied: u16) -> Result<Step, StateRefusal>
    ensures { result ≡ step_of answer replied }
{
    Ok(Step {
        answer,
        replied: replied as usize,
    })
}

// What the record at the front asks of the state that the bytes are, with so many bytes of reply room.
fn asked_in(state: &[u8], bytes: &[u8], room: usize) -> Record
    requires { length state.now ≡ 172 }
    ensures { result ≡ front_by (of_session.told (session_at state.now)) room bytes.now }
{
    let loaded = state[LOADED_AT] == 1;
    let tick = tick_at(state, GAUGE_AT + LAST_TICK_AT);
    runs::front(bytes, loaded, tick, room)
}

// A transaction: the gauge is written where it is selected and its command can change it.
fn transacted_in(state: &mut [u8], transaction: Transaction, master: &[u8], room: &mut [u8])
    requires placed { Placed state.old 2 }
    requires count_in_bounds { transaction.count ≤ length room.old }
    ensures became { Became state.old 2 (act_of (gauge_at state.old 2) transaction master.now) state.new }
    ensures replied { room.new
        ≡ reply_of (gauge_at state.old 2) transaction master.now ++ drop transaction.count room.old }
{
    let address = slices::array_at(state, GAUGE_AT + LABEL_SIZE);
    let chosen = replies::selected(address, transaction, master);
    replied_at(state, GAUGE_AT, transaction, chosen, room);
    let command = transaction.command;
    if chosen && gauge::can_change(command) {
        ran_at(state, GAUGE_AT, transaction, master);
    }
}

// The record at the front of some bytes, run in the session that `state` holds. Bytes that are no state stay, and nothing is run. A record that can change
// nothing does not write the state.
pub fn state_step(state: &mut [u8], bytes: &[u8], room: &mut [u8]) -> Result<Step, StateRefusal>
    ensures { StateStepped state.old bytes.now room.old result state.new room.new }
{
    check_state(state)?;
    let first = asked_in(state, bytes, room.len());
    let end = first.used;
    let answer = first.answer;
    let asked = first.event;
    match asked {
        None => stepped(answer, 0),
        Some(event) => match event {
            Event::Image(profile) => {
                let gauge = gauge::image_in(profile, &bytes[4..end]);
                let session = Session {
                    loaded: true,
                    gauge: gauge,
                };
                put_state(session, state);
                stepped(answer, 0)
            }
            Event::Change(change) => {
                changed_at(state, GAUGE_AT, change);
                stepped(answer, 0)
            }
            Event::Transact(transaction) => {
                let from = 4 + transaction.start as usize;
                transacted_in(state, transaction, &bytes[from..end], room);
                stepped(answer, transaction.count)
            }
        },
    }
}

// ---- a step of a tray

// The common parts of the eight places.
fn commons_in(state: &[u8]) -> [Common; 8]
    requires { length state.now ≡ 1363 }
    ensures { result ≡ (tray_at state.now).commons }
{
    let first = common_at(state, PACKS_AT + LABEL_SIZE);
    let mut commons = [first; 8];
    for i in 1..8 {
        commons[i] = common_at(state, PACKS_AT + LABEL_SIZE + i * GAUGE_SIZE);
    }
    commons
}

// Whether an accepted pack has the address of the image at the front; false where there is no image.
fn again_in(state: &[u8], bytes: &[u8]) -> bool
    requires { number_in (tray_state_in state.now) ≡ 0 }
    ensures { result ≡ known_in (tray_at state.now) bytes.now }
{
    if tray_record::image_at(bytes) {
        let commons = commons_in(state);
        return tray_record::known(commons, state[COUNT_AT], &bytes[4..12]);
    }
    false
}

// What the record at the front, which names this slot, asks of the tray that the bytes are.
fn tray_asked_in(state: &[u8], slot: usize, bytes: &[u8], room: usize) -> Record
    requires state_value { number_in (tray_state_in state.now) ≡ 0 }
    requires slot_value { (slot ≡ named_slot bytes.now) × (slot < 8) }
    ensures { result ≡ front_by (of_tray.told (tray_at state.now)) room bytes.now }
{
    let again = again_in(state, bytes);
    let last = tick_at(state, PACKS_AT + slot * GAUGE_SIZE + LAST_TICK_AT);
    let closed = state[CLOSED_AT] == 1;
    tray_record::front(bytes, state[COUNT_AT], closed, again, last, room)
}

// The pack of an image joins the tray.
fn joined_in(state: &mut [u8], profile: Profile, image: &[u8])
    requires state_value { number_in (tray_state_in state.old) ≡ 0 }
    requires state_bound { ((tray_at state.old).count < 8) × (length image.now ≡ image_size_of profile) }
    ensures { TrayBecame (pack_joined (tray_at state.old) (image_of profile image.now)) state.new }
{
    let n = usize::from(state[COUNT_AT]);
    let gauge = gauge::image_in(profile, image);
    gauge_out(gauge, state, PACKS_AT + n * GAUGE_SIZE);
    state[COUNT_AT] += 1;
}

// An event of a slot, which closes the opening.
fn slot_changed_in(state: &mut [u8], slot: usize, change: Change)
    requires state_value { number_in (tray_state_in state.old) ≡ 0 }
    requires slot_bound { slot < 8 }
    ensures { let tray = tray_at state.old in
        TrayBecame (closed_of (stored_of tray slot (changed_of (pack_of tray slot) change))) state.new }
{
    changed_at(state, PACKS_AT + slot * GAUGE_SIZE, change);
    state[CLOSED_AT] = 1;
}

// The packs that a transaction reaches change one after the other.
fn packs_changed_in(state: &mut [u8], transaction: Transaction, master: &[u8])
    requires state_value { number_in (tray_state_in state.old) ≡ 0 }
    requires transaction_value { changing_of transaction ≡ true }
    ensures { let tray = tray_at state.old in
        TrayBecame (tray_acted transaction master.now (tray_reach tray transaction master.now) tray) state.new }
{
    let commons = commons_in(state);
    let span = tray_record::reached(transaction, commons, state[COUNT_AT], master);
    for i in usize::from(span.first)..usize::from(span.stop) {
        ran_at(state, PACKS_AT + i * GAUGE_SIZE, transaction, master);
    }
}

// One of the packs that a transaction reaches replies: the first in the room itself, each further one by way of a scratch room.
fn heard_at(
    state: &[u8],
    at: usize,
    transaction: Transaction,
    first: bool,
    scratch: &mut [u8],
    room: &mut [u8],
)
    requires placed { Placed state.now at }
    requires count_in_scratch { transaction.count ≤ length scratch.old }
    requires count_in_room { transaction.count ≤ length room.old }
    ensures room_after { room.new ≡ on_line transaction first (answer_by transaction (gauge_at state.now at)) room.old }
    ensures bytes { and_bytes (line_high transaction) (answer_by transaction (gauge_at state.now at))
        ≡ answer_by transaction (gauge_at state.now at) }
{
    let rom = transaction.rom;
    let chosen = tray_record::selecting(rom);
    if first {
        replied_at(state, at, transaction, chosen, room);
    } else {
        let n = transaction.count as usize;
        replied_at(state, at, transaction, chosen, scratch);
        tray_record::wire(&scratch[..n], room);
    }
}

// The packs that a transaction reaches reply on one line, and none changes.
fn packs_heard_in(state: &[u8], transaction: Transaction, master: &[u8], room: &mut [u8])
    requires state_value { number_in (tray_state_in state.now) ≡ 0 }
    requires count_bound { transaction.count ≤ 256 }
    requires count_in_bounds { transaction.count ≤ length room.old }
    ensures { room.new ≡ (let tray = tray_at state.now in
        tray_reply transaction master.now (tray_reach tray transaction master.now) tray
        ++ drop transaction.count room.old) }
{
    let mut scratch = [0u8; 256];
    let commons = commons_in(state);
    let span = tray_record::reached(transaction, commons, state[COUNT_AT], master);
    let first = usize::from(span.first);
    let stop = usize::from(span.stop);
    for i in first..stop {
        heard_at(
            state,
            PACKS_AT + i * GAUGE_SIZE,
            transaction,
            i == first,
            &mut scratch,
            room,
        );
    }
    tray_record::unheard(stop, transaction, room);
}

// A transaction: the packs that it reaches change, and every byte of the reply is FFh, or they reply. It closes the opening.
fn tray_transacted_in(state: &mut [u8], transaction: Transaction, master: &[u8], room: &mut [u8])
    requires state_value { number_in (tray_state_in state.old) ≡ 0 }
    requires count_bound { transaction.count ≤ 256 }
    requires count_in_bounds { transaction.count ≤ length room.old }
    ensures became { let tray = tray_at state.old in
        TrayBecame (closed_of (tray_acted transaction master.now (tray_reach tray transaction master.now) tray)) state.new }
    ensures replied { room.new ≡ (let tray = tray_at state.old in
        tray_reply transaction master.now (tray_reach tray transaction master.now) tray
        ++ drop transaction.count room.old) }
{
    if tray_record::changing(transaction) {
        packs_changed_in(state, transaction, master);
        tray_record::unheard(0, transaction, room);
    } else {
        packs_heard_in(state, transaction, master, room);
    }
    state[CLOSED_AT] = 1;
}

// The record at the front of some bytes, run in the tray that `state` holds. Bytes that are no tray stay, and nothing is run.
pub fn tray_state_step(
    state: &mut [u8],
    bytes: &[u8],
    room: &mut [u8],
) -> Result<Step, StateRefusal>
    ensures { TrayStateStepped state.old bytes.now room.old result state.new room.new }
{
    check_tray_state(state)?;
    let slot = tray_record::slot(bytes);
    let first = tray_asked_in(state, slot, bytes, room.len());
    let end = first.used;
    let answer = first.answer;
    let asked = first.event;
    match asked {
        None => stepped(answer, 0),
        Some(event) => match event {
            Event::Image(profile) => {
                joined_in(state, profile, &bytes[4..end]);
                stepped(answer, 0)
            }
            Event::Change(change) => {
                slot_changed_in(state, slot, change);
                stepped(answer, 0)
            }
            Event::Transact(transaction) => {
                let from = 4 + transaction.start as usize;
                tray_transacted_in(state, transaction, &bytes[from..end], room);
                stepped(answer, transaction.count)
            }
        },
    }
}
