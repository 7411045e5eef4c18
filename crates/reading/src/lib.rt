// A reading, in the six steps of document 01: the model, the empty point, the results, the flags and the saved cells.
#![tactic(auto)]

ghost use Rattle.std.specs.Prelude.{◌≡◌, ◌≤◌, ◌*◌, ◌^◌, ◌<◌};
ghost use Rattle.state.specs.State.{ChargeWf, MeterWf};
ghost use Rattle.reading.specs.Reading.{lowered_of, SeenWf, drained_of, results_shown, read_of, full_line_of, empty_line_of};
ghost use Rattle.reading.specs.Reading.{model_lines, volt_of, temp_of, seen_of, draining_of, point_of, emptied_of, left_of, usable_of};
ghost use Rattle.reading.specs.Reading.{percent_of, amount_of, results_of, rated_of, flagged_of, kept_of};
ghost use Rattle.numbers.specs.Offset.{moved_into};
ghost use Rattle.reading.specs.Product.{segments_of, weighed_of};

use params::{Breaks, Capacity, Curves, Limits, Slopes};
use state::{Charge, Flags, Meter, Model, Reading, Results, Saved, Shown, Since, Trace};

// What a reading sees: steps 1 and 2, and whether VOLT ≥ 4 × VAE.
#[derive(Clone, Copy)]
pub struct Seen {
    pub volt: u16,
    pub temp: u16,
    pub holds: bool,
    pub lines: Model,
}

// Step 1.
fn volt(raw: u32) -> u16
    ensures { result ≡ volt_of raw }
{
    u64::from(raw)
        .saturating_sub(u64::from(numbers::ZERO31))
        .min(1023) as u16
}

fn temp(raw: u32) -> u16
    ensures { result ≡ temp_of raw }
{
    let lowest = u64::from(numbers::ZERO31) - u64::from(numbers::ZERO10);
    u64::from(raw).saturating_sub(lowest).min(2047) as u16
}

// How many of the degrees from t up to 39 each segment has.
#[derive(Clone, Copy)]
struct Degrees {
    s4: u8,
    s3: u8,
    s2: u8,
    s1: u8,
}

// Where a segment that starts at top ends: at its breakpoint b, but at top if b is above it, and no lower than the lowest degree.
fn end(lowest: u64, top: u64, b: u8) -> u64
    requires { lowest ≤ top }
    ensures value { result ≡ moved_into lowest top b }
    ensures inside { (lowest ≤ result) × (result ≤ top) }
{
    (b as u64).clamp(lowest, top)
}

// Step 2: from 40 degrees, which stand as 168, down to t each segment starts where the one before it ends.
fn segments(breaks: Breaks, t: u16) -> Degrees
    ensures { result ≡ segments_of breaks t }
{
    let end1 = (t as u64).min(168);
    let end4 = end(end1, 168, breaks.b34);
    let end3 = end(end1, end4, breaks.b23);
    let end2 = end(end1, end3, breaks.b12);
    Degrees {
        s4: (168 - end4) as u8,
        s3: (end4 - end3) as u8,
        s2: (end3 - end2) as u8,
        s1: (end2 - end1) as u8,
    }
}

// Step 2: the slopes over a segment's degrees.
fn stretch(degrees: u8, slope: u32) -> u64
    ensures value { result ≡ degrees * slope }
    ensures small { result < 2 ^ 40 }
{
    (degrees as u64) * (slope as u64)
}

// Step 2: the slopes of a line going down, each as often as its segment has degrees.
fn weighed(degrees: Degrees, slopes: Slopes) -> u64
    ensures value { result ≡ weighed_of degrees slopes }
    ensures small { result < 2 ^ 42 }
{
    stretch(degrees.s4, slopes.s4)
        + stretch(degrees.s3, slopes.s3)
        + stretch(degrees.s2, slopes.s2)
        + stretch(degrees.s1, slopes.s1)
}

fn full_line(slopes: u64) -> u16
    ensures { result ≡ full_line_of slopes }
{
    16384u64.saturating_sub(slopes).max(8192) as u16
}

fn empty_line(start: u8, slopes: u64) -> u16
    requires { slopes < 2 ^ 42 }
    ensures { result ≡ empty_line_of start slopes }
{
    (16 * (start as u64) + slopes).min(8191) as u16
}

// Step 2: the three lines at t degrees.
pub fn model_lines(curves: Curves, t: u16) -> Model
    ensures value { result ≡ model_lines curves t }
    ensures small { (result.full ≤ 16384) × (result.ae ≤ 8191) }
{
    let degrees = segments(curves.breaks, t);
    Model {
        full: full_line(weighed(degrees, curves.full)),
        ae: empty_line(curves.start, weighed(degrees, curves.ae)),
        se: empty_line(0, weighed(degrees, curves.se)),
    }
}

impl Seen {
    // Steps 1 and 2, and the test of step 3.
    pub fn of(limits: Limits, curves: Curves, v: u32, t: u32) -> Seen
        ensures value { result ≡ seen_of limits curves v t }
        ensures kept { SeenWf result }
    {
        let volt = volt(v);
        let temp = temp(t);
        Seen {
            volt,
            temp,
            holds: 4 * (limits.vae as u16) <= volt,
            lines: model_lines(curves, (temp + 4) / 8),
        }
    }
}

// Step 3: the last two currents are there and both below -128 × IAE.
fn draining(trace: Trace, iae: u8) -> bool
    ensures { result ≡ draining_of trace iae }
{
    let top = numbers::ZERO15 - 128 * (iae as u16);
    trace.any && trace.two && trace.last < top && trace.before < top
}

// Step 3: the empty point is found.
pub fn point(reading: Reading, trace: Trace, limits: Limits) -> bool
    ensures { result ≡ point_of reading trace limits }
{
    reading.known && 4 * (limits.vae as u16) <= reading.volt && draining(trace, limits.iae)
}

// Step 3: holds says that VOLT ≥ 4 × VAE, point that the empty point is found, and e is E.
pub fn emptied(charge: Charge, holds: bool, point: bool, e: u16) -> Charge
    ensures { result ≡ emptied_of charge holds point e }
{
    let cut = (e as u32) < charge.count / 4096 && !charge.learnf;
    if holds {
        charge
    } else if point {
        conversion::set(charge, e, 0 < e)
    } else if cut {
        conversion::set(charge, e, charge.learnf)
    } else {
        charge
    }
}

// Step 3.
fn drained(meter: Meter, limits: Limits, full40: u16, seen: Seen) -> Charge
    requires charge_wf { ChargeWf meter.charge }
    requires seen_wf { SeenWf seen }
    ensures value { result ≡ drained_of meter limits full40 seen }
    ensures kept { ChargeWf result }
{
    let e = conversion::share(seen.lines.ae as u32, full40) as u16;
    let point = point(meter.shown.reading, meter.flow.trace, limits);
    emptied(meter.charge, seen.holds, point, e)
}

// Step 4: N, or 0 where it is not above 0.
fn left(acr: u16, empty: u16, full40: u16) -> u32
    ensures value { result ≡ left_of acr empty full40 }
    ensures small { result ≤ 16384 * 65535 }
{
    let spent = (empty as u64) * (full40 as u64);
    (16384 * (acr as u64)).saturating_sub(spent) as u32
}

// Step 4: D, or 0 where it is not above 0.
fn usable(af: u16, empty: u16, full40: u16) -> u32
    ensures { result ≡ usable_of af empty full40 }
{
    (af.saturating_sub(empty) as u32) * (full40 as u32)
}

// Step 4: a per cent. At 100 nothing is divided.
fn percent(n: u32, d: u32) -> u8
    ensures { result ≡ percent_of n d }
{
    if n < d {
        (100 * (n as u64) / (d as u64)) as u8
    } else if d == 0 {
        0
    } else {
        100
    }
}

fn amount(n: u32, rsnsp: u8) -> u16
    requires { n ≤ 16384 * 65535 }
    ensures { result ≡ amount_of n rsnsp }
{
    ((n as u64) * (rsnsp as u64) / 4194304) as u16
}

// Step 4: the four results, of the lines, ACR and AF.
fn results_of(lines: Model, acr: u16, af: u16, capacity: Capacity) -> Results
    ensures { result ≡ results_of lines acr af capacity }
{
    let active = left(acr, lines.ae, capacity.full40);
    let standby = left(acr, lines.se, capacity.full40);
    Results {
        rarc: percent(active, usable(af, lines.ae, capacity.full40)),
        rsrc: percent(standby, usable(af, lines.se, capacity.full40)),
        raac: amount(active, capacity.rsnsp),
        rsac: amount(standby, capacity.rsnsp),
    }
}

// Step 4: AF comes of FULL and AS.
pub fn rated(charge: Charge, lines: Model, capacity: Capacity) -> Results
    requires charge_wf { ChargeWf charge }
    requires full_bound { lines.full ≤ 16384 }
    ensures { result ≡ rated_of charge lines capacity }
{
    let acr = (charge.count / 4096) as u16;
    let af = conversion::aged_full(lines.full, charge.aging) as u16;
    results_of(lines, acr, af, capacity)
}

// Step 5, and AEF of step 3.
pub fn flagged(flags: Flags, holds: bool, results: Results) -> Flags
    ensures { result ≡ flagged_of flags holds results }
{
    Flags {
        chgtf: flags.chgtf && 90 <= results.rarc,
        aef: !holds || (flags.aef && results.rarc <= 5),
        sef: results.rsrc < 10 || (flags.sef && results.rsrc <= 15),
        ..flags
    }
}

// Step 6.
pub fn kept(saved: Saved, save: bool, charge: Charge, cycles: u8) -> Saved
    requires { ChargeWf charge }
    ensures { result ≡ kept_of saved save charge cycles }
{
    if save {
        Saved {
            acr: (charge.count / 4096) as u16,
            aging: charge.aging,
            cycles,
        }
    } else {
        saved
    }
}

// A reading adds its VOLT.
pub fn lowered(since: Since, volt: u16) -> Since
    ensures { result ≡ lowered_of since volt }
{
    Since {
        any: true,
        lowest: if since.any {
            since.lowest.min(volt)
        } else {
            volt
        },
    }
}

// Steps 5 and 6.
fn results_shown(mut meter: Meter, seen: Seen, charge: Charge, results: Results) -> Meter
    requires meter_wf { MeterWf meter }
    requires seen_wf { SeenWf seen }
    requires charge_wf { ChargeWf charge }
    ensures value { result ≡ results_shown meter seen charge results }
    ensures kept { MeterWf result }
{
    let same = meter.shown.results.rarc / 4 == results.rarc / 4;
    let save = meter.shown.reading.known && !same;
    // Field by field, here and below: a small struct that is stored at once is packed into one number wherever it goes.
    let saved = kept(meter.cells.saved, save, charge, meter.cycles.count);
    meter.cells.saved.acr = saved.acr;
    meter.cells.saved.aging = saved.aging;
    meter.cells.saved.cycles = saved.cycles;
    meter.charge = charge;
    let since = lowered(meter.flow.since, seen.volt);
    meter.flow.since.any = since.any;
    meter.flow.since.lowest = since.lowest;
    meter.shown = Shown {
        model: seen.lines,
        results,
        reading: Reading {
            volt: seen.volt,
            temp: seen.temp,
            known: true,
        },
        flags: flagged(meter.shown.flags, seen.holds, results),
    };
    meter
}

// A reading of any signed 32-bit voltage and temperature, which come as z + 2^31.
pub fn read(meter: Meter, v: u32, t: u32) -> Meter
    requires { MeterWf meter }
    ensures value { result ≡ read_of meter v t }
    ensures kept { MeterWf result }
{
    let limits = Limits::of(&meter.cells.block.shadow);
    let capacity = Capacity::of(&meter.cells.block.shadow);
    let curves = Curves::of(&meter.cells.block.shadow);
    let seen = Seen::of(limits, curves, v, t);
    let charge = drained(meter, limits, capacity.full40, seen);
    let results = rated(charge, seen.lines, capacity);
    results_shown(meter, seen, charge, results)
}
