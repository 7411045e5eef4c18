// Slow sampling: n conversions of one raw current, one by one or in stretches.
#![tactic(auto)]

ghost use Rattle.std.specs.Prelude.{◌≡◌, ◌≤◌};
ghost use Rattle.state.specs.State.{ChargeWf, AverageWf, MeterWf};
ghost use Rattle.samples.specs.Samples.{sampled_of, sample_of};
ghost use Rattle.samples.specs.Stretch.{grown_over, adds_over, count_over, drops_over, age_over, aging_over, worn_over, learnf_over};
ghost use Rattle.samples.specs.Stretch.{charge_over, trace_over, seventh_of, average_over, flowed_over, stretched_of, reach_of};

use conversion::{Age, Stepped};
use params::{Capacity, Counting, Limits};
use state::{Average, Charge, Meter, Profile, Since, Tick, Trace};

// ---- a stretch: k conversions of the same c, of which none but the last may find full. The steps of a single conversion stand apart, in
// conversion: they need no product by k and no division by 32 × AC.

// Step 3.
fn grown_over(count: u32, counted: u16, ab: u8, k: u16) -> u32
    ensures { result ≡ grown_over count counted ab k }
{
    let each = (counted as u64) + (ab as u64);
    let zero = (numbers::ZERO15 as u64) + (numbers::ZERO7 as u64);
    let sum = (count as u64) + (k as u64) * each;
    sum.saturating_sub((k as u64) * zero).min(268435455) as u32
}

// Step 4: how often AS falls.
fn drops_over(ac: u16, age: u32, k: u16) -> u16
    ensures { result ≡ drops_over ac age k }
{
    let falls = age.checked_div(32 * (ac as u32)).unwrap_or(0);
    falls.min(k as u32) as u16
}

// Step 4: the age counter after so many falls of AS.
fn age_over(ac: u16, age: u32, drops: u16) -> u32
    ensures { result ≡ age_over ac age drops }
{
    let limit = 32 * (ac as u64);
    let left = (age as u64).saturating_sub((drops as u64) * limit) as u32;
    if ac == 0 { 0 } else { left }
}

// Step 4: AS after them.
fn aging_over(aging: u8, drops: u16) -> u8
    ensures { result ≡ aging_over aging drops }
{
    (aging as u16).saturating_sub(drops).max(63) as u8
}

// Step 3: how many of k conversions add.
fn adds_over(mark: bool, k: u16) -> u16
    ensures { result ≡ adds_over mark k }
{
    if mark { k.saturating_sub(1) } else { k }
}

// Steps 2 and 3.
fn count_over(profile: Profile, counting: Counting, charge: Charge, c: u16, k: u16) -> u32
    ensures { result ≡ count_over profile counting charge c k }
{
    grown_over(
        charge.count,
        conversion::blanked(profile, counting.nben, c),
        counting.ab,
        adds_over(charge.mark, k),
    )
}

// Step 4. Most stretches leave the counter below its limit, where it and AS stay: they are spared the division.
fn worn_over(ac: u16, age: u32, aging: u8, k: u16) -> Age
    requires { 63 ≤ aging }
    ensures { result ≡ worn_over ac age aging k }
{
    if age < 32 * (ac as u32) {
        return Age { age, aging };
    }
    let drops = drops_over(ac, age, k);
    Age {
        age: age_over(ac, age, drops),
        aging: aging_over(aging, drops),
    }
}

// Steps 1 and 5: LEARNF, by the count after the last. One that is clear stays so, and is spared the count after the first.
fn learnf_over(
    profile: Profile,
    counting: Counting,
    charge: Charge,
    last: u16,
    c: u16,
    count: u32,
) -> bool
    ensures { result ≡ learnf_over profile counting charge last c count }
{
    if !charge.learnf {
        return false;
    }
    let first = count_over(profile, counting, charge, c, 1);
    let turned = c < numbers::ZERO15 && numbers::ZERO15 <= last;
    let emptied = first / 4096 == 0 || count / 4096 == 0;
    !turned && !emptied
}

// Steps 1 to 5.
fn charge_over(
    profile: Profile,
    counting: Counting,
    charge: Charge,
    last: u16,
    c: u16,
    k: u16,
) -> Charge
    requires { ChargeWf charge }
    ensures { result ≡ charge_over profile counting charge last c k }
{
    let count = count_over(profile, counting, charge, c, k);
    let worn = worn_over(
        counting.ac,
        charge.age + conversion::fall(charge.count, count),
        charge.aging,
        k,
    );
    Charge {
        count,
        age: worn.age,
        aging: worn.aging,
        learnf: learnf_over(profile, counting, charge, last, c, count),
        mark: false,
    }
}

// Step 1: CURRENT, and the c before it.
fn trace_over(trace: Trace, c: u16, k: u16) -> Trace
    ensures { result ≡ trace_over trace c k }
{
    Trace {
        last: c,
        before: if k == 1 { trace.last } else { c },
        any: true,
        two: 1 < k || trace.any,
    }
}

// Step 6: the run as its eighth conversion finds it.
fn seventh(average: Average, c: u16) -> Average
    requires { AverageWf average }
    ensures value { result ≡ seventh_of average c }
    ensures kept { AverageWf result }
{
    let rest = 7 - average.made % 8;
    Average {
        made: (average.made + rest) % 1024,
        sum: average.sum + (rest as u32) * (c as u32),
        ..average
    }
}

// Step 6: the run of eight goes on, or ends with IAVG.
fn average_over(average: Average, c: u16, k: u16) -> Average
    requires { AverageWf average }
    ensures { result ≡ average_over average c k }
{
    let begun = (average.made % 8) as u32;
    let made = (average.made as u32) + (k as u32);
    if 8 <= begun + (k as u32) {
        let mean = ((average.sum + (8 - begun) * (c as u32)) / 8) as u16;
        Average {
            made: (made % 1024) as u16,
            sum: made % 8 * (c as u32),
            iavg: if begun + (k as u32) < 16 { mean } else { c },
            known: true,
        }
    } else {
        Average {
            made: (made % 1024) as u16,
            sum: average.sum + (k as u32) * (c as u32),
            ..average
        }
    }
}

// Step 6, and CURRENT.
fn flowed_over(mut meter: Meter, limits: Limits, full40: u16, c: u16, k: u16) -> Meter
    requires { MeterWf meter }
    ensures value { result ≡ flowed_over meter limits full40 c k }
    ensures kept { MeterWf result }
{
    let mut flow = meter.flow;
    flow.trace = trace_over(flow.trace, c, k);
    if 8 <= (flow.average.made % 8) as u32 + (k as u32) {
        let seven = seventh(flow.average, c);
        if conversion::found(seven, flow.since, limits, c) {
            meter.charge = conversion::filled(meter.charge, meter.shown.model.full, full40);
            meter.shown.flags.chgtf = true;
        }
        flow.since.any = false;
        flow.since.lowest = 0;
    }
    flow.average = average_over(flow.average, c, k);
    meter.flow = flow;
    meter
}

fn stretch(meter: Meter, raw: u32, k: u16) -> Meter
    requires meter_wf { MeterWf meter }
    requires le_k { 1 ≤ k }
    ensures value { result ≡ stretched_of meter raw k }
    ensures kept { MeterWf result }
{
    let counting = Counting::of(&meter.cells.block.shadow);
    let limits = Limits::of(&meter.cells.block.shadow);
    let capacity = Capacity::of(&meter.cells.block.shadow);
    let c = conversion::converted(meter.flow, raw, counting.cob);
    let charge = charge_over(
        meter.cells.profile,
        counting,
        meter.charge,
        meter.flow.trace.last,
        c,
        k,
    );
    let stepped = Stepped {
        charge,
        fall: conversion::fall(meter.charge.count, charge.count),
    };
    flowed_over(
        conversion::charged(meter, stepped),
        limits,
        capacity.full40,
        c,
        k,
    )
}

// How many of the conversions that are left a stretch takes: up to the end of the run of eight, where full may be found or a 1024th is made,
// or all.
fn reach(average: Average, any: bool, left: u16) -> u16
    requires { 1 ≤ left }
    ensures value { result ≡ reach_of average any left }
    ensures fits { result ≤ left }
    ensures some { 1 ≤ result }
{
    let ends = any || average.made == 1023;
    if ends {
        left.min(8 - average.made % 8)
    } else {
        left
    }
}

// ---- the two engines

// The plain engine: one conversion after the other.
pub fn plain(mut meter: Meter, raw: u32, n: u16) -> Meter
    requires { MeterWf meter }
    ensures value { result ≡ sampled_of meter raw n }
    ensures kept { MeterWf result }
{
    for _ in 0..n {
        meter = conversion::convert(meter, raw);
    }
    meter
}

// The quick engine: stretches. Full may be found at the end of the run of eight that stands, and at none after it, since no reading comes
// within a sample; a 1024th that comes first ends a run too. For 64 conversions there are two stretches at most. (No loop over
// elements: a stretch says how many conversions it took.)
pub fn quick(mut meter: Meter, raw: u32, mut left: u16) -> Meter
    requires { MeterWf meter }
    ensures value { result ≡ sampled_of meter raw left }
    ensures kept { MeterWf result }
{
    while 0 < left {
        let k = reach(meter.flow.average, meter.flow.since.any, left);
        meter = stretch(meter, raw, k);
        left -= k;
    }
    meter
}

// A sample of any signed 32-bit raw current, which comes as z + 2^31, with its tick: as many conversions as ticks have elapsed.
pub fn sample(meter: Meter, raw: u32, tick: u16) -> Meter
    requires { MeterWf meter }
    ensures value { result ≡ sample_of meter raw tick }
    ensures kept { MeterWf result }
{
    let n = state::elapsed(meter.flow.tick, tick);
    let mut sampled = quick(meter, raw, n);
    sampled.flow.tick = Tick {
        any: true,
        last: tick,
    };
    sampled
}
