// A conversion, in the six steps of document 01: the count, ageing, the cycle counter, full detection.
#![tactic(auto)]

ghost use Rattle.std.specs.Prelude.{◌≡◌, ◌*◌, ◌≤◌, ◌+◌};
ghost use Rattle.state.specs.State.{ChargeWf, AverageWf, MeterWf};
ghost use Rattle.conversion.specs.Conversion.{current_of, traced_of, blanked_of, grown_of, added_of, fall_of, aged_of, learning_of, counted_of};
ghost use Rattle.conversion.specs.Conversion.{stepped_of, set_of, aged_full_of, share_of, share_up_of, rest_of, advanced_of, averaged_of, tapers_of, taught_of};
ghost use Rattle.conversion.specs.Conversion.{found_of, learnt_of, filled_of, converted_of, flowed_of, charged_of, convert_of};
ghost use Rattle.params.specs.Params.{limits_of, capacity_of};

use params::{Capacity, Counting, Limits};
use state::{Average, Charge, Cycles, Flow, Meter, Profile, Since, Trace};

// The age counter and AS.
#[derive(Clone, Copy)]
pub struct Age {
    pub age: u32,
    pub aging: u8,
}

// Step 1: c.
pub fn current(raw: u32, cob: u8) -> u16
    ensures { result ≡ current_of raw cob }
{
    let sum = (raw as u64) + (cob as u64);
    let offset = (numbers::ZERO31 as u64) + (numbers::ZERO7 as u64) - (numbers::ZERO15 as u64);
    sum.saturating_sub(offset).min(65535) as u16
}

// Step 1: c, which on the 1024th is the previous one.
pub fn converted(flow: Flow, raw: u32, cob: u8) -> u16
    ensures { result ≡ converted_of flow raw cob }
{
    if flow.average.made == 1023 {
        flow.trace.last
    } else {
        current(raw, cob)
    }
}

// Step 1: CURRENT.
pub fn traced(trace: Trace, c: u16) -> Trace
    ensures { result ≡ traced_of trace c }
{
    Trace {
        last: c,
        before: trace.last,
        any: true,
        two: trace.any,
    }
}

// Step 2: what counts as 0 is one range, from the slightest current below 0, or from 0 itself without NBEN, up to 63. Of a current that is
// outside of the widest such range nothing more is asked.
pub fn blanked(profile: Profile, nben: bool, c: u16) -> u16
    ensures { result ≡ blanked_of profile nben c }
{
    let zero = numbers::ZERO15;
    if c < zero - 16 || zero + 64 <= c {
        return c;
    }
    let lowest = if nben {
        zero + 1 - state::blanking_edge(profile)
    } else {
        zero
    };
    if lowest <= c { zero } else { c }
}

// Step 3.
fn grown(count: u32, counted: u16, ab: u8) -> u32
    ensures { result ≡ grown_of count counted ab }
{
    let sum = (count as u64) + (counted as u64) + (ab as u64);
    let offset = (numbers::ZERO15 as u64) + (numbers::ZERO7 as u64);
    sum.saturating_sub(offset).min(268435455) as u32
}

// Step 3: where the mark is set nothing is added.
fn added(mark: bool, count: u32, counted: u16, ab: u8) -> u32
    ensures { result ≡ added_of mark count counted ab }
{
    if mark {
        count
    } else {
        grown(count, counted, ab)
    }
}

// Step 4: how far ACR fell.
pub fn fall(old: u32, new: u32) -> u32
    ensures { result ≡ fall_of old new }
{
    (old / 4096).saturating_sub(new / 4096)
}

// Step 4.
fn aged(ac: u16, age: u32, aging: u8) -> Age
    ensures { result ≡ aged_of ac age aging }
{
    let limit = 32 * (ac as u32);
    if age < limit {
        Age { age, aging }
    } else if ac == 0 {
        Age { age: 0, aging }
    } else {
        Age {
            age: age - limit,
            aging: aging.saturating_sub(1).max(63),
        }
    }
}

// Steps 1 and 5: what is left of LEARNF, which clears where c turns negative, and at ACR = 0.
fn learning(learnf: bool, last: u16, c: u16, count: u32) -> bool
    ensures { result ≡ learning_of learnf last c count }
{
    if learnf {
        let turned = c < numbers::ZERO15 && numbers::ZERO15 <= last;
        !turned && 0 < count / 4096
    } else {
        false
    }
}

// What steps 1 to 5 leave: the charge, and how far ACR fell, which ageing and the cycle counter count.
#[derive(Clone, Copy)]
pub struct Stepped {
    pub charge: Charge,
    pub fall: u32,
}

// Steps 1 to 5: last is the c before and c this one.
pub fn counted(charge: Charge, profile: Profile, counting: Counting, last: u16, c: u16) -> Stepped
    requires { ChargeWf charge }
    ensures { result ≡ stepped_of charge (counted_of profile counting charge last c) }
{
    let count = added(
        charge.mark,
        charge.count,
        blanked(profile, counting.nben, c),
        counting.ab,
    );
    let fall = fall(charge.count, count);
    let worn = aged(counting.ac, charge.age + fall, charge.aging);
    Stepped {
        charge: Charge {
            count,
            age: worn.age,
            aging: worn.aging,
            learnf: learning(charge.learnf, last, c, count),
            mark: false,
        },
        fall,
    }
}

// What is left of so far a fall, once each step is taken off.
fn rest(full40: u16, fallen: u64) -> u32
    ensures { result ≡ rest_of full40 fallen }
{
    fallen.checked_rem(2 * (full40 as u64)).unwrap_or(0) as u32
}

// A conversion of a pack that counts cycles, in which ACR fell so far.
pub fn advanced(cycles: Cycles, full40: u16, fall: u32) -> Cycles
    ensures { result ≡ advanced_of full40 cycles.count (cycles.rest + fall) }
{
    let fallen = (cycles.rest as u64) + (fall as u64);
    let steps = fallen.checked_div(2 * (full40 as u64)).unwrap_or(0);
    Cycles {
        count: ((cycles.count as u64) + steps).min(255) as u8,
        rest: rest(full40, fallen),
    }
}

// The charge that steps 1 to 5 leave, and the cycle counter, which counts the same fall of ACR as ageing.
pub fn charged(mut meter: Meter, stepped: Stepped) -> Meter
    requires meter_wf { MeterWf meter }
    requires charge_wf { ChargeWf stepped.charge }
    requires fall_value { stepped.fall ≡ fall_of meter.charge.count stepped.charge.count }
    ensures value { result ≡ charged_of meter (capacity_of meter.cells.block.shadow).full40 stepped.charge }
    ensures kept { MeterWf result }
{
    meter.charge = stepped.charge;
    if state::counts_cycles(meter.cells.profile) {
        let capacity = Capacity::of(&meter.cells.block.shadow);
        // Field by field: at once the two would be packed into one number wherever they go.
        let cycles = advanced(meter.cycles, capacity.full40, stepped.fall);
        meter.cycles.count = cycles.count;
        meter.cycles.rest = cycles.rest;
    }
    meter
}

// Step 6: whether an average is in 1..32 × IMIN - 1.
fn tapers(imin: u8, x: u16) -> bool
    ensures { result ≡ tapers_of imin x }
{
    let top = numbers::ZERO15 + 32 * (imin as u16);
    numbers::ZERO15 < x && x < top
}

// Step 6: the run of eight goes on, or ends with IAVG.
pub fn averaged(average: Average, c: u16) -> Average
    requires { AverageWf average }
    ensures { result ≡ averaged_of average c }
{
    let sum = average.sum + (c as u32);
    let made = (average.made + 1) % 1024;
    if average.made % 8 == 7 {
        Average {
            made,
            sum: 0,
            iavg: (sum / 8) as u16,
            known: true,
        }
    } else {
        Average {
            made,
            sum,
            ..average
        }
    }
}

// Step 6: whether an eighth conversion finds full.
pub fn found(average: Average, since: Since, limits: Limits, c: u16) -> bool
    requires { AverageWf average }
    ensures { result ≡ found_of average since limits c }
{
    let mean = ((average.sum + (c as u32)) / 8) as u16;
    let tapering = tapers(limits.imin, mean) && average.known && tapers(limits.imin, average.iavg);
    tapering && since.any && 4 * (limits.vchg as u16) < since.lowest
}

// Step 6: AS that a full charge teaches.
fn learnt(acr: u16, full: u16, full40: u16) -> u8
    ensures { result ≡ learnt_of acr full full40 }
{
    let n = (acr as u64) * 2097152;
    let d = (full as u64) * (full40 as u64);
    numbers::moved_into(63, 128, n.checked_div(d).unwrap_or(0))
}

// Step 6: that, if LEARNF and Full40 > 0.
fn taught(charge: Charge, full: u16, full40: u16) -> u8
    requires { ChargeWf charge }
    ensures { result ≡ taught_of charge full full40 }
{
    if charge.learnf && 0 < full40 {
        learnt((charge.count / 4096) as u16, full, full40)
    } else {
        charge.aging
    }
}

// ACR is set outright, the fraction 0.
pub fn set(mut charge: Charge, acr: u16, learnf: bool) -> Charge
    ensures { result ≡ set_of charge acr learnf }
{
    charge.count = (acr as u32) * 4096;
    charge.learnf = learnf;
    charge
}

// AF, of FULL and AS.
pub fn aged_full(full: u16, aging: u8) -> u32
    ensures { result ≡ aged_full_of full aging }
{
    (full as u32) * (aging as u32) / 128
}

// A share of Full40 in units of 2^-14, as ACR.
pub fn share(x: u32, full40: u16) -> u64
    ensures value { result ≡ share_of x full40 }
    ensures small { result ≤ 4 * x }
{
    (x as u64) * (full40 as u64) / 16384
}

// The same rounded up: the charge at full.
pub fn share_up(x: u32, full40: u16) -> u64
    ensures { result ≡ share_up_of x full40 }
{
    ((x as u64) * (full40 as u64) + 16383) / 16384
}

// Step 6, where full is found.
pub fn filled(mut charge: Charge, full: u16, full40: u16) -> Charge
    requires charge_wf { ChargeWf charge }
    requires full_bound { full ≤ 16384 }
    ensures { result ≡ filled_of charge full full40 }
{
    let aging = taught(charge, full, full40);
    let acr = share_up(aged_full(full, aging), full40) as u16;
    charge.aging = aging;
    set(charge, acr, false)
}

// Step 6 of a conversion, and CURRENT. The limits are taken at an eighth conversion only, and Full40 only where full is found.
fn flowed(mut meter: Meter, c: u16) -> Meter
    requires { MeterWf meter }
    ensures value { result ≡ flowed_of meter (limits_of meter.cells.block.shadow) (capacity_of meter.cells.block.shadow).full40 c }
    ensures kept { MeterWf result }
{
    let mut flow = meter.flow;
    flow.trace = traced(flow.trace, c);
    if flow.average.made % 8 == 7 {
        let limits = Limits::of(&meter.cells.block.shadow);
        if found(flow.average, flow.since, limits, c) {
            let capacity = Capacity::of(&meter.cells.block.shadow);
            meter.charge = filled(meter.charge, meter.shown.model.full, capacity.full40);
            meter.shown.flags.chgtf = true;
        }
        flow.since.any = false;
        flow.since.lowest = 0;
    }
    flow.average = averaged(flow.average, c);
    meter.flow = flow;
    meter
}

// A conversion of any signed 32-bit raw current, which comes as z + 2^31.
pub fn convert(meter: Meter, raw: u32) -> Meter
    requires { MeterWf meter }
    ensures value { result ≡ convert_of meter raw }
    ensures kept { MeterWf result }
{
    let counting = Counting::of(&meter.cells.block.shadow);
    let c = converted(meter.flow, raw, counting.cob);
    let stepped = counted(
        meter.charge,
        meter.cells.profile,
        counting,
        meter.flow.trace.last,
        c,
    );
    flowed(charged(meter, stepped), c)
}
