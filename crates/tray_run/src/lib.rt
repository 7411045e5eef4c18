// Tray sessions: records in, an answer each, replies into one lent room; and the image taken out of a slot.
#![tactic(auto)]

ghost use Rattle.std.specs.Prelude.{◌≡◌, ◌≤◌, ◌<◌, length};
ghost use Rattle.runs.specs.Record.{recs_of};
ghost use Rattle.runs.specs.Run.{Running, Runs, result_of};
ghost use Rattle.runs.specs.Step.{StepDone};
ghost use Rattle.runs.specs.Out.{number_in};
ghost use Rattle.state.specs.State.{image_size_of};
ghost use Rattle.gauge.specs.Image.{image_of, size_for};
ghost use Rattle.tray_record.specs.Tray.{TrayWf, empty_tray, pack_of, pack_joined, tray_did};
ghost use Rattle.tray_run.specs.TrayRun.{slot_out_of, SlotOut};
ghost use Rattle.tray_run.specs.Laws.{tray_laws};

use gauge::Gauge;
use record::{Change, Event, Refusal};
use runs::{Ended, Outcome, Ran, RecordStep, Runner, WholeRunner};
use state::{Common, Label, Meter, Profile, Tick};
use tray_record::Tray;

// A tray with the pack of an image more.
fn pack_joined(before: Tray, profile: Profile, image: &[u8]) -> Tray
    requires { TrayWf before × (before.count < 8) × (length image.now ≡ image_size_of profile) }
    ensures value { result ≡ pack_joined before (image_of profile image.now) }
    ensures kept { TrayWf result }
{
    let mut tray = before;
    let n = usize::from(tray.count);
    let gauge = gauge::image_in(profile, image);
    tray.commons[n] = gauge.common;
    tray.labels[n] = gauge.label;
    tray.meters[n] = gauge.meter;
    tray.count += 1;
    tray
}

// Records, run from any tray. The match on the event stands in the loop itself, where a slot's parts are taken out and stored back, so that no tray goes
// through a result but that of an image or of a transaction that changes packs, which is answered with FFh; the packs that any other reaches answer in a
// loop in it, one after the other. A loop in `runs` over a step of the state would copy a whole tray for each record. A record that is cut ends the loop,
// and is answered behind it.
pub fn run_on(start: Tray, bytes: &[u8], room: &mut [u8], answers: &mut [u64]) -> Ran<Tray>
    requires tray_wf { TrayWf start }
    requires bytes_len_bound { length bytes.now ≤ 131072 }
    requires bytes_in_bounds { length (recs_of bytes.now) ≤ length answers.old }
    ensures running { Running tray_did start bytes.now room.old answers.old (result_of result) room.new
        answers.new }
    ensures kept { TrayWf result.state }
{
    let mut tray = start;
    let mut at = 0;
    let mut used = 0;
    let mut lines = 0;
    let mut scratch = [0u8; 256];
    // no loop over elements: each record says where the next one starts
    while runs::whole(&bytes[at..]) {
        let rest = &bytes[at..];
        let slot = tray_record::slot(rest);
        let mut again = false;
        if tray_record::image_at(rest) {
            let commons = tray.commons;
            again = tray_record::known(commons, tray.count, &rest[4..12]);
        }
        let last = Tick {
            any: tray.meters[slot].flow.tick.any,
            last: tray.meters[slot].flow.tick.last,
        };
        let first = tray_record::front(
            rest,
            tray.count,
            tray.closed,
            again,
            last,
            room.len() - used,
        );
        let end = first.used;
        let mut line = runs::code(first.kind, first.answer, 0);
        at += end;
        match first.event {
            None => {}
            Some(event) => match event {
                Event::Image(profile) => {
                    tray = pack_joined(tray, profile, &rest[4..end]);
                }
                Event::Change(change) => {
                    match change {
                        Change::Reading(volt, temp) => {
                            let old_meter = tray.meters[slot];
                            let next = reading::read(old_meter, volt, temp);
                            tray.meters[slot] = next;
                        }
                        Change::Conversion(raw) => {
                            let old_meter = tray.meters[slot];
                            let next = conversion::convert(old_meter, raw);
                            tray.meters[slot] = next;
                        }
                        Change::Sample(raw, tick) => {
                            let old_meter = tray.meters[slot];
                            let next = samples::sample(old_meter, raw, tick);
                            tray.meters[slot] = next;
                        }
                        Change::PowerOn => {
                            let old_label = tray.labels[slot];
                            let old_meter = tray.meters[slot];
                            let label = label::powered(old_label);
                            let next = old_meter.restarted();
                            tray.labels[slot] = label;
                            tray.meters[slot] = next;
                        }
                    }
                    tray.closed = true;
                }
                Event::Transact(transaction) => {
                    let from = 4 + transaction.start as usize;
                    let master = &rest[from..end];
                    let left = &mut room[used..];
                    if tray_record::changing(transaction) {
                        tray = tray_record::changed(tray, transaction, master);
                        tray_record::unheard(0, transaction, left);
                    } else {
                        let commons = tray.commons;
                        let span = tray_record::reached(transaction, commons, tray.count, master);
                        let stop = usize::from(span.stop);
                        for i in usize::from(span.first)..stop {
                            tray_record::heard(
                                tray.commons[i],
                                tray.labels[i],
                                tray.meters[i],
                                transaction,
                                i == usize::from(span.first),
                                &mut scratch,
                                left,
                            );
                        }
                        tray_record::unheard(stop, transaction, left);
                    }
                    tray.closed = true;
                    used += transaction.count as usize;
                    line = runs::code(first.kind, first.answer, transaction.count);
                }
            },
        }
        answers[lines] = line;
        lines += 1;
    }
    if at < bytes.len() {
        answers[lines] = runs::code(0, 2, 0);
        lines += 1;
    }
    Ran {
        state: tray,
        ended: Ended {
            outcome: Outcome::Done,
            lines,
            replied: used,
        },
    }
}

// What runs the records of a tray.
pub struct TrayRunner;

impl Runner for TrayRunner {
    type State = Tray;

    ghost is_wf = { TrayWf };

    ghost first = { empty_tray };

    ghost did = { tray_did };

    ghost laws = { tray_laws };

    fn start() -> Tray {
        tray_record::empty()
    }

    fn run_on(start: Tray, bytes: &[u8], room: &mut [u8], answers: &mut [u64]) -> Ran<Tray> {
        run_on(start, bytes, room, answers)
    }
}

// `runs::step`, of a tray.
pub fn step(tray: Tray, bytes: &[u8], room: &mut [u8]) -> RecordStep<Tray>
    requires { TrayWf tray }
    ensures step_done { StepDone tray_did tray bytes.now room.old result.state result.answer result.replied room.new }
    ensures kept { TrayWf result.state }
{
    runs::step::<TrayRunner>(tray, bytes, room)
}

// `runs::run`, of a tray session.
pub fn run(bytes: &[u8], room: &mut [u8], answers: &mut [u64; 8192]) -> Ran<Tray>
    ensures { Runs tray_did empty_tray bytes.now room.old answers.old (result_of result) room.new
        answers.new }
{
    runs::run::<TrayRunner>(bytes, room, answers)
}

impl WholeRunner for TrayRunner {
    fn run(bytes: &[u8], room: &mut [u8], answers: &mut [u64; 8192]) -> Ran<Tray> {
        run(bytes, room, answers)
    }
}

// Every tray has eight places, which is told to a proof.
fn sized(commons: [Common; 8], labels: [Label; 8], meters: [Meter; 8])
    ensures { (length commons ≡ 8) × (length labels ≡ 8) × (length meters ≡ 8) }
{}

// How many bytes the image of a slot has; as many as one of kind 1 where a tray has no such slot.
pub fn image_size(tray: Tray, slot: u8) -> usize
    ensures { result ≡ size_for (pack_of tray slot) }
{
    let i = usize::from(slot);
    let commons = tray.commons;
    let labels = tray.labels;
    let meters = tray.meters;
    sized(commons, labels, meters);
    if i < 8 {
        return state::image_size(meters[i].cells.profile);
    }
    60
}

// The image taken out of a slot, in the first bytes of the room: how many bytes it has.
pub fn take_out(tray: Tray, slot: u8, room: &mut [u8]) -> Result<usize, Refusal>
    ensures value { result ≡ slot_out_of tray slot room.old }
    ensures slot_out { SlotOut tray slot room.old (number_in result) room.new }
{
    if slot >= 8 || slot >= tray.count {
        return Err(Refusal::Order);
    }
    let i = usize::from(slot);
    let commons = tray.commons;
    let labels = tray.labels;
    let meters = tray.meters;
    sized(commons, labels, meters);
    let gauge = Gauge {
        common: commons[i],
        label: labels[i],
        meter: meters[i],
    };
    gauge::image_out(gauge, room)
}
