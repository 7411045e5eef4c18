// Sessions: records in, an answer each, replies into one lent room; and the image taken out.
#![tactic(auto)]

ghost use Rattle.std.specs.Prelude.{◌≡◌, ◌≤◌, length};
ghost use Rattle.runs.specs.Record.{recs_of};
ghost use Rattle.runs.specs.Run.{Running, Runs, result_of};
ghost use Rattle.runs.specs.Step.{StepDone};
ghost use Rattle.runs.specs.Out.{number_in};
ghost use Rattle.gauge.specs.Image.{size_for};
ghost use Rattle.runs.specs.SessionRecord.{SessionWf, did_of};
ghost use Rattle.session_run.specs.SessionRun.{empty_of, take_out_of, TakenOut};
ghost use Rattle.session_run.specs.Laws.{session_laws};

use record::{Change, Event, IMAGE_SIZE, Refusal};
use runs::{Ended, Outcome, Ran, RecordStep, Runner, Session, WholeRunner};
use state::Profile;

// Before the first record.
pub fn empty() -> Session
    ensures value { result ≡ empty_of }
    ensures kept { SessionWf result }
{
    let zeros = [0u8; IMAGE_SIZE];
    let gauge = gauge::image_in(Profile::Ds2781, &zeros);
    Session {
        loaded: false,
        gauge,
    }
}

// Records, run from any state. The match on the event stands in the loop itself, so that no state goes through a result: a loop in `runs` over a step of
// the state would copy a whole gauge for each record. A record that is cut ends the loop, and is answered behind it.
pub fn run_on(start: Session, bytes: &[u8], room: &mut [u8], answers: &mut [u64]) -> Ran<Session>
    requires session_wf { SessionWf start }
    requires bytes_len_bound { length bytes.now ≤ 131072 }
    requires bytes_in_bounds { length (recs_of bytes.now) ≤ length answers.old }
    ensures running { Running did_of start bytes.now room.old answers.old (result_of result) room.new
        answers.new }
    ensures kept { SessionWf result.state }
{
    let mut loaded = start.loaded;
    let mut gauge = start.gauge;
    let mut at = 0;
    let mut used = 0;
    let mut lines = 0;
    // no loop over elements: each record says where the next one starts
    while runs::whole(&bytes[at..]) {
        let rest = &bytes[at..];
        let first = runs::front(rest, loaded, gauge.meter.flow.tick, room.len() - used);
        let end = first.used;
        let mut line = runs::code(first.kind, first.answer, 0);
        at += end;
        match first.event {
            None => {}
            Some(event) => {
                loaded = true;
                match event {
                    Event::Image(profile) => {
                        gauge = gauge::image_in(profile, &rest[4..end]);
                    }
                    Event::Change(change) => match change {
                        Change::Reading(volt, temp) => {
                            gauge = gauge.read(volt, temp);
                        }
                        Change::Conversion(raw) => {
                            gauge = gauge.convert(raw);
                        }
                        Change::Sample(raw, tick) => {
                            gauge = gauge.sample(raw, tick);
                        }
                        Change::PowerOn => {
                            gauge = gauge.power_on();
                        }
                    },
                    Event::Transact(transaction) => {
                        let from = 4 + transaction.start as usize;
                        gauge = gauge.transact(transaction, &rest[from..end], &mut room[used..]);
                        used += transaction.count as usize;
                        line = runs::code(first.kind, first.answer, transaction.count);
                    }
                }
            }
        }
        answers[lines] = line;
        lines += 1;
    }
    if at < bytes.len() {
        answers[lines] = runs::code(0, 2, 0);
        lines += 1;
    }
    Ran {
        state: Session { loaded, gauge },
        ended: Ended {
            outcome: Outcome::Done,
            lines,
            replied: used,
        },
    }
}

// What runs the records of a session.
pub struct SessionRunner;

impl Runner for SessionRunner {
    type State = Session;

    ghost is_wf = { SessionWf };

    ghost first = { empty_of };

    ghost did = { did_of };

    ghost laws = { session_laws };

    fn start() -> Session {
        empty()
    }

    fn run_on(start: Session, bytes: &[u8], room: &mut [u8], answers: &mut [u64]) -> Ran<Session> {
        run_on(start, bytes, room, answers)
    }
}

// `runs::step`, of a session.
pub fn step(session: Session, bytes: &[u8], room: &mut [u8]) -> RecordStep<Session>
    requires { SessionWf session }
    ensures step_done { StepDone did_of session bytes.now room.old result.state result.answer result.replied room.new }
    ensures kept { SessionWf result.state }
{
    runs::step::<SessionRunner>(session, bytes, room)
}

// `runs::run`, of a session.
pub fn run(bytes: &[u8], room: &mut [u8], answers: &mut [u64; 8192]) -> Ran<Session>
    ensures { Runs did_of empty_of bytes.now room.old answers.old (result_of result) room.new
        answers.new }
{
    runs::run::<SessionRunner>(bytes, room, answers)
}

impl WholeRunner for SessionRunner {
    fn run(bytes: &[u8], room: &mut [u8], answers: &mut [u64; 8192]) -> Ran<Session> {
        run(bytes, room, answers)
    }
}

// How many bytes the image of a session's pack has.
pub fn image_size(session: Session) -> usize
    ensures { result ≡ size_for session.gauge }
{
    state::image_size(session.gauge.meter.cells.profile)
}

// The image taken out of a session's state, in the first bytes of the room: how many bytes it has.
pub fn take_out(session: Session, room: &mut [u8]) -> Result<usize, Refusal>
    ensures value { result ≡ take_out_of session room.old }
    ensures taken_out { TakenOut session room.old (number_in result) room.new }
{
    if !session.loaded {
        return Err(Refusal::Order);
    }
    gauge::image_out(session.gauge, room)?;
    Ok(image_size(session))
}
