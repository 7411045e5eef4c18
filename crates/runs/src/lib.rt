// A run of records of any state: its outcome, a record read and written; the run itself, whole and by steps; and what stands at the front of a session.
#![tactic(auto)]

ghost use Rattle.std.specs.Prelude.{◌≡◌, ℕ, ◌+◌, ◌/◌, ◌<◌, ◌≤◌, length};
ghost use Rattle.digits.specs.Digits.{Appends};
ghost use Rattle.runs.specs.Record.{Rec, recs_of, whole_of, record_of};
ghost use Rattle.runs.specs.Run.{Did, RunLaws, code_of, outcome_number, outcome_of, Running, Runs, result_of, idle_of};
ghost use Rattle.runs.specs.Step.{StepDone};
ghost use Rattle.runs.specs.Divided.{wholes_span};
ghost use Rattle.runs.specs.AnyRecord.{refused_of, taken_read, front_by};
ghost use Rattle.runs.specs.SessionRecord.{told_of};

use digits::Page;
use gauge::Gauge;
use record::{Event, Refusal};
use state::Tick;

// Run to its end, or over 32,768 bytes.
#[derive(Clone, Copy)]
pub enum Outcome {
    Done,
    Over,
}

// The answer number of a whole session. (No refusal: `Done` has a number too.)
pub fn outcome_number(outcome: Outcome) -> u8
    ensures { result ≡ outcome_number outcome }
{
    match outcome {
        Outcome::Done => 0,
        Outcome::Over => 1,
    }
}

// How a session of so many bytes ends.
#[tactic(auto, unfolding(crate::specs::Run::outcome_of))]
pub fn outcome_of(bytes: usize) -> Outcome
    ensures { result ≡ outcome_of bytes }
{
    if 32768 < bytes {
        Outcome::Over
    } else {
        Outcome::Done
    }
}

// How a run of any state ended: how many lines it has, and how many bytes of reply.
#[derive(Clone, Copy)]
pub struct Ended {
    pub outcome: Outcome,
    pub lines: usize,
    pub replied: usize,
}

// Whether a whole record stands at the front.
#[tactic(auto, unfolding(crate::specs::Record::whole_of))]
pub fn whole(rest: &[u8]) -> bool
    ensures { result ≡ whole_of rest.now }
{
    rest.len() >= 4 && 4 + slices::pair(rest, 0) as usize <= rest.len()
}

// How many bytes the whole records at the front are, so many records at most.
pub fn span(bytes: &[u8], most: usize) -> usize
    ensures { result ≡ wholes_span most bytes.now }
{
    let mut at = 0;
    for _ in 0..most {
        let rest = &bytes[at..];
        if !whole(rest) {
            return at;
        }
        at += 4 + slices::pair(rest, 0) as usize;
    }
    at
}

// Puts a record behind what is written of a page.
pub fn put_record(kind: u16, payload: &[u8], page: &mut Page)
    requires payload_len_bound { length payload.now < 65536 }
    requires payload_in_bounds { page.old.used + (4 + length payload.now) ≤ length page.old.room.now }
    ensures { Appends (4 + length payload.now) (record_of kind payload.now) page.old page.new }
{
    let n = payload.len();
    let header = [
        (n % 256) as u8,
        (n / 256) as u8,
        (kind % 256) as u8,
        (kind / 256) as u8,
    ];
    page.put_bytes(&header);
    page.put_bytes(payload);
}

// A line of the answers.
pub fn code(kind: u16, answer: u8, replied: u16) -> u64
    ensures { result ≡ code_of kind answer replied }
{
    (kind as u64) + 65536 * (answer as u64) + 16777216 * (replied as u64)
}

// ---- the run of any state

// What a run did: the state at its end, and how it ended.
#[derive(Clone, Copy)]
pub struct Ran<S> {
    pub state: S,
    pub ended: Ended,
}

// What one record did: the state after it, its answer, and how many bytes of reply stand at the front of the room. (A number and no Result: the
// record that is cut is answered 2, which no refusal of `record` has.)
#[derive(Clone, Copy)]
pub struct RecordStep<S> {
    pub state: S,
    pub answer: u8,
    pub replied: usize,
}

// A state in which records are run one after another. It is implemented for a type of its own and not for the state, which stands in a crate below.
pub trait Runner {
    type State;

    ghost is_wf: { Self.State → Type 0 };

    // before the first record
    ghost first: { Self.State };

    // what one record does, with so many bytes of reply room left
    ghost did: { Self.State → ℕ → Rec → Did Self.State };

    fn start() -> Self::State
        ensures value { result ≡ first }
        ensures kept { is_wf result };

    fn run_on(
        start: Self::State,
        bytes: &[u8],
        room: &mut [u8],
        answers: &mut [u64],
    ) -> Ran<Self::State>
        requires state_wf { is_wf start }
        requires bytes_len_bound { length bytes.now ≤ 131072 }
        requires bytes_in_bounds { length (recs_of bytes.now) ≤ length answers.old }
        ensures running { Running did start bytes.now room.old answers.old (result_of result) room.new answers.new }
        ensures kept { is_wf result.state };

    ghost laws: { RunLaws did };
}

// A runner of whole sessions, which is what the programs are given. (A trait of its own: a runner's `run` goes by `run` below, and that by the functions
// of `Runner`. In one trait they would call one another in a cycle.)
pub trait WholeRunner: Runner {
    fn run(bytes: &[u8], room: &mut [u8], answers: &mut [u64; 8192]) -> Ran<Self::State>
        ensures { Runs Self.did Self.first bytes.now room.old answers.old (result_of result) room.new answers.new };
}

// Records, run from the state before the first.
fn run_all<R: Runner>(bytes: &[u8], room: &mut [u8], answers: &mut [u64]) -> Ran<R::State>
    requires bytes_len_bound { length bytes.now ≤ 32768 }
    requires bytes_in_bounds { (length bytes.now + 3) / 4 ≤ length answers.old }
    ensures { Running R.did R.first bytes.now room.old answers.old (result_of result) room.new answers.new }
{
    R::run_on(R::start(), bytes, room, answers)
}

// A session that is not run.
fn idle<R: Runner>(outcome: Outcome) -> Ran<R::State>
    ensures { result ≡ idle_of R.first outcome }
{
    Ran {
        state: R::start(),
        ended: Ended {
            outcome,
            lines: 0,
            replied: 0,
        },
    }
}

// A whole session: an answer for each record, the replies one after the other at the front of the room, the state at the end. Nothing
// is run and nothing written where it is over 32,768 bytes; so many bytes have at most 8,192 records.
pub fn run<R: Runner>(bytes: &[u8], room: &mut [u8], answers: &mut [u64; 8192]) -> Ran<R::State>
    ensures { Runs R.did R.first bytes.now room.old answers.old (result_of result) room.new answers.new }
{
    match outcome_of(bytes.len()) {
        Outcome::Done => run_all::<R>(bytes, room, answers),
        Outcome::Over => idle::<R>(Outcome::Over),
    }
}

// The record at the front of some bytes, run in any state; what stands behind it is not looked at.
pub fn step<R: Runner>(state: R::State, bytes: &[u8], room: &mut [u8]) -> RecordStep<R::State>
    requires { R.is_wf state }
    ensures step_done { StepDone R.did state bytes.now room.old result.state result.answer result.replied room.new }
    ensures kept { R.is_wf result.state }
{
    if !whole(bytes) {
        return RecordStep {
            state,
            answer: 2,
            replied: 0,
        };
    }
    let end = 4 + slices::pair(bytes, 0) as usize;
    let mut answers = [0u64; 1];
    let ran = R::run_on(state, &bytes[..end], room, &mut answers);
    RecordStep {
        state: ran.state,
        answer: (answers[0] / 65536 % 256) as u8,
        replied: ran.ended.replied,
    }
}

// ---- what stands at the front of a session

// Whether an image was accepted, and the gauge. (No Option: bytes of a state without an image may hold any gauge, which `undoing` keeps.)
#[derive(Clone, Copy)]
pub struct Session {
    pub loaded: bool,
    pub gauge: Gauge,
}

// What stands at the front of what is left of a session: no event where it is refused or cut. (No Result in place of event and answer: with one, a
// conversion takes 10 to 48 instructions more.)
#[derive(Clone, Copy)]
pub struct Record {
    pub event: Option<Event>,
    pub used: usize,
    pub kind: u16,
    pub answer: u8,
}

// A record that asks nothing.
pub fn refused(kind: u16, answer: u8, used: usize) -> Record
    ensures { result ≡ refused_of kind answer used }
{
    Record {
        event: None,
        used,
        kind,
        answer,
    }
}

// What was taken of a record, or refused.
pub fn read_off(kind: u16, used: usize, taken: Result<Event, Refusal>) -> Record
    ensures { result ≡ taken_read kind used taken }
{
    let answer = record::taken_number(taken);
    let Ok(event) = taken else {
        return refused(kind, answer, used);
    };
    Record {
        event: Some(event),
        used,
        kind,
        answer,
    }
}

// The record at the front of the rest, with a tick that is remembered and so many bytes of reply room left. Kinds over 8 are unknown: nothing more is
// asked of them.
pub fn front(rest: &[u8], loaded: bool, last: Tick, room: usize) -> Record
    ensures { result ≡ front_by (told_of loaded last) room rest.now }
{
    if !whole(rest) {
        return refused(0, 2, rest.len());
    }
    let end = 4 + slices::pair(rest, 0) as usize;
    let kind = slices::pair(rest, 2);
    if record::LAST_KIND < kind {
        return refused(kind, u8::from(Refusal::Kind), end);
    }
    read_off(
        kind,
        end,
        record::fitted(kind, loaded, last, room, &rest[4..end]),
    )
}
