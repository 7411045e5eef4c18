// engines: runs the session on standard input behind 6 bytes, a raw current and n, and shows what both sampling engines make of its end
#![tactic(auto)]

ghost use Rattle.std.specs.Prelude.{◌≡◌, List, ℕ, ◌+◌, ◌≤◌, length, is_err, IfOk};
ghost use Rattle.state.specs.State.{MeterWf};
ghost use Rattle.digits.specs.Digits.{Writing, Appends};
ghost use Rattle.streams.specs.Streams.{error, Front, Saying};
ghost use Rattle.engines.specs.Engines.{engines_size_text, charge_sound, average_sound, shown_sound, sound_of, registers_text, meter_line};
ghost use Rattle.engines.specs.Engines.{engine_lines, end_speech, compared_speech, compared_of};

use digits::Page;
use gauge::Gauge;
use runs::Session;
use state::{Average, Charge, Common, Meter, Shown};
use streams::{Said, Stream, Unread};

const INPUT_ROOM: usize = 32775;

const TEXT_ROOM: usize = 258;

// What an engine asks of the count, the age counter and AS.
fn charge_sound(charge: Charge) -> bool
    ensures { result ≡ charge_sound charge }
{
    charge.count < 268435456 && charge.age < 2097120 && 63 <= charge.aging && charge.aging <= 128
}

// What it asks of the count of conversions and of the run of eight.
fn average_sound(average: Average) -> bool
    ensures { result ≡ average_sound average }
{
    average.made < 1024 && average.sum as u64 <= 65535 * (average.made % 8) as u64
}

// What it asks of FULL, VOLT and TEMP.
fn shown_sound(shown: Shown) -> bool
    ensures { result ≡ shown_sound shown }
{
    shown.model.full <= 16384 && shown.reading.volt <= 1023 && shown.reading.temp < 2048
}

// What it asks of a meter. Each event keeps it, but `run` does not say so of the state at its end.
#[tactic(auto, unfolding(crate::specs::Engines::sound_of))]
fn sound(meter: Meter) -> bool
    ensures { result ≡ sound_of meter }
{
    charge_sound(meter.charge) && average_sound(meter.flow.average) && shown_sound(meter.shown)
}

fn put_registers(common: Common, meter: Meter, page: &mut Page)
    requires meter_wf { MeterWf meter }
    requires used_in_bounds { page.old.used + 64 ≤ length page.old.room.now }
    ensures { Appends 64 (registers_text common meter) page.old page.new }
{
    let table = digits::lower_pairs();
    let bytes = registers::registers(common, meter);
    page.put_hex(&table, &bytes);
}

// A meter as one line.
fn put_line(common: Common, meter: Meter, page: &mut Page)
    requires meter_wf { MeterWf meter }
    requires used_in_bounds { page.old.used + 129 ≤ length page.old.room.now }
    ensures { Appends 129 (meter_line common meter) page.old page.new }
{
    put_registers(common, meter, page);
    let later = samples::plain(meter, numbers::ZERO31, 64);
    put_registers(common, later, page);
    page.put_byte(b'\n');
}

// The line of the plain engine and that of the quick one.
fn put_lines(gauge: Gauge, raw: u32, n: u16, out: &mut [u8]) -> usize
    requires { 258 ≤ length out.old }
    ensures { Writing 258 (engine_lines gauge raw n) out.old 0 result out.new }
{
    if sound(gauge.meter) {
        let mut page = Page::new(out);
        put_line(gauge.common, samples::plain(gauge.meter, raw, n), &mut page);
        put_line(gauge.common, samples::quick(gauge.meter, raw, n), &mut page);
        return page.used;
    }
    0
}

// What is said of the end of a session: nothing is shown of one without an image.
fn put_ended(session: Session, raw: u32, n: u16, room: &mut [u8]) -> Said
    requires { length room.old ≡ 258 }
    ensures { Saying (end_speech session raw n) room.old result room.new }
{
    if session.loaded {
        let count = put_lines(session.gauge, raw, n, room);
        return Said {
            stream: Stream::Output,
            count,
        };
    }
    streams::put_refused(5, b"no image was accepted behind the first 6 bytes", room)
}

// The size of the input is this program's own affair: the papers have no number for it.
fn put_missized(room: &mut [u8]) -> Said
    requires { length room.old ≡ 258 }
    ensures { Saying (error engines_size_text) room.old result room.new }
{
    let mut page = Page::new(room);
    page.put_bytes(b"engines: the input is not 6 to 32,774 bytes\n");
    Said {
        stream: Stream::Error,
        count: page.used,
    }
}

fn put_compared(bytes: &[u8], room: &mut [u8]) -> Said
    requires { length room.old ≡ 258 }
    ensures { Saying (compared_speech bytes.now) room.old result room.new }
{
    if 6 <= bytes.len() && bytes.len() <= 32774 {
        let raw = numbers::offset32(slices::quad(bytes, 0));
        let n = slices::pair(bytes, 4);
        let mut replies = [0u8; 65536];
        let mut answers = [0u64; 8192];
        let ran = session_run::run(&bytes[6..], &mut replies, &mut answers);
        return put_ended(ran.state, raw, n, room);
    }
    put_missized(room)
}

// What the program says. A byte more than an input may have is enough to know of any.
fn compared(input: &[u8], got: Result<usize, Unread>, room: &mut [u8]) -> Said
    requires input_room { length input.now ≡ 32775 }
    requires text_room { length room.old ≡ 258 }
    ensures by_index { (s : List ℕ) → IfOk got (Front s input.now) →
        Saying (compared_of (is_err got) s) room.old result room.new }
{
    streams::put_answer(b"engines", input, got, room, put_compared)
}

fn main(rt: HostRuntime) {
    streams::answer_input::<INPUT_ROOM, TEXT_ROOM, _>(&rt, b"engines", compared);
}
