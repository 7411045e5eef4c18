// What a record asks: the event of a kind and a payload, or the first refusal that applies, and its number.
#![tactic(auto)]

ghost use Rattle.std.specs.Prelude.{false, ◌≡◌, ◌≤◌, length};
ghost use Rattle.record.specs.Record.{refusal_number, taken_number, kind_of, head_of, limit_of, read_count, addressed_of, ordered_of};
ghost use Rattle.record.specs.Record.{judged_among, judged_of, size_front, due_front, taken_by, taken_of, timed_of, fitted_of};

use bus::Transaction;
use params::Breaks;
use state::{Profile, Tick};

// The pack image: its size, of kind 1, and where its parts stand.
pub const IMAGE_SIZE: usize = 60;

pub const ADDRESS_AT: usize = 0;

pub const LABEL_AT: usize = 8;

pub const BLOCK_AT: usize = 24;

pub const ACR_AT: usize = 56;

pub const AGING_AT: usize = 58;

pub const LOCKS_AT: usize = 59;

pub const CYCLES_AT: usize = 60;

// The two forms of a transaction: a read count of one byte, or of two bytes and with longer limits.
#[derive(Clone, Copy)]
pub enum Form {
    Short,
    Long,
}

// The kinds of a record.
#[derive(Clone, Copy)]
pub enum Kind {
    Image(Profile),
    Reading,
    Conversion,
    Transaction(Form),
    PowerOn,
    Sample,
    Unknown,
}

// What a record is refused with.
#[derive(Clone, Copy)]
pub enum Refusal {
    Kind,
    Size,
    Order,
    Address,
    Locks,
    Count,
    Room,
    Breaks,
    Interval,
    Repeated,
}

// What changes a gauge and asks for no reply. Readings, conversions and samples hold signed counts, as z + 2^31; a sample its tick too.
#[derive(Clone, Copy)]
pub enum Change {
    Reading(u32, u32),
    Conversion(u32),
    Sample(u32, u16),
    PowerOn,
}

// What a record asks of the gauge.
#[derive(Clone, Copy)]
pub enum Event {
    Image(Profile),
    Change(Change),
    Transact(Transaction),
}

// The number that a refusal is answered with.
impl From<Refusal> for u8 {
    fn from(refusal: Refusal) -> u8
        ensures { result ≡ refusal_number refusal }
    {
        match refusal {
            Refusal::Kind => 3,
            Refusal::Size => 4,
            Refusal::Order => 5,
            Refusal::Address => 6,
            Refusal::Locks => 7,
            Refusal::Count => 8,
            Refusal::Room => 9,
            Refusal::Breaks => 10,
            Refusal::Interval => 11,
            Refusal::Repeated => 12,
        }
    }
}

// The answer's number: 0 of an event. (Of the whole answer: `runs::read_off` takes the number before its `let else` takes the event.)
pub fn taken_number(taken: Result<Event, Refusal>) -> u8
    ensures { result ≡ taken_number taken }
{
    match taken {
        Ok(_) => 0,
        Err(refusal) => u8::from(refusal),
    }
}

// No kind of a plain session is above it.
pub const LAST_KIND: u16 = 8;

// No `From`: a tray has other numbers.
#[tactic(auto, unfolding(crate::specs::Record::kind_of))]
fn kind_of(n: u16) -> Kind
    ensures { result ≡ kind_of n }
{
    match n {
        1 => Kind::Image(Profile::Ds2781),
        2 => Kind::Reading,
        3 => Kind::Conversion,
        4 => Kind::Transaction(Form::Short),
        5 => Kind::PowerOn,
        6 => Kind::Sample,
        7 => Kind::Transaction(Form::Long),
        8 => Kind::Image(Profile::Ds2775),
        _ => Kind::Unknown,
    }
}

// The address of eight bytes has the profile's family code and its own CRC.
#[tactic(auto, unfolding(crate::specs::Record::addressed_of))]
fn addressed(profile: Profile, address: &[u8]) -> bool
    requires { length address.now ≡ 8 }
    ensures { result ≡ addressed_of profile address.now }
{
    address[0] == state::family(profile) && address[7] == crc::crc(&address[..7])
}

// The breakpoints follow one another, and none is above 40 °C.
#[tactic(auto, unfolding(crate::specs::Record::ordered_of))]
fn ordered(breaks: Breaks) -> bool
    ensures { result ≡ ordered_of breaks }
{
    breaks.b12 <= breaks.b23 && breaks.b23 <= breaks.b34 && breaks.b34 <= numbers::ZERO7 + 40
}

// An image, judged by itself and by whether another pack has its address: whether it comes in its time is not asked here.
#[tactic(auto, unfolding(crate::specs::Record::judged_among))]
fn judged_among(profile: Profile, again: bool, image: &[u8]) -> Result<Event, Refusal>
    ensures { result ≡ judged_among profile again image.now }
{
    if image.len() != state::image_size(profile) {
        return Err(Refusal::Size);
    }
    if !addressed(profile, &image[ADDRESS_AT..LABEL_AT]) {
        return Err(Refusal::Address);
    }
    if image[LOCKS_AT] > 3 {
        return Err(Refusal::Locks);
    }
    if again {
        return Err(Refusal::Repeated);
    }
    let block = slices::array_at(image, BLOCK_AT);
    if !ordered(Breaks::of(&block)) {
        return Err(Refusal::Breaks);
    }
    Ok(Event::Image(profile))
}

// An image of kind 1, judged by itself.
pub fn judged(image: &[u8]) -> Result<Event, Refusal>
    ensures { result ≡ judged_of image.now }
{
    judged_among(Profile::Ds2781, false, image)
}

// ---- a reader for each kind

// What every reader asks first: a payload of its kind's size, and then whether the record is due. (Two functions: with one for both, a
// conversion of no slot takes 12 instructions more.)
fn check_size(sized: bool) -> Result<(), Refusal>
    ensures { result ≡ size_front sized }
{
    if sized { Ok(()) } else { Err(Refusal::Size) }
}

fn check_due(due: bool) -> Result<(), Refusal>
    ensures { result ≡ due_front due }
{
    if due { Ok(()) } else { Err(Refusal::Order) }
}

fn image_taken(profile: Profile, again: bool, loaded: bool, image: &[u8]) -> Result<Event, Refusal>
    ensures { result ≡ taken_by again (Kind.Image profile) loaded image.now }
{
    check_size(image.len() == state::image_size(profile))?;
    check_due(!loaded)?;
    judged_among(profile, again, image)
}

fn reading_taken(loaded: bool, payload: &[u8]) -> Result<Event, Refusal>
    ensures { result ≡ taken_by false Kind.Reading loaded payload.now }
{
    check_size(payload.len() == 8)?;
    check_due(loaded)?;
    let volt = numbers::offset32(slices::quad(payload, 0));
    let temp = numbers::offset32(slices::quad(payload, 4));
    Ok(Event::Change(Change::Reading(volt, temp)))
}

fn conversion_taken(loaded: bool, payload: &[u8]) -> Result<Event, Refusal>
    ensures { result ≡ taken_by false Kind.Conversion loaded payload.now }
{
    check_size(payload.len() == 4)?;
    check_due(loaded)?;
    let raw = numbers::offset32(slices::quad(payload, 0));
    Ok(Event::Change(Change::Conversion(raw)))
}

// How many bytes the read count of a form has.
fn head(form: Form) -> usize
    ensures value { result ≡ head_of form }
    ensures small { result ≤ 2 }
{
    match form {
        Form::Short => 1,
        Form::Long => 2,
    }
}

// How many bytes are read in a form at most, and how many the master sends.
fn limit(form: Form) -> usize
    ensures value { result ≡ limit_of form }
    ensures small { result ≤ 256 }
{
    match form {
        Form::Short => 64,
        Form::Long => 256,
    }
}

fn read_count(form: Form, payload: &[u8]) -> u16
    requires { head_of form ≤ length payload.now }
    ensures { result ≡ read_count form payload.now }
{
    match form {
        Form::Short => u16::from(payload[0]),
        Form::Long => slices::pair(payload, 0),
    }
}

// The read count, which the room that is left must hold, and what the master bytes after it ask.
fn transaction_taken(
    form: Form,
    loaded: bool,
    room: usize,
    payload: &[u8],
) -> Result<Event, Refusal>
    ensures { result ≡ fitted_of room (taken_by false (Kind.Transaction form) loaded payload.now) }
{
    let start = head(form);
    let most = limit(form);
    check_size((start..=start + most).contains(&payload.len()))?;
    check_due(loaded)?;
    let count = read_count(form, payload);
    let n = count as usize;
    if most < n {
        return Err(Refusal::Count);
    }
    if room < n {
        return Err(Refusal::Room);
    }
    Ok(Event::Transact(bus::asked(start as u32, count, &payload[start..])))
}

fn power_on_taken(loaded: bool, payload: &[u8]) -> Result<Event, Refusal>
    ensures { result ≡ taken_by false Kind.PowerOn loaded payload.now }
{
    check_size(payload.is_empty())?;
    check_due(loaded)?;
    Ok(Event::Change(Change::PowerOn))
}

// A sample, which comes 1 to 64 ticks after the one remembered.
fn sample_taken(loaded: bool, last: Tick, payload: &[u8]) -> Result<Event, Refusal>
    ensures { result ≡ timed_of last (taken_by false Kind.Sample loaded payload.now) }
{
    check_size(payload.len() == 6)?;
    check_due(loaded)?;
    let current = numbers::offset32(slices::quad(payload, 0));
    let tick = slices::pair(payload, 4);
    if !state::timely(last, tick) {
        return Err(Refusal::Interval);
    }
    Ok(Event::Change(Change::Sample(current, tick)))
}

// The event of a record of a kind, or the first refusal that applies, with a tick that is remembered and so many bytes of reply room left; an
// image by whether another pack has its address.
pub fn fitted_by(
    kind: Kind,
    again: bool,
    loaded: bool,
    last: Tick,
    room: usize,
    payload: &[u8],
) -> Result<Event, Refusal>
    ensures { result ≡ fitted_of room (timed_of last (taken_by again kind loaded payload.now)) }
{
    match kind {
        Kind::Image(profile) => image_taken(profile, again, loaded, payload),
        Kind::Reading => reading_taken(loaded, payload),
        Kind::Conversion => conversion_taken(loaded, payload),
        Kind::Transaction(form) => transaction_taken(form, loaded, room, payload),
        Kind::PowerOn => power_on_taken(loaded, payload),
        Kind::Sample => sample_taken(loaded, last, payload),
        Kind::Unknown => Err(Refusal::Kind),
    }
}

// The same of a record of a plain session.
#[tactic(auto, unfolding(crate::specs::Record::taken_of))]
pub fn fitted(
    kind: u16,
    loaded: bool,
    last: Tick,
    room: usize,
    payload: &[u8],
) -> Result<Event, Refusal>
    ensures { result ≡ fitted_of room (timed_of last (taken_of kind loaded payload.now)) }
{
    fitted_by(kind_of(kind), false, loaded, last, room, payload)
}
