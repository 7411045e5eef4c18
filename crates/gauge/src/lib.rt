// The gauge: its events, what a transaction does, and its image, in and out.
#![tactic(auto)]

ghost use Rattle.std.specs.Prelude.{◌≡◌, ◌++◌, ◌≤◌, ◌<◌, length, drop};
ghost use Rattle.gauge.specs.Gauge.{GaugeWf, conversion_of, sampling_of, reading_of, power_on_of, written_of, copied_of, recalled_of, locked_of};
ghost use Rattle.gauge.specs.Act.{can_change, ran_of, act_of, reply_of};
ghost use Rattle.slices.specs.Slices.{put};
ghost use Rattle.state.specs.State.{image_size_of};
ghost use Rattle.record.specs.Image.{cycles_at, image_cycles};
ghost use Rattle.gauge.specs.Image.{image_of, lock_byte, cells_of, tail_of, cycle_cell, ImageOut};

use bus::{Command, Transaction};
use record::{ACR_AT, ADDRESS_AT, AGING_AT, BLOCK_AT, CYCLES_AT, LABEL_AT, LOCKS_AT, Refusal};
use state::{Block, Cells, Common, Label, Locks, Meter, Profile, Saved};

// (The order of fields: docs/SPEED.md.)
#[derive(Clone, Copy)]
pub struct Gauge {
    pub label: Label,
    pub common: Common,
    pub meter: Meter,
}

// ---- conversion, sample, reading, power-on

impl Gauge {
    // A conversion of a signed 32-bit raw current, which comes as z + 2^31.
    pub fn convert(mut self, raw: u32) -> Gauge
        requires { GaugeWf self }
        ensures value { result ≡ conversion_of self raw }
        ensures kept { GaugeWf result }
    {
        self.meter = conversion::convert(self.meter, raw);
        self
    }

    // A sample of such a raw current, with its tick.
    pub fn sample(mut self, raw: u32, tick: u16) -> Gauge
        requires { GaugeWf self }
        ensures value { result ≡ sampling_of self raw tick }
        ensures kept { GaugeWf result }
    {
        self.meter = samples::sample(self.meter, raw, tick);
        self
    }

    // A reading of a signed 32-bit voltage and temperature, which come as z + 2^31.
    pub fn read(mut self, volt: u32, temp: u32) -> Gauge
        requires { GaugeWf self }
        ensures value { result ≡ reading_of self volt temp }
        ensures kept { GaugeWf result }
    {
        self.meter = reading::read(self.meter, volt, temp);
        self
    }

    pub fn power_on(mut self) -> Gauge
        ensures value { result ≡ power_on_of self }
        ensures kept { GaugeWf result }
    {
        let label = label::powered(self.label);
        let meter = self.meter.restarted();
        self.label = label;
        self.meter = meter;
        self
    }
}

// ---- what a transaction does

// Whether a command can change a gauge: where it cannot, the gauge is not handed on, which would copy it.
pub fn can_change(command: Command) -> bool
    ensures { result ≡ can_change command }
{
    matches!(
        command,
        Command::Write | Command::Copy | Command::Recall | Command::Lock
    )
}

// (The four commands differ in what they call and what they hand on, and a lock in the part that it changes: one function that takes the two steps as
// closures is no plainer.)
impl Gauge {
    // 6Ch: bytes written from the address a upward.
    fn written(mut self, a: usize, bytes: &[u8]) -> Gauge
        requires gauge_wf { GaugeWf self }
        requires a_bound { a < 256 }
        ensures value { result ≡ written_of self a bytes.now }
        ensures kept { GaugeWf result }
    {
        let label = label::written(self.label, self.common.bl0, a, bytes);
        let meter = block1::meter_written(self.meter, a, bytes);
        self.label = label;
        self.meter = meter;
        self
    }

    // 48h at the address a.
    fn copied(mut self, a: usize) -> Gauge
        requires { GaugeWf self }
        ensures value { result ≡ copied_of self a }
        ensures kept { GaugeWf result }
    {
        let label = label::copied(self.label, self.common.bl0, a);
        let meter = block1::meter_copied(self.meter, a);
        self.label = label;
        self.meter = meter;
        self
    }

    // B8h at the address a.
    fn recalled(mut self, a: usize) -> Gauge
        requires { GaugeWf self }
        ensures value { result ≡ recalled_of self a }
        ensures kept { GaugeWf result }
    {
        let label = label::recalled(self.label, a);
        let meter = block1::meter_recalled(self.meter, a);
        self.label = label;
        self.meter = meter;
        self
    }

    // 6Ah at the address a.
    fn locked(mut self, a: usize) -> Gauge
        requires { GaugeWf self }
        ensures value { result ≡ locked_of self a }
        ensures kept { GaugeWf result }
    {
        self.common = label::locked(self.common, self.meter.cells.locks.lock, a);
        self.meter = block1::meter_locked(self.meter, a);
        self
    }

    // The function command of a transaction that is selected.
    pub fn ran(self, transaction: Transaction, master: &[u8]) -> Gauge
        requires { GaugeWf self }
        ensures value { result ≡ ran_of self transaction master.now }
        ensures kept { GaugeWf result }
    {
        let a = usize::from(transaction.address);
        match transaction.command {
            Command::Write => {
                let from = usize::from(transaction.from).min(master.len());
                self.written(a, &master[from..])
            }
            Command::Copy => self.copied(a),
            Command::Recall => self.recalled(a),
            Command::Lock => self.locked(a),
            Command::Read | Command::Nothing => self,
        }
    }

    // A transaction: its reply goes to the front of the room, exactly its read count of bytes.
    pub fn transact(mut self, transaction: Transaction, master: &[u8], room: &mut [u8]) -> Gauge
        requires gauge_wf { GaugeWf self }
        requires count_in_bounds { transaction.count ≤ length room.old }
        ensures value { result ≡ act_of self transaction master.now }
        ensures replied { room.new ≡ reply_of self transaction master.now ++ drop transaction.count room.old }
        ensures kept { GaugeWf result }
    {
        let chosen = replies::selected(self.common.address, transaction, master);
        replies::replied(
            self.common,
            self.label,
            self.meter,
            transaction,
            chosen,
            room,
        );
        if chosen && can_change(transaction.command) {
            self = self.ran(transaction, master);
        }
        self
    }
}

// ---- in

// The saved cycle counter, 0 where the profile has none.
fn cycles_in(profile: Profile, image: &[u8]) -> u8
    requires { length image.now ≡ image_size_of profile }
    ensures { result ≡ image_cycles profile image.now }
{
    match profile {
        Profile::Ds2781 => 0,
        Profile::Ds2775 => image[CYCLES_AT],
    }
}

// The gauge that the bytes of an image of a profile power on to.
pub fn image_in(profile: Profile, image: &[u8]) -> Gauge
    requires { length image.now ≡ image_size_of profile }
    ensures value { result ≡ image_of profile image.now }
    ensures kept { GaugeWf result }
{
    let label = slices::sixteen(image, LABEL_AT);
    let eeprom = slices::array_at(image, BLOCK_AT);
    let cells = Cells {
        profile,
        block: Block {
            shadow: eeprom,
            eeprom,
        },
        locks: Locks {
            lock: false,
            bl1: image[LOCKS_AT] / 2 % 2 == 1,
        },
        saved: Saved {
            acr: slices::pair(image, ACR_AT),
            aging: image[AGING_AT],
            cycles: cycles_in(profile, image),
        },
    };
    Gauge {
        common: Common {
            address: slices::array_at(image, ADDRESS_AT),
            bl0: image[LOCKS_AT] % 2 == 1,
        },
        label: Label {
            shadow: label,
            eeprom: label,
        },
        meter: Meter::powered(cells),
    }
}

// ---- out

fn lock_byte(bl1: bool, bl0: bool) -> u8
    ensures { result ≡ lock_byte bl1 bl0 }
{
    2 * u8::from(bl1) + u8::from(bl0)
}

// Saved ACR, low byte first, saved AS and the lock byte.
fn cells(saved: Saved, lock: u8) -> [u8; 4]
    ensures { result ≡ cells_of saved lock }
{
    let [low, high] = saved.acr.to_le_bytes();
    [low, high, saved.aging, lock]
}

fn tail(gauge: Gauge) -> [u8; 4]
    ensures { result ≡ tail_of gauge }
{
    cells(
        gauge.meter.cells.saved,
        lock_byte(gauge.meter.cells.locks.bl1, gauge.common.bl0),
    )
}

// The saved cycle counter, where the profile has one.
fn cycles_out(profile: Profile, count: u8, room: &mut [u8])
    requires { image_size_of profile ≤ length room.old }
    ensures { room.new ≡ put room.old cycles_at (cycle_cell profile count) }
{
    match profile {
        Profile::Ds2781 => {}
        Profile::Ds2775 => {
            room[CYCLES_AT] = count;
        }
    }
}

// The image goes to the first bytes of the room, and the result is how many; nothing is written where they do not fit.
pub fn image_out(gauge: Gauge, room: &mut [u8]) -> Result<usize, Refusal>
    ensures { ImageOut gauge room.old result room.new }
{
    let cells = gauge.meter.cells;
    let size = state::image_size(cells.profile);
    if room.len() < size {
        return Err(Refusal::Room);
    }
    slices::store_array(gauge.common.address, room, ADDRESS_AT);
    slices::store_array(gauge.label.eeprom, room, LABEL_AT);
    slices::store_array(cells.block.eeprom, room, BLOCK_AT);
    slices::store_array(tail(gauge), room, ACR_AT);
    cycles_out(cells.profile, cells.saved.cycles, room);
    Ok(size)
}
