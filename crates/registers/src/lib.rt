// The memory map: what a read of the registers finds.
#![tactic(auto)]

ghost use Rattle.std.specs.Prelude.{◌≡◌, ◌*◌, ◌%◌, ◌≤◌, ◌<◌};
ghost use Rattle.state.specs.State.{MeterWf};
ghost use Rattle.registers.specs.Registers.{word_of, temp_word_of, flag_of, status_of, cycle_byte, eeprom_of, pair_of, two_of, put_of, registers_of};
ghost use Rattle.registers.specs.Registers.{register_of};

use state::{Cells, Common, Cycles, Flags, Locks, Meter};

// A signed number kept as z + 2^15, in two's complement. (A name for `wrapping_add`, which says what it means.)
fn word(x: u16) -> u16
    ensures { result ≡ word_of x }
{
    x.wrapping_add(0x8000)
}

// TEMP of a temperature kept as z + 2^10.
fn temp_word(temp: u16) -> u16
    ensures { result ≡ temp_word_of temp }
{
    word(temp.wrapping_mul(32))
}

fn flag(on: bool, weight: u8) -> u8
    ensures value { result ≡ flag_of on weight }
    ensures small { result ≤ weight }
{
    if on { weight } else { 0 }
}

#[tactic(auto, unfolding(crate::specs::Registers::status_of))]
fn status(flags: Flags, learnf: bool) -> u8
    ensures { result ≡ status_of flags learnf }
{
    flag(flags.chgtf, 128)
        + flag(flags.aef, 64)
        + flag(flags.sef, 32)
        + flag(learnf, 16)
        + flag(flags.porf, 2)
}

fn cycle_byte(cells: Cells, cycles: Cycles) -> u8
    ensures { result ≡ cycle_byte cells cycles }
{
    if state::counts_cycles(cells.profile) {
        cycles.count
    } else {
        0xff
    }
}

#[tactic(auto, unfolding(crate::specs::Registers::eeprom_of))]
fn eeprom(common: Common, locks: Locks) -> u8
    ensures { result ≡ eeprom_of common locks }
{
    flag(locks.lock, 64) + flag(locks.bl1, 2) + flag(common.bl0, 1)
}

// The two bytes from an even address on: a register, or one register each. (No array: the definitions name the two.)
#[derive(Clone, Copy)]
pub struct Pair {
    pub high: u8,
    pub low: u8,
}

// A two-byte register, high byte first.
impl From<u16> for Pair {
    fn from(x: u16) -> Pair
        ensures { result ≡ pair_of x }
    {
        let [high, low] = x.to_be_bytes();
        Pair { high, low }
    }
}

// Two registers of one byte.
fn two(high: u8, low: u8) -> Pair
    ensures { result ≡ two_of high low }
{
    Pair { high, low }
}

// What stands at an even address of 00h to 1Fh and behind it: FFh where nothing stands.
#[tactic(auto, unfolding(crate::specs::Registers::registers_of))]
pub fn register(common: Common, meter: Meter, at: usize) -> Pair
    requires meter_wf { MeterWf meter }
    requires at_bound { (at < 32) × (at % 2 ≡ 0) }
    ensures { result ≡ register_of common meter at }
{
    match at {
        0x00 => two(0xff, status(meter.shown.flags, meter.charge.learnf)),
        0x02 => Pair::from(meter.shown.results.raac),
        0x04 => Pair::from(meter.shown.results.rsac),
        0x06 => two(meter.shown.results.rarc, meter.shown.results.rsrc),
        0x08 => Pair::from(word(meter.flow.average.iavg)),
        0x0a => Pair::from(temp_word(meter.shown.reading.temp)),
        0x0c => Pair::from(meter.shown.reading.volt * 32),
        0x0e => Pair::from(word(meter.flow.trace.last)),
        0x10 => Pair::from((meter.charge.count / 4096) as u16),
        0x12 => Pair::from((meter.charge.count % 4096 * 16) as u16),
        0x14 => two(meter.charge.aging, 0x00),
        0x16 => Pair::from(meter.shown.model.full),
        0x18 => Pair::from(meter.shown.model.ae),
        0x1a => Pair::from(meter.shown.model.se),
        0x1c => two(0xff, 0xff),
        _ => two(
            cycle_byte(meter.cells, meter.cycles),
            eeprom(common, meter.cells.locks),
        ),
    }
}

// At its address, as in its definition: a register is asked for by address, and none stands "behind what is written".
fn put(bytes: &mut [u8; 32], at: usize, pair: Pair)
    requires { at < 31 }
    ensures { bytes.new ≡ put_of bytes.old at pair }
{
    bytes[at] = pair.high;
    bytes[at + 1] = pair.low;
}

// All of 00h to 1Fh. (A loop is slower: its match on the address stays a jump table, which is gone through sixteen times.)
#[tactic(auto, unfolding(crate::specs::Registers::registers_of))]
pub fn registers(common: Common, meter: Meter) -> [u8; 32]
    requires { MeterWf meter }
    ensures { result ≡ registers_of common meter }
{
    let mut bytes = [0u8; 32];
    put(&mut bytes, 0x00, register(common, meter, 0x00));
    put(&mut bytes, 0x02, register(common, meter, 0x02));
    put(&mut bytes, 0x04, register(common, meter, 0x04));
    put(&mut bytes, 0x06, register(common, meter, 0x06));
    put(&mut bytes, 0x08, register(common, meter, 0x08));
    put(&mut bytes, 0x0a, register(common, meter, 0x0a));
    put(&mut bytes, 0x0c, register(common, meter, 0x0c));
    put(&mut bytes, 0x0e, register(common, meter, 0x0e));
    put(&mut bytes, 0x10, register(common, meter, 0x10));
    put(&mut bytes, 0x12, register(common, meter, 0x12));
    put(&mut bytes, 0x14, register(common, meter, 0x14));
    put(&mut bytes, 0x16, register(common, meter, 0x16));
    put(&mut bytes, 0x18, register(common, meter, 0x18));
    put(&mut bytes, 0x1a, register(common, meter, 0x1a));
    put(&mut bytes, 0x1c, register(common, meter, 0x1c));
    put(&mut bytes, 0x1e, register(common, meter, 0x1e));
    bytes
}
