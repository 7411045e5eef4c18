// What a write, a copy, a recall and a lock do to the meter.
#![tactic(auto)]

ghost use Rattle.std.specs.Prelude.{◌≡◌, true, ◌<◌};
ghost use Rattle.state.specs.State.{ChargeWf, MeterWf};
ghost use Rattle.block1.specs.Block1.{reaches_of, byte_for, porf_written_of, acr_written_of, lock_written_of, cycles_written_of};
ghost use Rattle.block1.specs.Block1.{block_written_of, cells_written_of, meter_written_of, block_copied_of, block_recalled_of};
ghost use Rattle.block1.specs.Block1.{reblocked_of, meter_copied_of, meter_recalled_of, locks_locked_of, meter_locked_of};

use state::{Block, Cells, Charge, Cycles, Locks, Meter};

// ---- 6Ch: bytes written from the address a upward

// Whether they reach the address x.
#[tactic(auto, unfolding(crate::specs::Block1::reaches_of))]
fn reaches(a: usize, bytes: &[u8], x: usize) -> bool
    requires { a < 256 }
    ensures { result ≡ reaches_of a bytes.now x }
{
    (a..a + bytes.len()).contains(&x)
}

// The byte for an address that they reach. (Two functions and no Option of a byte: theorems name both definitions.)
#[tactic(auto, unfolding(crate::specs::Block1::reaches_of))]
fn byte_for(a: usize, bytes: &[u8], x: usize) -> u8
    requires { reaches_of a bytes.now x ≡ true }
    ensures { result ≡ byte_for a bytes.now x }
{
    bytes[x - a]
}

// 01h.
#[tactic(auto, unfolding(crate::specs::Block1::porf_written_of))]
fn porf_written(porf: bool, a: usize, bytes: &[u8]) -> bool
    requires { a < 256 }
    ensures { result ≡ porf_written_of porf a bytes.now }
{
    if reaches(a, bytes, 0x01) {
        porf && byte_for(a, bytes, 0x01) / 2 % 2 == 1
    } else {
        porf
    }
}

// 10h and 11h.
#[tactic(auto, unfolding(crate::specs::Block1::acr_written_of))]
fn acr_written(mut charge: Charge, a: usize, bytes: &[u8]) -> Charge
    requires a_bound { a < 256 }
    requires charge_wf { ChargeWf charge }
    ensures value { result ≡ acr_written_of charge a bytes.now }
    ensures kept { ChargeWf result }
{
    if reaches(a, bytes, 0x10) && reaches(a, bytes, 0x11) {
        let acr = u16::from_be_bytes([byte_for(a, bytes, 0x10), byte_for(a, bytes, 0x11)]);
        charge.mark = true;
        conversion::set(charge, acr, false)
    } else {
        charge
    }
}

// 1Fh.
#[tactic(auto, unfolding(crate::specs::Block1::lock_written_of))]
fn lock_written(lock: bool, a: usize, bytes: &[u8]) -> bool
    requires { a < 256 }
    ensures { result ≡ lock_written_of lock a bytes.now }
{
    if reaches(a, bytes, 0x1f) {
        byte_for(a, bytes, 0x1f) / 64 % 2 == 1
    } else {
        lock
    }
}

// 1Eh: the cells say of which profile it is, and whether block 1 is locked.
#[tactic(auto, unfolding(crate::specs::Block1::cycles_written_of))]
fn cycles_written(mut cycles: Cycles, cells: Cells, a: usize, bytes: &[u8]) -> Cycles
    requires { a < 256 }
    ensures { result ≡ cycles_written_of cycles cells a bytes.now }
{
    if reaches(a, bytes, 0x1e) && state::counts_cycles(cells.profile) && !cells.locks.bl1 {
        cycles.count = byte_for(a, bytes, 0x1e);
    }
    cycles
}

// 60h to 7Fh, where the bytes end above 60h.
#[tactic(auto, using(slices::proofs::Laws::laid_none), unfolding(crate::specs::Block1::block_written_of))]
fn block_written(mut block: Block, locked: bool, a: usize, bytes: &[u8]) -> Block
    requires { a < 256 }
    ensures { result ≡ block_written_of block locked a bytes.now }
{
    if 0x60 < a + bytes.len() && !locked {
        // An array goes through a variable, here and below: the check covers none that is put straight into a field.
        let mut shadow = block.shadow;
        slices::laid(&mut shadow, 0x60, a, bytes);
        block.shadow = shadow;
    }
    block
}

fn cells_written(mut cells: Cells, a: usize, bytes: &[u8]) -> Cells
    requires { a < 256 }
    ensures { result ≡ cells_written_of cells a bytes.now }
{
    cells.block = block_written(cells.block, cells.locks.bl1, a, bytes);
    cells.locks.lock = lock_written(cells.locks.lock, a, bytes);
    cells
}

#[tactic(auto, unfolding(crate::specs::Block1::meter_written_of))]
pub fn meter_written(mut meter: Meter, a: usize, bytes: &[u8]) -> Meter
    requires meter_wf { MeterWf meter }
    requires a_bound { a < 256 }
    ensures value { result ≡ meter_written_of meter a bytes.now }
    ensures kept { MeterWf result }
{
    meter.cells = cells_written(meter.cells, a, bytes);
    if a < 0x20 {
        meter.cycles = cycles_written(meter.cycles, meter.cells, a, bytes);
        meter.charge = acr_written(meter.charge, a, bytes);
        meter.shown.flags.porf = porf_written(meter.shown.flags.porf, a, bytes);
    }
    meter
}

// ---- 48h and B8h at the address a

#[tactic(auto, unfolding(crate::specs::Block1::block_copied_of))]
fn block_copied(mut block: Block, locked: bool, a: usize) -> Block
    ensures { result ≡ block_copied_of block locked a }
{
    if label::in_block(a) && !locked {
        let shadow = block.shadow;
        block.eeprom = shadow;
    }
    block
}

#[tactic(auto, unfolding(crate::specs::Block1::block_recalled_of))]
fn block_recalled(mut block: Block, a: usize) -> Block
    ensures { result ≡ block_recalled_of block a }
{
    if label::in_block(a) {
        let eeprom = block.eeprom;
        block.shadow = eeprom;
    }
    block
}

// A meter with another block 1.
fn reblocked(mut meter: Meter, block: Block) -> Meter
    requires { MeterWf meter }
    ensures value { result ≡ reblocked_of meter block }
    ensures kept { MeterWf result }
{
    meter.cells.block = block;
    meter
}

#[tactic(auto, unfolding(crate::specs::Block1::meter_copied_of))]
pub fn meter_copied(meter: Meter, a: usize) -> Meter
    requires { MeterWf meter }
    ensures value { result ≡ meter_copied_of meter a }
    ensures kept { MeterWf result }
{
    reblocked(
        meter,
        block_copied(meter.cells.block, meter.cells.locks.bl1, a),
    )
}

#[tactic(auto, unfolding(crate::specs::Block1::meter_recalled_of))]
pub fn meter_recalled(meter: Meter, a: usize) -> Meter
    requires { MeterWf meter }
    ensures value { result ≡ meter_recalled_of meter a }
    ensures kept { MeterWf result }
{
    reblocked(meter, block_recalled(meter.cells.block, a))
}

// ---- 6Ah at the address a

fn locks_locked(locks: Locks, a: usize) -> Locks
    ensures { result ≡ locks_locked_of locks a }
{
    let one = label::in_block(a);
    Locks {
        lock: locks.lock && !(label::in_label(a) || one),
        bl1: locks.bl1 || locks.lock && one,
    }
}

#[tactic(auto, unfolding(crate::specs::Block1::meter_locked_of))]
pub fn meter_locked(mut meter: Meter, a: usize) -> Meter
    requires { MeterWf meter }
    ensures value { result ≡ meter_locked_of meter a }
    ensures kept { MeterWf result }
{
    // Field by field: at once the two would be packed into one number.
    let locks = locks_locked(meter.cells.locks, a);
    meter.cells.locks.lock = locks.lock;
    meter.cells.locks.bl1 = locks.bl1;
    meter
}
