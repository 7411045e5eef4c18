// Whom a transaction selects, and the bytes that it is answered with.
#![tactic(auto)]

ghost use Rattle.std.specs.Prelude.{◌≡◌, ◌++◌, ◌+◌, ◌%◌, ◌≤◌, ◌<◌, length, get_or, drop};
ghost use Rattle.state.specs.State.{MeterWf};
ghost use Rattle.registers.specs.Registers.{registers_of};
ghost use Rattle.replies.specs.Reply.{selected_of, read_source_of, net_source_of, reply_source_of, read_byte, net_byte, over_of, source_byte, listed};
ghost use Rattle.replies.specs.Reply.{replied_of};

use bus::{Command, Rom, Transaction};
use registers::Pair;
use state::{Block, Common, Label, Meter};

// Where a reply's bytes come from: the net address, the map from an address on, or nowhere.
#[derive(Clone, Copy)]
pub enum Source {
    Address,
    Bytes(u8),
    Idle,
}

// ---- whom it selects

// Whether the gauge with this address is selected: by CCh, or by 55h and its own address.
#[tactic(auto, unfolding(crate::specs::Reply::selected_of))]
pub fn selected(address: [u8; 8], transaction: Transaction, master: &[u8]) -> bool
    ensures { result ≡ selected_of address transaction master.now }
{
    match transaction.rom {
        Rom::Skip => true,
        Rom::Match => bus::own(address, master),
        Rom::Net33 | Rom::Net39 | Rom::Quiet => false,
    }
}

// ---- where the reply comes from

fn read_source(command: Command, a: u8) -> Source
    ensures { result ≡ read_source_of command a }
{
    match command {
        Command::Read => Source::Bytes(a),
        _ => Source::Idle,
    }
}

fn net_source(rom: Rom, rnaop: bool) -> Source
    ensures { result ≡ net_source_of rom rnaop }
{
    match rom {
        Rom::Net33 if !rnaop => Source::Address,
        Rom::Net39 if rnaop => Source::Address,
        _ => Source::Idle,
    }
}

// Where the reply of a gauge that is chosen or not comes from; RNAOP is in the shadow bytes of block 1.
fn reply_source(shadow: &[u8; 32], transaction: Transaction, chosen: bool) -> Source
    ensures { result ≡ reply_source_of chosen shadow.now transaction }
{
    if chosen {
        read_source(transaction.command, transaction.address)
    } else {
        net_source(transaction.rom, params::rnaop(shadow))
    }
}

// ---- the reply, which fills a room

// FFh alone.
pub fn fill_ones(room: &mut [u8])
    ensures { room.new ≡ listed (λ i. 0xff) 0 (length room.old) }
{
    room.fill(0xff);
}

// The address, then FFh where the room goes on.
fn net_reply(address: [u8; 8], room: &mut [u8])
    ensures { room.new ≡ listed (net_byte address) 0 (length room.old) }
{
    if 8 < room.len() {
        fill_ones(room);
    }
    slices::laid(room, 0, 0, &address);
}

// One function that lays any array over a room proves, but then the arrays stay in memory: a read of 2 bytes takes 182 instructions more.

// What stands from 60h on, laid over a room that stands from the address a upward, where that ends above it.
#[tactic(auto, using(slices::proofs::Laws::laid_none))]
fn block_laid(block: Block, a: usize, room: &mut [u8])
    requires { a < 256 }
    ensures room_after { room.new ≡ over_of 0x60 block.shadow a room.old }
    ensures sized { length block.shadow ≡ 32 }
{
    if 0x60 < a + room.len() {
        slices::laid(room, a, 0x60, &block.shadow);
    }
}

// What stands from 20h on.
fn label_laid(label: Label, a: usize, room: &mut [u8])
    requires { a < 256 }
    ensures room_after { room.new ≡ over_of 0x20 label.shadow a room.old }
    ensures sized { length label.shadow ≡ 16 }
{
    slices::laid(room, a, 0x20, &label.shadow);
}

// What stands from 00h on: the registers, which are worked out only where the room starts among them.
#[tactic(auto, using(slices::proofs::Laws::laid_none, registers::proofs::Meaning::registers_length))]
fn registers_laid(common: Common, meter: Meter, a: usize, room: &mut [u8])
    requires meter_wf { MeterWf meter }
    requires a_bound { a < 256 }
    ensures { room.new ≡ over_of 0x00 (registers_of common meter) a room.old }
{
    if a < 0x20 {
        slices::laid(room, a, 0x00, &registers::registers(common, meter));
    }
}

// A register, or a byte of one, the usual read: no other is worked out.
fn register_reply(common: Common, meter: Meter, a: usize, room: &mut [u8])
    requires meter_wf { MeterWf meter }
    requires a_bound { (a < 0x20) × (a % 2 + length room.old ≤ 2) }
    ensures { room.new ≡ listed (λ i. get_or (registers_of common meter) (a + i) 0) 0 (length room.old) }
{
    let pair = registers::register(common, meter, a - a % 2);
    if room.len() == 2 {
        room[0] = pair.high;
        room[1] = pair.low;
    } else if room.len() == 1 {
        room[0] = if a % 2 == 0 { pair.high } else { pair.low };
    }
}

// The map from the address a upward: a room that ends among the registers is filled by these alone.
fn read_reply(common: Common, label: Label, meter: Meter, a: usize, room: &mut [u8])
    requires meter_wf { MeterWf meter }
    requires a_bound { a < 256 }
    ensures { room.new ≡ listed (λ i. read_byte common label meter (a + i)) 0 (length room.old) }
{
    if a < 0x20 && a % 2 + room.len() <= 2 {
        register_reply(common, meter, a, room);
        return;
    }
    if 0x20 < a + room.len() {
        fill_ones(room);
        block_laid(meter.cells.block, a, room);
        label_laid(label, a, room);
    }
    registers_laid(common, meter, a, room);
}

#[tactic(auto, unfolding(crate::specs::Reply::source_byte))]
fn filled(common: Common, label: Label, meter: Meter, source: Source, room: &mut [u8])
    requires { MeterWf meter }
    ensures { room.new ≡ listed (source_byte common label meter source) 0 (length room.old) }
{
    match source {
        Source::Address => net_reply(common.address, room),
        Source::Bytes(a) => read_reply(common, label, meter, usize::from(a), room),
        Source::Idle => fill_ones(room),
    }
}

// The reply of a gauge that is chosen or not goes to the front of the room, exactly the read count of bytes. (Its parts and no gauge, here and above: a
// tray has them in three arrays, and `Gauge` stands in a crate above this one.)
pub fn replied(
    common: Common,
    label: Label,
    meter: Meter,
    transaction: Transaction,
    chosen: bool,
    room: &mut [u8],
)
    requires meter_wf { MeterWf meter }
    requires count_in_bounds { transaction.count ≤ length room.old }
    ensures { room.new ≡ replied_of chosen common label meter transaction ++ drop transaction.count room.old }
{
    let n = transaction.count as usize;
    let source = reply_source(&meter.cells.block.shadow, transaction, chosen);
    filled(common, label, meter, source, &mut room[..n]);
}
