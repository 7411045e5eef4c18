// What the gauge remembers: every struct below `Gauge`, what tells the two profiles apart, the ticks of samples, and a power-on.
#![tactic(auto)]

ghost use Rattle.std.specs.Prelude.{◌≡◌, ◌≤◌};
ghost use Rattle.state.specs.State.{family_of, image_size_of, blanking_edge_of, counts_cycles, MeterWf, powered_of, restarted_of, elapsed_of, timely_of};

#[derive(Clone, Copy)]
pub enum Profile {
    Ds2781,
    Ds2775,
}

// The first byte of the net address.
pub fn family(profile: Profile) -> u8
    ensures { result ≡ family_of profile }
{
    match profile {
        Profile::Ds2781 => 0x3d,
        Profile::Ds2775 => 0x32,
    }
}

// How many bytes an image has.
pub fn image_size(profile: Profile) -> usize
    ensures value { result ≡ image_size_of profile }
    ensures near { (60 ≤ result) × (result ≤ 61) }
{
    match profile {
        Profile::Ds2781 => 60,
        Profile::Ds2775 => 61,
    }
}

// How far below 0 blanking ends.
pub fn blanking_edge(profile: Profile) -> u16
    ensures value { result ≡ blanking_edge_of profile }
    ensures small { result ≤ 17 }
{
    match profile {
        Profile::Ds2781 => 16,
        Profile::Ds2775 => 17,
    }
}

// Whether there is a cycle counter.
pub fn counts_cycles(profile: Profile) -> bool
    ensures { result ≡ counts_cycles profile }
{
    matches!(profile, Profile::Ds2775)
}

// The tick of the last sample since power-on; `any`: there was one. (No Option: bytes of a state may hold any value beside a flag of 0, and by `undoing`
// of `state_bytes` the same bytes come out.)
#[derive(Clone, Copy)]
pub struct Tick {
    pub any: bool,
    pub last: u16,
}

// How many intervals a sample with this tick covers.
pub fn elapsed(tick: Tick, now: u16) -> u16
    ensures { result ≡ elapsed_of tick now }
{
    if tick.any {
        now.wrapping_sub(tick.last)
    } else {
        1
    }
}

// Whether these are 1 to 64, so that the sample is taken.
#[tactic(auto, unfolding(crate::specs::State::timely_of))]
pub fn timely(tick: Tick, now: u16) -> bool
    ensures { result ≡ timely_of tick now }
{
    (1..=64).contains(&elapsed(tick, now))
}

// The net address and BL0: changed only by an image and by a lock of block 0.
#[derive(Clone, Copy)]
pub struct Common {
    pub address: [u8; 8],
    pub bl0: bool,
}

// Block 0, the label: its shadow and its EEPROM.
#[derive(Clone, Copy)]
pub struct Label {
    pub shadow: [u8; 16],
    pub eeprom: [u8; 16],
}

// Block 1, the parameters: its shadow and its EEPROM.
#[derive(Clone, Copy)]
pub struct Block {
    pub shadow: [u8; 32],
    pub eeprom: [u8; 32],
}

// The saved cells: ACR, AS and the cycle counter.
#[derive(Clone, Copy)]
pub struct Saved {
    pub acr: u16,
    pub aging: u8,
    pub cycles: u8,
}

// LOCK and BL1.
#[derive(Clone, Copy)]
pub struct Locks {
    pub lock: bool,
    pub bl1: bool,
}

// What writes, copy, recall, lock and the save change, and the profile, which nothing changes. (The order of fields, here and below: docs/SPEED.md.)
#[derive(Clone, Copy)]
pub struct Cells {
    pub saved: Saved,
    pub profile: Profile,
    pub locks: Locks,
    pub block: Block,
}

// ACR × 4,096 + fraction, AS, LEARNF, the mark after an ACR write and the age counter. (Side by side, count and age would be passed as one
// number of eight bytes. Its bounds, as those of a meter, are clauses and no invariant of the type: definitions build charges of any numbers, and taking
// an image or a state out asks nothing.)
#[derive(Clone, Copy)]
pub struct Charge {
    pub aging: u8,
    pub count: u32,
    pub learnf: bool,
    pub mark: bool,
    pub age: u32,
}

// The cycle counter of a DS2775, and how far ACR fell since its last step; 0 in every other pack.
#[derive(Clone, Copy)]
pub struct Cycles {
    pub count: u8,
    pub rest: u32,
}

// CURRENT and the c before it; `any`: there was a conversion, `two`: there were two. (No Options: as with a tick. The order of fields: docs/SPEED.md.)
#[derive(Clone, Copy)]
pub struct Trace {
    pub two: bool,
    pub before: u16,
    pub last: u16,
    pub any: bool,
}

// The conversions since power-on, modulo 1,024, which modulo 8 are those of the run of eight; the sum of their c; IAVG, and whether there is one.
// (No Option: as with a tick.)
#[derive(Clone, Copy)]
pub struct Average {
    pub sum: u32,
    pub made: u16,
    pub known: bool,
    pub iavg: u16,
}

// The readings since the previous IAVG: whether there is one, and their lowest VOLT. (No Option: as with a tick.)
#[derive(Clone, Copy)]
pub struct Since {
    pub any: bool,
    pub lowest: u16,
}

// The flow of currents: the last two, how many and the run of eight, the readings since it began, and the tick of the last sample.
#[derive(Clone, Copy)]
pub struct Flow {
    pub trace: Trace,
    pub since: Since,
    pub average: Average,
    pub tick: Tick,
}

// The lines of the model at the last temperature: FULL, AE and SE.
#[derive(Clone, Copy)]
pub struct Model {
    pub full: u16,
    pub ae: u16,
    pub se: u16,
}

#[derive(Clone, Copy)]
pub struct Results {
    pub rarc: u8,
    pub rsrc: u8,
    pub raac: u16,
    pub rsac: u16,
}

// VOLT and TEMP as counts, and whether there was a reading since power-on. (No Option: as with a tick.)
#[derive(Clone, Copy)]
pub struct Reading {
    pub volt: u16,
    pub temp: u16,
    pub known: bool,
}

#[derive(Clone, Copy)]
pub struct Flags {
    pub aef: bool,
    pub chgtf: bool,
    pub sef: bool,
    pub porf: bool,
}

// What a reading shows, and the flags.
#[derive(Clone, Copy)]
pub struct Shown {
    pub model: Model,
    pub results: Results,
    pub reading: Reading,
    pub flags: Flags,
}

#[derive(Clone, Copy)]
pub struct Meter {
    pub cells: Cells,
    pub charge: Charge,
    pub flow: Flow,
    pub cycles: Cycles,
    pub shown: Shown,
}

impl Meter {
    // The meter that cells power on to: of them it takes the profile, the EEPROM, BL1 and what is saved.
    #[tactic(auto, using(crate::proofs::Laws::power_wf), unfolding(crate::specs::State::powered_of))]
    pub fn powered(cells: Cells) -> Meter
        ensures value { result ≡ powered_of cells }
        ensures kept { MeterWf result }
    {
        // An array goes through a variable: the check covers none that is put straight from one field into another.
        let eeprom = cells.block.eeprom;
        let saved = cells.saved;
        Meter {
            cells: Cells {
                block: Block {
                    shadow: eeprom,
                    eeprom,
                },
                locks: Locks {
                    lock: false,
                    bl1: cells.locks.bl1,
                },
                saved,
                profile: cells.profile,
            },
            charge: Charge {
                count: (saved.acr as u32) * 4096,
                age: 0,
                aging: numbers::moved_into(63, 128, saved.aging as u64),
                learnf: false,
                mark: false,
            },
            cycles: Cycles {
                count: saved.cycles,
                rest: 0,
            },
            flow: Flow {
                trace: Trace {
                    last: numbers::ZERO15,
                    before: numbers::ZERO15,
                    any: false,
                    two: false,
                },
                average: Average {
                    made: 0,
                    sum: 0,
                    iavg: numbers::ZERO15,
                    known: false,
                },
                since: Since {
                    any: false,
                    lowest: 0,
                },
                tick: Tick {
                    any: false,
                    last: 0,
                },
            },
            shown: Shown {
                model: Model {
                    full: 0,
                    ae: 0,
                    se: 0,
                },
                results: Results {
                    rarc: 0,
                    rsrc: 0,
                    raac: 0,
                    rsac: 0,
                },
                reading: Reading {
                    volt: 0,
                    temp: numbers::ZERO10,
                    known: false,
                },
                flags: Flags {
                    porf: true,
                    chgtf: false,
                    aef: false,
                    sef: false,
                },
            },
        }
    }

    // A power-on of the meter as it stands.
    pub fn restarted(self) -> Meter
        ensures value { result ≡ restarted_of self }
        ensures kept { MeterWf result }
    {
        let cells = self.cells;
        Meter::powered(cells)
    }
}
