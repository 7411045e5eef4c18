// What the master's bytes ask of a gauge.
#![tactic(auto)]

ghost use Rattle.std.specs.Prelude.{◌≡◌, ◌<◌, length};
ghost use Rattle.bus.specs.Ask.{rom_by, rom_of, command_of, plain_of, asked_at, asked_of, AllBytes, own_of};
ghost use Rattle.std.specs.Int.{from_le_bytes, w64};

// What the first master byte says: a net address read by 33h or 39h, Skip, Match, or nothing.
#[derive(Clone, Copy)]
pub enum Rom {
    Net33,
    Net39,
    Skip,
    Match,
    Quiet,
}

// The five function commands, or none.
#[derive(Clone, Copy)]
pub enum Command {
    Read,
    Write,
    Copy,
    Recall,
    Lock,
    Nothing,
}

// A transaction, taken apart: where in its record's payload the master bytes start, where in these those to be written start, whom it
// selects, what it asks there, and how many bytes are read. (With a `start` of one byte it would have just eight, which the compiler packs into
// one number wherever it is passed.)
#[derive(Clone, Copy)]
pub struct Transaction {
    pub start: u32,
    pub from: u8,
    pub rom: Rom,
    pub address: u8,
    pub command: Command,
    pub count: u16,
}

impl From<u8> for Rom {
    #[tactic(auto, unfolding(crate::specs::Ask::rom_by))]
    fn from(b: u8) -> Rom
        ensures { result ≡ rom_by b }
    {
        match b {
            0x33 => Rom::Net33,
            0x39 => Rom::Net39,
            0xcc => Rom::Skip,
            0x55 => Rom::Match,
            _ => Rom::Quiet,
        }
    }
}

impl From<u8> for Command {
    #[tactic(auto, unfolding(crate::specs::Ask::command_of))]
    fn from(b: u8) -> Command
        ensures { result ≡ command_of b }
    {
        match b {
            0x69 => Command::Read,
            0x6c => Command::Write,
            0x48 => Command::Copy,
            0xb8 => Command::Recall,
            0x6a => Command::Lock,
            _ => Command::Nothing,
        }
    }
}

fn rom_of(master: &[u8]) -> Rom
    ensures { result ≡ rom_of master.now }
{
    match master {
        [] => Rom::Quiet,
        [b, ..] => Rom::from(*b),
    }
}

// A transaction with no function command.
fn plain(start: u32, count: u16, rom: Rom) -> Transaction
    ensures { result ≡ plain_of start count rom }
{
    Transaction {
        start,
        from: 0,
        address: 0,
        rom,
        command: Command::Nothing,
        count,
    }
}

fn asked_at(start: u32, count: u16, rom: Rom, at: u8, master: &[u8]) -> Transaction
    requires { at < 16 }
    ensures { result ≡ asked_at start count rom at master.now }
{
    let i = at as usize;
    if master.len() < i + 2 {
        return plain(start, count, rom);
    }
    Transaction {
        start,
        from: at + 2,
        address: master[i + 1],
        rom,
        command: Command::from(master[i]),
        count,
    }
}

// What the master bytes ask, which start so far into a payload, where count bytes are read.
pub fn asked(start: u32, count: u16, master: &[u8]) -> Transaction
    ensures { result ≡ asked_of start count master.now }
{
    match rom_of(master) {
        Rom::Skip => asked_at(start, count, Rom::Skip, 1, master),
        Rom::Match => asked_at(start, count, Rom::Match, 9, master),
        rom => plain(start, count, rom),
    }
}

// Eight bytes as one number. That each is below 256 is said too: so equal numbers have the same bytes.
fn number(bytes: &[u8; 8]) -> u64
    ensures value { result ≡ from_le_bytes w64 bytes.now }
    ensures eight { length bytes.now ≡ 8 }
    ensures bounded { AllBytes bytes.now }
{
    u64::from_le_bytes(*bytes)
}

// Whether the 8 bytes after the first are the own address. (As numbers they are compared at once; `==` of arrays goes byte by byte.)
pub fn own(address: [u8; 8], master: &[u8]) -> bool
    ensures { result ≡ own_of address master.now }
{
    match master {
        [_, rest @ ..] => match rest.first_chunk() {
            Some(named) => number(named) == number(&address),
            None => false,
        },
        [] => false,
    }
}
