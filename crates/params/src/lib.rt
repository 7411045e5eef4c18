// The parameters, out of the shadow bytes of block 1.
#![tactic(auto)]

ghost use Rattle.std.specs.Prelude.{◌≡◌, ◌+◌, ◌≤◌};
ghost use Rattle.numbers.specs.Offset.{joined_of};
ghost use Rattle.params.specs.Params.{rnaop_of, counting_of, limits_of, capacity_of, breaks_of, curves_of, slopes_of};

// NBEN, AB, AC and COB.
#[derive(Clone, Copy)]
pub struct Counting {
    pub nben: bool,
    pub ab: u8,
    pub ac: u16,
    pub cob: u8,
}

#[derive(Clone, Copy)]
pub struct Limits {
    pub vchg: u8,
    pub imin: u8,
    pub vae: u8,
    pub iae: u8,
}

#[derive(Clone, Copy)]
pub struct Capacity {
    pub rsnsp: u8,
    pub full40: u16,
}

// TBP34, TBP23 and TBP12.
#[derive(Clone, Copy)]
pub struct Breaks {
    pub b34: u8,
    pub b23: u8,
    pub b12: u8,
}

// The slopes of a line, by segment. (As four bytes they would be passed as one number, out of which each is shifted.)
#[derive(Clone, Copy)]
pub struct Slopes {
    pub s4: u32,
    pub s3: u32,
    pub s2: u32,
    pub s1: u32,
}

// The breakpoints, byte 68h, and the slopes of the three lines.
#[derive(Clone, Copy)]
pub struct Curves {
    pub breaks: Breaks,
    pub start: u8,
    pub full: Slopes,
    pub ae: Slopes,
    pub se: Slopes,
}

pub fn rnaop(shadow: &[u8; 32]) -> bool
    ensures { result ≡ rnaop_of shadow.now }
{
    shadow[0] / 16 % 2 == 1
}

// Two bytes as one number, the high one first. (No `from_be_bytes`, which reads both at once: the compiler then keeps the block in smaller pieces, and a
// power-on takes 25 instructions more.)
fn joined(high: u8, low: u8) -> u16
    ensures { result ≡ joined_of high low }
{
    u16::from(high) * 256 + u16::from(low)
}

impl Counting {
    #[tactic(auto, using(crate::proofs::Laws::last_of_four))]
    pub fn of(shadow: &[u8; 32]) -> Counting
        ensures { result ≡ counting_of shadow.now }
    {
        // COB is taken with the three bytes before it: read alone, it is kept apart from them, and each transaction packs and unpacks the four.
        let tail: [u8; 4] = slices::array_at(shadow, 24);
        Counting {
            nben: 128 <= shadow[0],
            ab: numbers::offset8(shadow[1]),
            ac: joined(shadow[2], shadow[3]),
            cob: numbers::offset8(tail[3]),
        }
    }
}

impl Limits {
    pub fn of(shadow: &[u8; 32]) -> Limits
        ensures { result ≡ limits_of shadow.now }
    {
        Limits {
            vchg: shadow[4],
            imin: shadow[5],
            vae: shadow[6],
            iae: shadow[7],
        }
    }
}

impl Capacity {
    pub fn of(shadow: &[u8; 32]) -> Capacity
        ensures { result ≡ capacity_of shadow.now }
    {
        Capacity {
            rsnsp: shadow[9],
            full40: joined(shadow[10], shadow[11]),
        }
    }
}

impl Breaks {
    pub fn of(shadow: &[u8; 32]) -> Breaks
        ensures { result ≡ breaks_of shadow.now }
    {
        Breaks {
            b34: numbers::offset8(shadow[28]),
            b23: numbers::offset8(shadow[29]),
            b12: numbers::offset8(shadow[30]),
        }
    }
}

impl Slopes {
    // The index is the address in its definition, less 60h.
    fn of(shadow: &[u8; 32], at: usize) -> Slopes
        requires { at ≤ 28 }
        ensures { result ≡ slopes_of shadow.now (0x60 + at) }
    {
        Slopes {
            s4: u32::from(shadow[at]),
            s3: u32::from(shadow[at + 1]),
            s2: u32::from(shadow[at + 2]),
            s1: u32::from(shadow[at + 3]),
        }
    }
}

impl Curves {
    pub fn of(shadow: &[u8; 32]) -> Curves
        ensures { result ≡ curves_of shadow.now }
    {
        Curves {
            breaks: Breaks::of(shadow),
            start: shadow[8],
            full: Slopes::of(shadow, 12),
            ae: Slopes::of(shadow, 16),
            se: Slopes::of(shadow, 20),
        }
    }
}
