// Offset form, and a number moved into bounds: none traps, and none has a `requires`.
#![tactic(auto)]

ghost use Rattle.std.specs.Prelude.{◌≡◌, max};
ghost use Rattle.numbers.specs.Offset.{moved_into, offset8_of, offset32_of};

// What 0 is kept as where z is kept as z + 2^k: k = 31 in a raw count, 15 in a current, 10 in a temperature, 7 in a signed byte.
pub const ZERO31: u32 = 0x8000_0000;

pub const ZERO15: u16 = 0x8000;

pub const ZERO10: u16 = 0x400;

pub const ZERO7: u8 = 0x80;

// x moved into low..high; where low is above high it gives low.
pub fn moved_into(low: u8, high: u8, x: u64) -> u8
    ensures { result ≡ moved_into low high x }
{
    x.min(u64::from(high)).max(u64::from(low)) as u8
}

// A byte in two's complement, z or z + 2^8, as z + 2^7. (No generic function, here and below: a trait of words with an impl for each size proves, but
// has three times the lines of these two.)
pub fn offset8(b: u8) -> u8
    ensures { result ≡ offset8_of b }
{
    b.wrapping_add(ZERO7)
}

// A 32-bit word in two's complement, z or z + 2^32, as z + 2^31.
pub fn offset32(x: u32) -> u32
    ensures { result ≡ offset32_of x }
{
    x.wrapping_add(ZERO31)
}
