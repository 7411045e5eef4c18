// Bytes in and out of slices: what every layer above copies and reads numbers with.
#![tactic(auto)]

ghost use Rattle.std.specs.Prelude.{◌≡◌, ◌+◌, ◌<◌, ◌≤◌, length};
ghost use Rattle.slices.specs.Slices.{part, put, laid_of, Stored, pair_at, quad_at};

// The functions with an index take it as the layouts do, whose theorems name it (`Layout.at`, `Stored`). With the slice from there on each caller would cut
// it, and each proof cross the cut: no plainer.

// Writes src into dst from the index at on; the rest of dst stays.
pub fn store(src: &[u8], dst: &mut [u8], at: usize)
    requires { at + length src.now ≤ length dst.old }
    ensures { dst.new ≡ put dst.old at src.now }
{
    // No `copy_from_slice`, which is a call where the length is not known: a line of the answers takes 20 instructions more.
    for i in 0..src.len() {
        dst[at + i] = src[i];
    }
}

// Lays the bytes that are written from the address a upward over an array that stands from the address low upward: those that fall into it.
pub fn laid(array: &mut [u8], low: usize, a: usize, bytes: &[u8])
    requires { (low < 256) × (a < 256) }
    ensures { array.new ≡ laid_of low (low + length array.old) array.old a bytes.now }
{
    let first = a.max(low);
    let past = (a + bytes.len()).min(low + array.len());
    if first < past {
        let from = first - a;
        let to = past - a;
        store(&bytes[from..to], array, first - low);
    }
}

// The N bytes from the index at on.
pub fn array_at<const N: usize>(bytes: &[u8], at: usize) -> [u8; N]
    requires { at + N ≤ length bytes.now }
    ensures { result ≡ part N bytes.now at }
{
    let mut taken = [0u8; N];
    store(&bytes[at..at + N], &mut taken, 0);
    taken
}

// The sixteen bytes from the index at on, by halves: what is stored by eights the compiler need not keep in memory. With `array_at` a label
// write takes 25 instructions more.
pub fn sixteen(bytes: &[u8], at: usize) -> [u8; 16]
    requires { at + 16 ≤ length bytes.now }
    ensures { result ≡ part 16 bytes.now at }
{
    let low: [u8; 8] = array_at(bytes, at);
    let high: [u8; 8] = array_at(bytes, at + 8);
    let mut taken = [0u8; 16];
    store_array(low, &mut taken, 0);
    store_array(high, &mut taken, 8);
    taken
}

// Writes the bytes into dst from the index at on; the rest of dst stays.
pub fn store_array<const N: usize>(array: [u8; N], dst: &mut [u8], at: usize)
    requires { at + N ≤ length dst.old }
    ensures { Stored N array.entry dst.old at dst.new }
{
    store(&array, dst, at);
}

// The number of two bytes at the index at, the low byte first. (No generic function, here and below: a trait would have these two bodies in its impls.)
pub fn pair(bytes: &[u8], at: usize) -> u16
    requires { at + 2 ≤ length bytes.now }
    ensures { result ≡ pair_at bytes.now at }
{
    u16::from_le_bytes(array_at(bytes, at))
}

// The number of four bytes at the index at, the low byte first.
pub fn quad(bytes: &[u8], at: usize) -> u32
    requires { at + 4 ≤ length bytes.now }
    ensures { result ≡ quad_at bytes.now at }
{
    u32::from_le_bytes(array_at(bytes, at))
}
