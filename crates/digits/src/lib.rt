// Numbers as text: hexadecimal and decimal digits, put on a page, each behind what is written of it.
#![tactic(auto)]

ghost use Rattle.std.specs.Prelude.{◌≡◌, [], ◌∷◌, ◌+◌, ◌*◌, ◌≤◌, ◌<◌, length};
ghost use Rattle.digits.specs.Digits.{hex_of, lower, upper, letter_of, pair_text, hex_text, pairs_of, entry_text, hex_digit, hex_value, pair_value};
ghost use Rattle.digits.specs.Digits.{hex_digits, places_of, packed_pair, packed_of, short_text, fives_text, decimal_text, width_of, Blank, Appends};
ghost use Rattle.digits.specs.declared.Twos.{Twos};

// ---- hexadecimal

// The letters that ten to fifteen are shown as.
#[derive(Clone, Copy)]
pub enum Letters {
    Lower,
    Upper,
}

// The letter of ten. That it stands behind the decimal digits is said too, for what it adds to them.
fn letter(letters: Letters) -> u8
    ensures value { result ≡ letter_of letters }
    ensures behind { (58 ≤ result) × (result ≤ 97) }
{
    match letters {
        Letters::Lower => b'a',
        Letters::Upper => b'A',
    }
}

// The two digits of each byte. A loop takes the table once, since the constant is written to memory anew wherever it is named.
pub fn lower_pairs() -> [u8; 512]
    ensures { result ≡ pairs_of lower }
{
    *b"000102030405060708090a0b0c0d0e0f101112131415161718191a1b1c1d1e1f202122232425262728292a2b2c2d2e2f303132333435363738393a3b\
      3c3d3e3f404142434445464748494a4b4c4d4e4f505152535455565758595a5b5c5d5e5f606162636465666768696a6b6c6d6e6f7071727374757677\
      78797a7b7c7d7e7f808182838485868788898a8b8c8d8e8f909192939495969798999a9b9c9d9e9fa0a1a2a3a4a5a6a7a8a9aaabacadaeafb0b1b2b3\
      b4b5b6b7b8b9babbbcbdbebfc0c1c2c3c4c5c6c7c8c9cacbcccdcecfd0d1d2d3d4d5d6d7d8d9dadbdcdddedfe0e1e2e3e4e5e6e7e8e9eaebecedeeef\
      f0f1f2f3f4f5f6f7f8f9fafbfcfdfeff"
}

// A digit. What the letters add is chosen, and not the digit: of that the compiler makes less for eight at a time.
#[tactic(auto, unfolding(crate::specs::Digits::hex_of))]
pub fn hex(letters: Letters, d: u8) -> u8
    requires { d < 16 }
    ensures { result ≡ hex_of (letter_of letters) d }
{
    let more = if d < 10 {
        0
    } else {
        letter(letters) - 10 - b'0'
    };
    b'0' + d + more
}

// ---- hexadecimal in upper case, read

#[tactic(auto, unfolding(crate::specs::Digits::hex_digit))]
fn upper_digit(c: u8) -> bool
    ensures { result ≡ hex_digit upper c }
{
    (b'0' <= c && c < b'0' + 10) || (b'A' <= c && c < b'A' + 6)
}

// Whether all bytes are digits in upper case.
pub fn upper_digits(text: &[u8]) -> bool
    ensures { result ≡ hex_digits upper text.now }
{
    for c in text {
        if !upper_digit(*c) {
            return false;
        }
    }
    true
}

// The number of a digit, 0 where it is none. That it is below 16 is said too, for a pair's byte.
#[tactic(auto, unfolding(crate::specs::Digits::hex_digit, crate::specs::Digits::hex_value))]
fn upper_value(c: u8) -> u8
    ensures { (result ≡ hex_value upper c) × (result < 16) }
{
    match c {
        b'0'..=b'9' => c - b'0',
        b'A'..=b'F' => c - b'A' + 10,
        _ => 0,
    }
}

// The byte of two digits.
pub fn upper_byte(a: u8, b: u8) -> u8
    ensures { result ≡ pair_value upper a b }
{
    16 * upper_value(a) + upper_value(b)
}

// ---- decimal

// The five digits of a number.
fn places(n: usize) -> [u8; 5]
    ensures { result ≡ places_of n }
{
    [
        (48 + n / 10000 % 10) as u8,
        (48 + n / 1000 % 10) as u8,
        (48 + n / 100 % 10) as u8,
        (48 + n / 10 % 10) as u8,
        (48 + n % 10) as u8,
    ]
}

// The last four digits of a number, packed by twos: of each two the first is the lower byte, so that the compiler stores both at once.
#[derive(Clone, Copy)]
pub struct Twos {
    pub high: u16,
    pub low: u16,
}

// The last two digits of a number.
fn packed_pair(n: usize) -> u16
    ensures { result ≡ packed_pair n }
{
    ((48 + n / 10 % 10) + 0x100 * (48 + n % 10)) as u16
}

pub fn packed(n: usize) -> Twos
    ensures { result ≡ packed_of n }
{
    Twos {
        high: packed_pair(n / 100),
        low: packed_pair(n),
    }
}

// Those of n made those of n + 1: ninety-nine times of a hundred one or two of them change, and nothing is divided but by 256.
pub fn counted_up(n: usize, twos: Twos) -> Twos
    requires n_bound { n < 18446744073709551615 }
    requires twos_value { twos ≡ packed_of n }
    ensures { result ≡ packed_of (n + 1) }
{
    if twos.low < 0x3900 {
        Twos {
            high: twos.high,
            low: twos.low + 0x100,
        }
    } else if twos.low % 256 < 57 {
        Twos {
            high: twos.high,
            low: twos.low + 1 - 9 * 0x100,
        }
    } else {
        packed(n + 1)
    }
}

// The five digits of a number, of which the last four are packed.
fn unpacked(twos: Twos, n: usize) -> [u8; 5]
    requires { twos ≡ packed_of n }
    ensures { result ≡ places_of n }
{
    [
        (48 + n / 10000 % 10) as u8,
        (twos.high % 256) as u8,
        (twos.high / 256) as u8,
        (twos.low % 256) as u8,
        (twos.low / 256) as u8,
    ]
}

// ---- a page

// A lent room that is written from its front on, and how many of its bytes are written.
#[derive(Drop)]
pub struct Page<'a> {
    pub room: &'a mut [u8],
    pub used: usize,
}

impl<'a> Page<'a> {
    // A room of which nothing is written.
    pub fn new(room: &'a mut [u8]) -> Page<'a>
        ensures { Blank room.entry result }
    {
        Page { room, used: 0 }
    }

    pub fn put_byte(&mut self, b: u8)
        requires { self.old.used < length self.old.room.now }
        ensures { Appends 1 (b ∷ []) self.old self.new }
    {
        let at = self.used;
        self.room[at] = b;
        self.used = at + 1;
    }

    pub fn put_bytes(&mut self, bytes: &[u8])
        requires { self.old.used + length bytes.now ≤ length self.old.room.now }
        ensures { Appends (length bytes.now) bytes.now self.old self.new }
    {
        slices::store(bytes, self.room, self.used);
        self.used += bytes.len();
    }

    // A byte as the two digits that a table has for it. That it is below 256 is said too, for the table's rule.
    pub fn put_entry(&mut self, table: &[u8; 512], b: u8)
        requires { self.old.used + 2 ≤ length self.old.room.now }
        ensures writing { Appends 2 (entry_text table.now b) self.old self.new }
        ensures small { b < 256 }
    {
        let i = 2 * usize::from(b);
        self.put_byte(table[i]);
        self.put_byte(table[i + 1]);
    }

    fn put_pair(&mut self, letters: Letters, b: u8)
        requires { self.old.used + 2 ≤ length self.old.room.now }
        ensures { Appends 2 (pair_text (letter_of letters) b) self.old self.new }
    {
        self.put_byte(hex(letters, b / 16));
        self.put_byte(hex(letters, b % 16));
    }

    // Many bytes at once go without a table: of this the compiler makes code that takes eight at a time.
    pub fn put_pairs(&mut self, letters: Letters, bytes: &[u8])
        requires { self.old.used + 2 * length bytes.now ≤ length self.old.room.now }
        ensures { Appends (2 * length bytes.now) (hex_text (letter_of letters) bytes.now) self.old self.new }
    {
        for b in bytes {
            self.put_pair(letters, *b);
        }
    }

    // A few bytes by the table.
    fn put_few(&mut self, table: &[u8; 512], few: &[u8])
        requires table_value { table.now ≡ pairs_of lower }
        requires few_in_bounds { self.old.used + 2 * length few.now ≤ length self.old.room.now }
        ensures { Appends (2 * length few.now) (hex_text lower few.now) self.old self.new }
    {
        for b in few {
            self.put_entry(table, *b);
        }
    }

    // Bytes in lower case: by eights where there are as many, and what is left.
    pub fn put_hex(&mut self, table: &[u8; 512], bytes: &[u8])
        requires table_value { table.now ≡ pairs_of lower }
        requires bytes_in_bounds { self.old.used + 2 * length bytes.now ≤ length self.old.room.now }
        ensures { Appends (2 * length bytes.now) (hex_text lower bytes.now) self.old self.new }
    {
        if bytes.len() < 8 {
            self.put_few(table, bytes);
            return;
        }
        let eights = bytes.len() / 8 * 8;
        self.put_pairs(Letters::Lower, &bytes[..eights]);
        self.put_few(table, &bytes[eights..]);
    }

    // A number below 100,000 whose five digits are at hand: those from its first one on. How many they are is asked first, so that each stands at a known
    // distance.
    fn put_places(&mut self, five: &[u8; 5], n: usize)
        requires five_value { five.now ≡ places_of n }
        requires used_in_bounds { self.old.used + 5 ≤ length self.old.room.now }
        ensures { Appends 5 (short_text n) self.old self.new }
    {
        let all = &five[..];
        if 10000 <= n {
            self.put_bytes(all);
        } else if 1000 <= n {
            self.put_bytes(&all[1..]);
        } else if 100 <= n {
            self.put_bytes(&all[2..]);
        } else if 10 <= n {
            self.put_bytes(&all[3..]);
        } else {
            self.put_bytes(&all[4..]);
        }
    }

    pub fn put_decimal(&mut self, n: usize)
        requires n_bound { n < 100000 }
        requires used_in_bounds { self.old.used + 5 ≤ length self.old.room.now }
        ensures { Appends 5 (decimal_text n) self.old self.new }
    {
        if n < 10 {
            self.put_byte((48 + n) as u8);
            return;
        }
        let five = places(n);
        self.put_places(&five, n);
    }

    // A number of at most five digits, and so many times five more.
    fn put_fives(&mut self, more: usize, n: usize)
        requires { self.old.used + 5 * (more + 1) ≤ length self.old.room.now }
        ensures { Appends (5 * (more + 1)) (fives_text more n) self.old self.new }
    {
        let five = places(n);
        if more == 0 || n < 100000 {
            self.put_places(&five, n);
            return;
        }
        self.put_fives(more - 1, n / 100000);
        self.put_bytes(&five);
    }

    // A number of which the last four digits are packed, and which may have more than five.
    fn put_long(&mut self, high: u16, low: u16, n: usize)
        requires twos_value { ◌≡◌ {A = Twos} (record { high = high; low = low }) (packed_of n) }
        requires n_in_bounds { self.old.used + width_of n ≤ length self.old.room.now }
        ensures { Appends (width_of n) (decimal_text n) self.old self.new }
    {
        let twos = Twos { high, low };
        let five = unpacked(twos, n);
        if n < 100000 {
            self.put_places(&five, n);
            return;
        }
        self.put_fives(2, n / 100000);
        self.put_bytes(&five);
    }

    // A number of which the last four digits are packed, the two halves handed over by themselves: as one struct they would be packed once more. Most
    // numbers have no more digits, and for these no other is worked out.
    pub fn put_counted(&mut self, high: u16, low: u16, n: usize)
        requires twos_value { ◌≡◌ {A = Twos} (record { high = high; low = low }) (packed_of n) }
        requires n_in_bounds { self.old.used + width_of n ≤ length self.old.room.now }
        ensures { Appends (width_of n) (decimal_text n) self.old self.new }
    {
        if n < 10000 {
            let twos = Twos { high, low };
            let five = unpacked(twos, n);
            self.put_places(&five, n);
            return;
        }
        self.put_long(high, low, n);
    }
}
