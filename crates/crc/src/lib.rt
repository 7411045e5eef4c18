#![tactic(auto)]

ghost use Rattle.std.specs.Prelude.{◌≡◌, length};
ghost use Rattle.crc.specs.Crc.{next_of, crc_of, Ruled};

use entries::TABLE;

// The 1-Wire CRC-8: polynomial X^8+X^5+X^4+1, low bit first, start 0.
mod entries;

// The constant table as a value: 256 entries, each of them the rule's. A loop takes it once, since the constant is written to memory anew wherever it
// is named.
pub fn whole_table() -> [u8; 256]
    ensures ruled { Ruled result }
    ensures sized { length result ≡ 256 }
{
    TABLE
}

// The CRC c after the byte b.
// (An array and no struct with its rule: one function asks the rule.)
fn next(table: &[u8; 256], c: u8, b: u8) -> u8
    requires { Ruled table.now }
    ensures { result ≡ next_of c b }
{
    table[usize::from(c ^ b)]
}

// The CRC of the message.
pub fn crc(message: &[u8]) -> u8
    ensures { result ≡ crc_of message.now }
{
    let table = whole_table();
    let mut c: u8 = 0;
    for b in message {
        c = next(&table, c, *b);
    }
    c
}
