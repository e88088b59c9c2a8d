// The block check (document 01, The block): the remainder of the data by x^16 + x^12 + x^5 + 1, by half
// bytes (document 02, R-5), against the definitions of crate rules, which go bit by bit.
#![tactic(auto)]

ghost use Rattle.std.specs.Prelude.{◌≡◌, ◌<◌, false, ◌&&◌, length, replicate, eqb};
ghost use Rattle.rules.specs.Block.{bits, shifts, check_of, check_holds};
ghost use Rattle.crc.specs.Remainders.{Remainders};

// What four bits leave in the register that move out of it at the top, for 0000 to 1111.
const REMAINDERS: [u16; 16] = [
    0x0000, 0x1021, 0x2042, 0x3063, 0x4084, 0x50a5, 0x60c6, 0x70e7, 0x8108, 0x9129, 0xa14a, 0xb16b,
    0xc18c, 0xd1ad, 0xe1ce, 0xf1ef,
];

// The register moves up by four as four data bits 0 enter: what the four bits leave that move out is added
// to the others.
fn up_four(table: &[u16; 16], r: u16) -> u16
    requires { Remainders table.now }
    ensures { bits 16 result ≡ shifts (bits 16 r) (replicate 4 false) }
{
    let top = usize::from(r / 4096);
    table[top] ^ (r % 4096 * 16)
}

// One byte of data into the register: its bits are added to the top eight at once, and then the register
// moves up by four, twice. The table is lent: named here, it would be written out again for every byte.
pub(crate) fn byte_in(table: &[u16; 16], r: u16, b: u8) -> u16
    requires { Remainders table.now }
    ensures { bits 16 result ≡ shifts (bits 16 r) (bits 8 b) }
{
    let x = up_four(table, r ^ (u16::from(b) * 256));
    up_four(table, x)
}

// The check of these data.
pub fn check_of(bytes: &[u8]) -> u32
    ensures { (result ≡ check_of bytes.now) × (result < 65536) }
{
    let table = REMAINDERS;
    let mut r: u16 = 65535;
    for b in bytes {
        r = byte_in(&table, r, *b);
    }
    u32::from(r ^ 65535)
}

// A block's check holds: its last two bytes, high byte first, are the check of the 30 before them.
// Anything but 32 bytes has none.
pub fn check_holds(fib: &[u8]) -> bool
    ensures { result ≡ (eqb (length fib.now) 32 && check_holds fib.now) }
{
    if fib.len() != 32 {
        return false;
    }
    u32::from(u16::from_be_bytes([fib[30], fib[31]])) == check_of(&fib[..30])
}
