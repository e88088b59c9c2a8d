// Writing an output into a lent buffer: bytes, hexadecimal digits, decimal numbers, and the answer.
// Every function is proved and none that is `pub` has a `requires`: what does not fit is not stored
// (specs/Page.antt).
// A caller that must leave a short buffer alone compares its length with the output's first.
#![tactic(auto)]

ghost use Rattle.std.specs.Prelude.{◌≡◌, [], ◌∷◌, ◌≤◌, ◌<◌, ◌/◌, ◌%◌, ◌^◌, min, length, take};
ghost use Rattle.out.specs.Text.{hex_digit, hex_text, decimal};
ghost use Rattle.out.specs.Page.{Opens, Writes};
ghost use Rattle.out.specs.Answer.{outcome_of};

use rules::Outcome;

// Why an output was not written. A function that writes an output answers with its size, or with this.
#[derive(Clone, Copy, PartialEq, Eq)]
pub enum Unwritten {
    // 9: the table breaks the table rules or has another stored form
    WrongTable,
    // 8: the lent buffer is shorter than the output
    ShortBuffer,
}

impl From<Unwritten> for Outcome {
    ghost from_gives = { λ why o. o ≡ outcome_of why };

    fn from(why: Unwritten) -> Outcome {
        match why {
            Unwritten::WrongTable => Outcome::WrongTable,
            Unwritten::ShortBuffer => Outcome::ShortBuffer,
        }
    }
}

// A lent buffer that is written from its front on, and the place that is reached in it. What does not fit is not stored.
#[derive(Drop)]
pub struct Page<'a> {
    pub buffer: &'a mut [u8],
    pub at: usize,
}

// What stands at the front of a buffer: its first n bytes, or all where there are fewer.
pub fn front(bytes: &[u8], n: usize) -> &[u8]
    ensures { result.now ≡ take n bytes.now }
{
    bytes.get(..n).unwrap_or(bytes)
}

impl<'a> Page<'a> {
    // An empty page over a buffer.
    pub fn over(buffer: &'a mut [u8]) -> Page<'a>
        ensures over { Opens buffer.entry result }
    {
        Page { buffer, at: 0 }
    }

    // How many bytes were stored.
    pub fn size(&self) -> usize
        ensures { result ≡ min self.now.at (length self.now.buffer.now) }
    {
        self.at.min(self.buffer.len())
    }

    // One byte.
    pub fn put(&mut self, byte: u8)
        ensures { Writes self.old (byte ∷ []) self.new }
    {
        if self.at < self.buffer.len() {
            self.buffer[self.at] = byte;
            self.at += 1;
        }
    }

    // Bytes.
    pub fn put_bytes(&mut self, bytes: &[u8])
        ensures { Writes self.old bytes.now self.new }
    {
        for byte in bytes {
            self.put(*byte);
        }
    }

    // The low hexadecimal digits of a number, this many.
    pub fn put_hex(&mut self, digits: usize, n: u32)
        ensures { Writes self.old (hex_text digits n) self.new }
    {
        for place in (0..digits).rev() {
            self.put(digit_at(n, place));
        }
    }

    // A number in decimal: the digits before the last, and the last.
    pub fn put_decimal(&mut self, n: usize)
        ensures { Writes self.old (decimal n) self.new }
    {
        if n < 10 {
            self.put(48 + n as u8);
        } else {
            self.put_decimal(n / 10);
            self.put(48 + (n % 10) as u8);
        }
    }
}

// ---- numbers

// A capital hexadecimal digit.
fn hex_digit(d: u32) -> u8
    requires { d < 16 }
    ensures { result ≡ hex_digit d }
{
    if d < 10 { 48 + d as u8 } else { 55 + d as u8 }
}

// The hexadecimal digit of a number at a place, place 0 the lowest.
fn digit_at(n: u32, place: usize) -> u8
    ensures { result ≡ hex_digit (n / 16 ^ place % 16) }
{
    if place < 8 {
        hex_digit((n >> (4 * place)) % 16)
    } else {
        48
    }
}

// How many digits a number has in decimal.
pub fn decimal_size(n: usize) -> usize
    ensures { (result ≡ length (decimal n)) × (result ≤ 20) }
{
    let mut q = n;
    let mut d = 1;
    while 10 <= q {
        q = q / 10;
        d += 1;
    }
    d
}
