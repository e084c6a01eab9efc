// Text in an array of its own, written behind what it holds.
#![tactic(auto)]

ghost use Rattle.std.specs.Prelude.{◌≡◌, [], ◌∷◌, ◌++◌, ◌+◌, ◌≤◌, ◌<◌, length, replicate};
ghost use Rattle.text_rules.specs.Decimal.{decimal, decimal_z};

use std::marker::Model;

// The bytes written so far, at most N.
#[derive(Drop)]
pub struct Text<const N: usize> {
    bytes: [u8; N],
    len: usize,
}

impl<const N: usize> Model for Text<N> {
    ghost use Rattle.std.specs.Prelude.{ℕ, ◌≤◌, List, take};

    ghost Value = { List ℕ };

    ghost view = { λ t. take t.len t.bytes };

    ghost invariant = { λ t. t.len ≤ N };
}

impl<const N: usize> Text<N> {
    // A text of no bytes.
    pub fn new() -> Text<N>
        ensures { result ≡ [] }
    {
        Text {
            bytes: [0; N],
            len: 0,
        }
    }

    // What is written.
    pub fn as_bytes(&self) -> &[u8]
        ensures same { result.now ≡ self.now }
        ensures within { length self.now ≤ N }
    {
        &self.bytes[..self.len]
    }

    // How many bytes are written.
    pub fn len(&self) -> usize
        ensures count { result ≡ length self.now }
        ensures within { length self.now ≤ N }
    {
        self.len
    }

    // Writes bytes behind the others.
    pub fn put(&mut self, bytes: &[u8])
        requires { length self.old + length bytes.now ≤ N }
        ensures { self.new ≡ self.old ++ bytes.now }
    {
        self.len = octets::put(&mut self.bytes, self.len, bytes);
    }

    // Writes a byte so many times.
    pub fn fill(&mut self, n: usize, byte: u8)
        requires { length self.old + n ≤ N }
        ensures { self.new ≡ self.old ++ replicate n byte }
    {
        for _ in 0..n {
            self.push(byte);
        }
    }

    // Writes a byte.
    pub fn push(&mut self, byte: u8)
        requires { length self.old < N }
        ensures { self.new ≡ self.old ++ (byte ∷ []) }
    {
        self.bytes[self.len] = byte;
        self.len += 1;
    }

    // Writes a number in decimal.
    pub fn decimal(&mut self, n: usize)
        requires { length self.old + length (decimal n) ≤ N }
        ensures { self.new ≡ self.old ++ decimal n }
    {
        self.put(decimal(n).as_bytes());
    }

    // Writes a word and then a number.
    pub fn item(&mut self, word: &[u8], n: usize)
        requires { length self.old + length (word.now ++ decimal n) ≤ N }
        ensures { self.new ≡ self.old ++ (word.now ++ decimal n) }
    {
        self.put(word);
        self.decimal(n);
    }

    // Writes a whole number in decimal, a minus before a negative one only. Its size is taken in 64 bits, since the lowest number of 32 has
    // no opposite there.
    pub fn signed(&mut self, z: i32)
        requires { length self.old + length (decimal_z z) ≤ N }
        ensures { self.new ≡ self.old ++ decimal_z z }
    {
        if z < 0 {
            self.push(b'-');
        }
        self.decimal(magnitude::size(z as i64));
    }
}

// A number in decimal.
pub fn decimal(n: usize) -> Text<20>
    ensures { result ≡ decimal n }
{
    let mut text: Text<20> = if n < 10 { Text::new() } else { decimal(n / 10) };
    text.push(48 + (n % 10) as u8);
    text
}
