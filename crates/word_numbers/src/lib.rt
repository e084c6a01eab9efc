// Words and windows as 64-bit numbers, a byte to a digit, so that two are compared at once.
#![tactic(auto)]

ghost use Rattle.std.specs.Prelude.{◌≡◌, ℕ, ◌+◌, ◌-◌, ◌≤◌, ◌<◌, ◌^◌};
ghost use lib.ListN.{length, get_or};
ghost use Rattle.radix.specs.Number.{number, aligned};

// The most digits of a word, and the digits of a window.
const LONGEST: usize = 8;

// The eight bytes from a place on. That they are bytes is said for a caller whose bytes are an array, which doesn't tell it.
pub fn eight(bytes: &[u8], at: usize) -> u64
    requires { at + 8 ≤ length bytes.now }
    ensures number { result ≡ number 256 (λ i. get_or bytes.now (at + i) 0) 8 }
    ensures bytes { (i : ℕ) → get_or bytes.now i 0 < 256 }
{
    u64::from_be_bytes([
        bytes[at],
        bytes[at + 1],
        bytes[at + 2],
        bytes[at + 3],
        bytes[at + 4],
        bytes[at + 5],
        bytes[at + 6],
        bytes[at + 7],
    ])
}

// The bytes from a place on, at most eight.
fn few(bytes: &[u8], at: usize, count: usize) -> u64
    requires { (count ≤ 8) × (at + count ≤ length bytes.now) }
    ensures { result ≡ number 256 (λ i. get_or bytes.now (at + i) 0) count }
{
    let mut all = 0;
    for i in 0..count {
        all = all * 256 + u64::from(bytes[at + i]);
    }
    all
}

// A word with zeros behind it, up to eight digits. Past the first words the eight bytes that end with the word are read at once, and
// those in front of it are shifted out.
pub fn word_number(words: &[u8], start: usize, length: usize) -> u64
    requires { (1 ≤ length) × (length ≤ 8) × (start + length ≤ lib.ListN.length words.now) }
    ensures { result ≡ aligned 256 (λ i. get_or words.now (start + i) 0) length }
{
    let end = start + length;
    if end < LONGEST {
        few(words, start, length) << (8 * (LONGEST - length))
    } else {
        eight(words, end - LONGEST) << (8 * (LONGEST - length))
    }
}

// The same, where it is known how many strings of eight bytes begin with such a word: what stands behind the word is masked out.
pub fn word_number_by(words: &[u8], start: usize, length: usize, unit: u64) -> u64
    requires { (length ≤ 8) × (start + length ≤ lib.ListN.length words.now) × (unit ≡ 256 ^ (8 - length)) }
    ensures { result ≡ aligned 256 (λ i. get_or words.now (start + i) 0) length }
{
    if words.len() - start < LONGEST {
        few(words, start, length) * unit
    } else {
        eight(words, start) & !(unit - 1)
    }
}

// For words of 1 to 8 digits in a base: how many strings of eight digits begin with one.
pub fn powers(base: u64) -> [u64; 9]
    requires { base ≤ 256 }
    ensures { (n : ℕ) → 1 ≤ n → n ≤ 8 → get_or result n 0 ≡ base ^ (8 - n) }
{
    let mut all = [1; 9];
    for n in (1..8).rev() {
        all[n] = all[n + 1] * base;
    }
    all
}
