// Faults and buffers as text, as the programs write them, each written behind a text.
#![tactic(auto)]

ghost use Rattle.std.specs.Prelude.{◌≡◌, ◌++◌, ◌+◌, ◌≤◌, ◌<◌, length};
ghost use Rattle.text_rules.specs.Decimal.{decimal};
ghost use Rattle.text_rules.specs.Hex.{hex_byte, hex_digits, hex};
ghost use Rattle.text_rules.specs.Fault.{place_word, fault_text};

use faults::Fault;
use text::Text;

// The byte of a hexadecimal digit.
fn hex_byte(d: u8) -> u8
    requires { d < 16 }
    ensures { result ≡ hex_byte d }
{
    if d < 10 { 48 + d } else { 87 + d }
}

// Writes two hexadecimal digits for each byte.
fn put_hex_digits<const N: usize>(text: &mut Text<N>, bytes: &[u8])
    requires { length text.old + length (hex_digits bytes.now) ≤ N }
    ensures { text.new ≡ text.old ++ hex_digits bytes.now }
{
    for byte in bytes {
        text.push(hex_byte(*byte / 16));
        text.push(hex_byte(*byte % 16));
    }
}

// Writes a buffer in hexadecimal, `-` where it is empty.
pub fn put_hex<const N: usize>(text: &mut Text<N>, bytes: &[u8])
    requires { length text.old + length (hex bytes.now) ≤ N }
    ensures { text.new ≡ text.old ++ hex bytes.now }
{
    if bytes.is_empty() {
        text.push(b'-');
    } else {
        put_hex_digits(text, bytes);
    }
}

// Writes a word, a fault's number and its place. Each number has at most 20 digits.
fn put_refusal<const N: usize>(text: &mut Text<N>, word: &[u8], number: usize, place: usize)
    requires { length text.old + length word.now + 47 ≤ N }
    ensures { text.new ≡ text.old ++ (word.now ++ (decimal number ++ (place_word ++ decimal place))) }
{
    text.item(word, number);
    text.item(b" place ", place);
}

// Writes `refused GROUP N place P`.
pub fn put_fault<const N: usize>(text: &mut Text<N>, fault: Fault)
    requires { length text.old + 64 ≤ N }
    ensures { text.new ≡ text.old ++ fault_text fault }
{
    match fault {
        Fault::Author { number, place } => put_refusal(text, b"refused author ", number, place),
        Fault::Rows { number, place } => put_refusal(text, b"refused rows ", number, place),
        Fault::Editor { number, place } => put_refusal(text, b"refused editor ", number, place),
    }
}
