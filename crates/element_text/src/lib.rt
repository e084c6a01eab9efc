// Elements as people write them, `w` standing for ω, and text at the right of a column, each written behind a text.
#![tactic(auto)]

ghost use Rattle.std.specs.Prelude.{◌≡◌, ◌++◌, ◌+◌, ◌^◌, ◌≤◌, ◌<◌, nat_abs, length};
ghost use Rattle.ring.specs.Tests.{Within};
ghost use Rattle.ring.specs.Padded.{width};
ghost use Rattle.listing_rules.specs.Element.{power_text, factor_text, sign_text, part_text, parts_text, element_text, right};

use text::Text;

// Writes a power of ω.
fn put_power<const N: usize>(text: &mut Text<N>, k: usize)
    requires { length text.old + length (power_text k) ≤ N }
    ensures { text.new ≡ text.old ++ power_text k }
{
    match k {
        0 => (),
        1 => text.put(b"w"),
        _ => text.item(b"w^", k),
    }
}

// Writes the number before a power of ω.
fn put_factor<const N: usize>(text: &mut Text<N>, n: usize, k: usize)
    requires { length text.old + length (factor_text n k) ≤ N }
    ensures { text.new ≡ text.old ++ factor_text n k }
{
    if n != 1 || k == 0 {
        text.decimal(n);
    }
}

// Writes the sign of a part that so many bytes stand before: no plus where none does.
fn put_sign<const N: usize>(text: &mut Text<N>, written: usize, a: i64)
    requires { length text.old + length (sign_text written a) ≤ N }
    ensures { text.new ≡ text.old ++ sign_text written a }
{
    if a < 0 {
        text.put(b"-");
    } else if 0 < written {
        text.put(b"+");
    }
}

// Writes a part with its power of ω, behind so many bytes.
fn put_part<const N: usize>(text: &mut Text<N>, written: usize, a: i64, k: usize)
    requires room { length text.old + length (part_text written a k) ≤ N }
    requires size { nat_abs a < 2 ^ 63 }
    ensures { text.new ≡ text.old ++ part_text written a k }
{
    let n = magnitude::size(a);
    if n == 0 {
        return;
    }
    put_sign(text, written, a);
    put_factor(text, n, k);
    put_power(text, k);
}

// Writes the parts of an element.
fn put_parts<const N: usize>(text: &mut Text<N>, x: [i64; 4])
    requires room { length text.old + length (parts_text x width) ≤ N }
    requires parts { Within (2 ^ 62) x }
    ensures { text.new ≡ text.old ++ parts_text x width }
{
    let start = text.len();
    for k in 0..4 {
        let written = text.len() - start;
        put_part(text, written, x[k], k);
    }
}

// Writes an element.
pub fn put_element<const N: usize>(text: &mut Text<N>, x: [i64; 4])
    requires room { length text.old + length (element_text x) ≤ N }
    requires parts { Within (2 ^ 62) x }
    ensures { text.new ≡ text.old ++ element_text x }
{
    let start = text.len();
    put_parts(text, x);
    if text.len() == start {
        text.put(b"0");
    }
}

// Writes bytes at the right of a column.
pub fn put_right<const N: usize>(text: &mut Text<N>, width: usize, bytes: &[u8])
    requires { length text.old + length (right width bytes.now) ≤ N }
    ensures { text.new ≡ text.old ++ right width bytes.now }
{
    text.fill(width.saturating_sub(bytes.len()), b' ');
    text.put(bytes);
}
