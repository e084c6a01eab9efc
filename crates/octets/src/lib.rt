// Bytes: one at a place, many written, the highest of many, and how many there are up to the last that isn't 0.
#![tactic(auto)]

ghost use Rattle.std.specs.Prelude.{◌≡◌, ℕ, ◌+◌, ◌≤◌, ◌<◌, length, get_or};
ghost use Rattle.lists.specs.Overwrite.{overwrite};

// Bytes that aren't halved any more.
const FEW: usize = 16;

// The byte at a place, 0 past the end.
pub fn byte_at(bytes: &[u8], at: usize) -> u8
    ensures { result ≡ get_or bytes.now at 0 }
{
    if at < bytes.len() { bytes[at] } else { 0 }
}

// Writes bytes from a place on; the next place.
pub fn put(out: &mut [u8], at: usize, bytes: &[u8]) -> usize
    requires { at + length bytes.now ≤ length out.old }
    ensures next { result ≡ at + length bytes.now }
    ensures written { out.new ≡ overwrite out.old at bytes.now }
{
    let end = at + bytes.len();
    out[at..end].copy_from_slice(bytes);
    end
}

// The highest byte, 0 where there is none.
pub fn highest(bytes: &[u8]) -> u8
    ensures { (k : ℕ) → k < length bytes.now → get_or bytes.now k 0 ≤ result }
{
    let mut top: u8 = 0;
    for x in bytes {
        top = top.max(*x);
    }
    top
}

// The count of bytes that is left where the upper half is dropped as long as it is all 0.
fn halved(bytes: &[u8]) -> usize
    ensures inside { result ≤ length bytes.now }
    ensures zeros { (k : ℕ) → result ≤ k → get_or bytes.now k 0 ≡ 0 }
{
    let mut end = bytes.len();
    // a `while`: it halves a length, and no index counts up
    while FEW < end && highest(&bytes[end / 2..end]) == 0 {
        end /= 2;
    }
    end
}

// The count of bytes up to the last that isn't 0.
pub fn significant(bytes: &[u8]) -> usize
    ensures inside { result ≤ length bytes.now }
    ensures zeros { (k : ℕ) → result ≤ k → get_or bytes.now k 0 ≡ 0 }
{
    for k in (0..halved(bytes)).rev() {
        if bytes[k] != 0 {
            return k + 1;
        }
    }
    0
}
