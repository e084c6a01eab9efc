// Reading what follows a call; an error where the input ends before all of it.
ghost use Rattle.std.specs.Prelude.{◌+◌, ◌≤◌, ◌<◌, length, IfOk};

use midpoint::Element;
use ring::Degree;
use std::io;
use std::io::Read;

// Fills a buffer.
pub fn fill(rt: &impl Input, out: &mut [u8]) -> io::Result<()> {
    rt.reader().read_exact(out)
}

pub fn byte(rt: &impl Input) -> io::Result<u8> {
    let mut bytes = [0u8; 1];
    fill(rt, &mut bytes)?;
    Ok(bytes[0])
}

// The 64-bit number at a place of what was read, little-endian.
pub fn long(bytes: &[u8], at: usize) -> usize
    requires { at + 8 ≤ length bytes.now }
{
    let mut eight = [0u8; 8];
    eight.copy_from_slice(&bytes[at..at + 8]);
    usize::from_le_bytes(eight)
}

// A buffer: its length, four bytes, then its bytes, which go to the start of `out`; the length. One that is longer than `out` counts as cut.
pub fn buffer(rt: &impl Input, out: &mut [u8]) -> io::Result<usize>
    ensures { IfOk result (λ n. n ≤ length out.old) }
{
    let mut size = [0u8; 4];
    fill(rt, &mut size)?;
    let n = u32::from_le_bytes(size) as usize;
    if out.len() < n {
        return Err(io::Error::from(io::ErrorKind::UnexpectedEof));
    }
    fill(rt, &mut out[..n])?;
    Ok(n)
}

// A part of an element, of its four: a signed 32-bit number.
fn part(bytes: &[u8; 16], k: usize) -> i32
    requires { k < 4 }
{
    i32::from_le_bytes([
        bytes[4 * k],
        bytes[4 * k + 1],
        bytes[4 * k + 2],
        bytes[4 * k + 3],
    ])
}

// An element: as many parts as its degree says, those above it being zero.
pub fn element(rt: &impl Input, degree: Degree) -> io::Result<Element> {
    let mut bytes = [0u8; 16];
    fill(rt, &mut bytes[..4 * layout::part_count(degree)])?;
    Ok(Element {
        a: part(&bytes, 0),
        b: part(&bytes, 1),
        c: part(&bytes, 2),
        d: part(&bytes, 3),
    })
}
