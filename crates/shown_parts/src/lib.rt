// What the programs `show` and `why` both write: the line of `check`, the ring and the base, a list of digits.
#![tactic(auto)]

use ring::Degree;
use std::io;

// The section of input digits, whose records are elements as the alphabet's are.
const INPUTS: usize = 2;

// The line of `check`.
pub fn verdict(rt: &impl Print, file: &[u8]) -> io::Result<()> {
    let mut out = [0u8; 128];
    let end = line::check_line(file, &mut out);
    rt.write_all(&out[..end])
}

// The ring and the base, where the section has two elements.
pub fn ring(rt: &impl Print, degree: Degree, part: &[u8]) -> io::Result<()> {
    if part.len() != 4 * layout::part_count(degree) {
        return Ok(());
    }
    rt.write_all(listing::ring_line(degree, part).as_bytes())
}

// The same, and the numbers that rule 6 goes by, where those of the section are inside their limits.
pub fn base(rt: &impl Print, degree: Degree, part: &[u8]) -> io::Result<()> {
    ring(rt, degree, part)?;
    if listing::is_limited(degree, part) {
        rt.write_all(listing::norm_line(degree, part).as_bytes())?;
    }
    Ok(())
}

// A name and the digits of a section of elements, on one line.
pub fn digits(rt: &impl Print, degree: Degree, name: &[u8], part: &[u8]) -> io::Result<()> {
    rt.write_all(name)?;
    for k in 0..layout::record_count(degree, part, INPUTS) {
        rt.write_all(listing::item(degree, part, k).as_bytes())?;
    }
    rt.write_all(b"\n")
}
