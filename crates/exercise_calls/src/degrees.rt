// Tables of degree three and four, those that crate marked has by their words: in the first ω³ is −1, the base 2 − ω and each digit and weight a
// multiple of 1 − ω + ω²; in the second ω⁴ is 1, the base 3 − ω, each a multiple of 1 + ω + ω² + ω³, and words have one or two digits.
use crate::{additions, output, values};
use std::io;

// The files, eight bytes to a line; what the last line has beyond the file's end is left out.
const CUBIC: [[u8; 8]; 27] = [
    [20, 0, 12, 0, 32, 0, 30, 0],
    [62, 0, 54, 0, 116, 0, 90, 0],
    [206, 0, 9, 0, 0, 0, 0, 0],
    [255, 255, 2, 0, 255, 255, 0, 0],
    [0, 0, 0, 0, 0, 0, 1, 0],
    [255, 255, 1, 0, 2, 0, 254, 255],
    [2, 0, 255, 255, 1, 0, 255, 255],
    [254, 255, 2, 0, 254, 255, 0, 0],
    [0, 0, 0, 0, 1, 0, 255, 255],
    [1, 0, 2, 0, 254, 255, 2, 0],
    [3, 0, 253, 255, 3, 0, 4, 0],
    [252, 255, 4, 0, 255, 255, 1, 0],
    [255, 255, 254, 255, 2, 0, 254, 255],
    [253, 255, 3, 0, 253, 255, 252, 255],
    [4, 0, 252, 255, 0, 0, 1, 0],
    [0, 0, 0, 0, 0, 0, 1, 0],
    [1, 0, 0, 0, 0, 0, 0, 0],
    [2, 0, 1, 0, 1, 0, 255, 255],
    [1, 0, 3, 0, 1, 0, 1, 0],
    [255, 255, 1, 0, 4, 0, 1, 0],
    [1, 0, 255, 255, 1, 0, 5, 0],
    [1, 0, 0, 0, 0, 0, 0, 0],
    [6, 0, 1, 0, 255, 255, 1, 0],
    [255, 255, 7, 0, 1, 0, 255, 255],
    [1, 0, 255, 255, 8, 0, 1, 0],
    [255, 255, 1, 0, 255, 255, 0, 1],
    [2, 3, 4, 5, 6, 7, 8, 0],
];

const QUARTIC: [[u8; 8]; 35] = [
    [20, 0, 16, 0, 36, 0, 24, 0],
    [60, 0, 40, 0, 100, 0, 156, 0],
    [0, 1, 23, 0, 0, 0, 0, 0],
    [0, 0, 1, 0, 3, 0, 255, 255],
    [0, 0, 0, 0, 0, 0, 0, 0],
    [0, 0, 0, 0, 1, 0, 1, 0],
    [1, 0, 1, 0, 255, 255, 255, 255],
    [255, 255, 255, 255, 0, 0, 0, 0],
    [0, 0, 0, 0, 1, 0, 1, 0],
    [1, 0, 1, 0, 2, 0, 2, 0],
    [2, 0, 2, 0, 255, 255, 255, 255],
    [255, 255, 255, 255, 254, 255, 254, 255],
    [254, 255, 254, 255, 0, 0, 1, 0],
    [0, 0, 0, 0, 0, 0, 0, 0],
    [1, 0, 2, 0, 0, 0, 0, 0],
    [0, 0, 0, 0, 3, 0, 2, 0],
    [1, 0, 1, 0, 1, 0, 1, 0],
    [5, 0, 2, 0, 1, 0, 1, 0],
    [1, 0, 1, 0, 7, 0, 2, 0],
    [0, 0, 0, 0, 0, 0, 0, 0],
    [9, 0, 2, 0, 0, 0, 0, 0],
    [0, 0, 0, 0, 11, 0, 1, 0],
    [1, 0, 1, 0, 1, 0, 1, 0],
    [12, 0, 2, 0, 0, 0, 0, 0],
    [0, 0, 0, 0, 14, 0, 2, 0],
    [0, 0, 0, 0, 0, 0, 0, 0],
    [16, 0, 2, 0, 0, 0, 0, 0],
    [0, 0, 0, 0, 18, 0, 2, 0],
    [255, 255, 255, 255, 255, 255, 255, 255],
    [20, 0, 2, 0, 255, 255, 255, 255],
    [255, 255, 255, 255, 22, 0, 1, 0],
    [255, 255, 255, 255, 255, 255, 255, 255],
    [0, 1, 0, 1, 1, 1, 2, 1],
    [3, 1, 4, 2, 3, 0, 3, 1],
    [3, 2, 3, 3, 3, 4, 4, 0],
];

pub fn cubic() -> [u8; 215] {
    let mut file = [0u8; 215];
    file.copy_from_slice(&CUBIC.as_flattened()[..215]);
    file
}

pub fn quartic() -> [u8; 279] {
    let mut file = [0u8; 279];
    file.copy_from_slice(&QUARTIC.as_flattened()[..279]);
    file
}

// With weight ω² − ω at leaf 2 of the first, and 4 + 3·ω + 2·ω² + ω³ at that of the second: two fitting leaves give no alphabet digit.
pub fn damaged_cubic() -> [u8; 215] {
    let mut file = cubic();
    file[140] = 0;
    file
}

pub fn damaged_quartic() -> [u8; 279] {
    let mut file = quartic();
    file[128] = 4;
    file[130] = 3;
    file[132] = 2;
    file
}

// 65 in the base section at degree three and 33 at degree four, at the second number.
fn limits(rt: &impl Print) -> io::Result<()> {
    let mut three = cubic();
    three[22] = 65;
    output::checked(rt, "cubic of 65", table::check(&three))?;
    let mut four = quartic();
    four[22] = 33;
    output::checked(rt, "quartic of 33", table::check(&four))
}

// The base is ω, whose determinant is −1 where ω³ is −1 or ω⁴ is 1 but for higher powers; the highest number allowed stands there.
fn units(rt: &impl Print) -> io::Result<()> {
    let mut three = cubic();
    three[20] = 64;
    three[26] = 0;
    three[28] = 1;
    three[29] = 0;
    output::checked(rt, "cubic by its power", table::check(&three))?;
    let mut four = quartic();
    four[20] = 32;
    four[28] = 0;
    four[30] = 1;
    four[31] = 0;
    output::checked(rt, "quartic by its power", table::check(&four))
}

// A base section of 10 bytes: 3 names it.
fn of_no_degree(rt: &impl Print) -> io::Result<()> {
    let mut file = cubic();
    file[2] = 10;
    file[4] = 30;
    file[6] = 32;
    output::checked(rt, "cubic of 10 bytes", table::check(&file))
}

pub fn checks(rt: &impl Print) -> io::Result<()> {
    output::checked(rt, "cubic", table::check(&cubic()))?;
    output::checked(rt, "quartic", table::check(&quartic()))?;
    limits(rt)?;
    units(rt)?;
    of_no_degree(rt)
}

// A sum of each, and the values of its rows and of the sum.
pub fn sums(rt: &impl Print) -> io::Result<()> {
    let mut three = [9u8; 4];
    additions::summed(rt, "cubic", &cubic(), &[2, 1, 3], &[2, 2, 4], &mut three)?;
    values::by_table(rt, "cubic", &cubic(), &[2, 1, 3])?;
    values::by_table(rt, "cubic", &cubic(), &[2, 2, 4])?;
    values::by_table(rt, "cubic", &cubic(), &three)?;
    let mut four = [9u8; 5];
    additions::summed(rt, "quartic", &quartic(), &[1, 1, 2], &[1, 0, 2], &mut four)?;
    values::by_table(rt, "quartic", &quartic(), &[1, 1, 2])?;
    values::by_table(rt, "quartic", &quartic(), &[1, 0, 2])?;
    values::by_table(rt, "quartic", &quartic(), &four)
}
