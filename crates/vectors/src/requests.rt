// The calls that something follows: what is read, the call, its line.
ghost use Rattle.std.specs.Prelude.{◌≤◌, length};

use crate::{input, output};
use ring::Degree;
use std::io;

// A call that has a table, two rows and a buffer.
#[derive(Clone, Copy)]
pub enum OnRows {
    Addition,
    Subtraction,
    Edit,
}

// 1: the file.
pub fn check(rt: &(impl Input + Print)) -> io::Result<()> {
    let mut file = [0u8; 70000];
    let n = input::buffer(rt, &mut file)?;
    output::checked(rt, table::check(&file[..n]))
}

// The edit and its line: what follows the buffers is the row number, the place and the new digit.
fn edit_line(
    rt: &(impl Input + Print),
    table: &[u8],
    first: &mut [u8],
    second: &mut [u8],
    sum: &mut [u8],
) -> io::Result<()>
    requires { (length first.old ≤ 600) × (length second.old ≤ 600) × (length sum.old ≤ 1000) }
{
    let mut numbers = [0u8; 24];
    input::fill(rt, &mut numbers)?;
    let row = input::long(&numbers, 0);
    let place = input::long(&numbers, 8);
    let digit = input::long(&numbers, 16);
    let answer = edit_call::edit(table, first, second, sum, row, place, digit);
    output::edited(rt, answer, first, second, sum)
}

// The addition, the subtraction or the edit, and its line. The caller's buffers are never longer than `output` writes out; the test makes it
// plain.
fn called(
    rt: &(impl Input + Print),
    call: OnRows,
    table: &[u8],
    first: &mut [u8],
    second: &mut [u8],
    sum: &mut [u8],
) -> io::Result<()> {
    if 600 < first.len() || 600 < second.len() || 1000 < sum.len() {
        return Err(io::Error::from(io::ErrorKind::InvalidData));
    }
    match call {
        OnRows::Addition => {
            let answer = adder::add(table, first, second, sum);
            output::added(rt, b"sum ", answer, sum)
        }
        OnRows::Subtraction => {
            let answer = adder::subtract(table, first, second, sum);
            output::added(rt, b"difference ", answer, sum)
        }
        OnRows::Edit => edit_line(rt, table, first, second, sum),
    }
}

// 2, 3 and 8: the table, the first row, the second row, the buffer for the result; then what is the edit's alone. Whole buffers are
// written, so a fault shows that they were left alone.
pub fn on_rows(rt: &(impl Input + Print), call: OnRows) -> io::Result<()> {
    let mut table = [0u8; 70000];
    let mut first = [0u8; 600];
    let mut second = [0u8; 600];
    let mut sum = [0u8; 1000];
    let t = input::buffer(rt, &mut table)?;
    let f = input::buffer(rt, &mut first)?;
    let s = input::buffer(rt, &mut second)?;
    let room = input::buffer(rt, &mut sum)?;
    called(
        rt,
        call,
        &table[..t],
        &mut first[..f],
        &mut second[..s],
        &mut sum[..room],
    )
}

// 4: the table, the row. The degree of the table says how many parts the value has.
pub fn value(rt: &(impl Input + Print)) -> io::Result<()> {
    let mut table = [0u8; 70000];
    let mut row = [0u8; 600];
    let t = input::buffer(rt, &mut table)?;
    let r = input::buffer(rt, &mut row)?;
    let degree = layout::degree_in(&table[..t]);
    output::valued(rt, degree, value_call::value(&table[..t], &row[..r]))
}

// The look-up of a window in a table that passes 1 to 13. No other table comes with it; there the run ends.
fn leaf_line(rt: &impl Print, table: &[u8], window: [u8; 8]) -> io::Result<()> {
    let Ok(_) = reader::read(table) else {
        return Err(io::Error::from(io::ErrorKind::InvalidData));
    };
    let degree = layout::degree_in(table);
    let leaves = reader::section(table, 3);
    let words = reader::section(table, 4);
    output::looked_up(rt, look_up::look_up(degree, leaves, words, window))
}

// 19: the table, the eight bytes of the window.
pub fn look_up(rt: &(impl Input + Print)) -> io::Result<()> {
    let mut table = [0u8; 70000];
    let n = input::buffer(rt, &mut table)?;
    let mut window = [0u8; 8];
    input::fill(rt, &mut window)?;
    leaf_line(rt, &table[..n], window)
}

// 9: the table, whose degree says how many parts the digit has.
pub fn bad_row(rt: &(impl Input + Print)) -> io::Result<()> {
    let mut table = [0u8; 70000];
    let n = input::buffer(rt, &mut table)?;
    let degree = layout::degree_in(&table[..n]);
    let mut string = [0u8; 9];
    let answer = bad_row::bad_row(&table[..n], &mut string);
    output::shown(rt, degree, answer, &string)
}

// 17: the table, the number of digits.
pub fn forecast(rt: &(impl Input + Print)) -> io::Result<()> {
    let mut table = [0u8; 70000];
    let n = input::buffer(rt, &mut table)?;
    let mut digits = [0u8; 8];
    input::fill(rt, &mut digits)?;
    output::forecasted(
        rt,
        forecast::forecast(&table[..n], usize::from_le_bytes(digits)),
    )
}

// 5: the degree, one byte, then the parts of the first element and those of the second. Another byte than 2, 3 or 4 ends the run.
pub fn midpoint(rt: &(impl Input + Print)) -> io::Result<()> {
    let degree = match input::byte(rt)? {
        2 => Degree::Two,
        3 => Degree::Three,
        4 => Degree::Four,
        _ => return Err(io::Error::from(io::ErrorKind::InvalidData)),
    };
    let x = input::element(rt, degree)?;
    let y = input::element(rt, degree)?;
    output::midpoint(rt, degree, midpoint::midpoint(x, y))
}
