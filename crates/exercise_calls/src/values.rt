// Values of rows.
ghost use Rattle.std.specs.Prelude.{◌≤◌};

use crate::output;
use std::io;

// The degree of the table says how many parts the value has.
pub fn by_table(rt: &impl Print, label: &str, table: &[u8], row: &[u8]) -> io::Result<()> {
    let degree = layout::degree_in(table);
    output::valued(rt, label, degree, value_call::value(table, row))
}

fn by_tern(rt: &impl Print, label: &str, row: &[u8]) -> io::Result<()> {
    by_table(rt, label, &carried::tern(), row)
}

fn by_bin(rt: &impl Print, label: &str, row: &[u8]) -> io::Result<()> {
    by_table(rt, label, &carried::bin(), row)
}

// M7's rows and their sum, M8's changed row and sum.
pub fn of_tern_sums(rt: &impl Print) -> io::Result<()> {
    by_tern(rt, "M7", &[2, 2])?;
    by_tern(rt, "M7", &[1, 2])?;
    by_tern(rt, "M7", &[0, 2, 1])?;
    by_tern(rt, "M8", &[4, 2])?;
    by_tern(rt, "M8", &[3, 1, 1])
}

// M9's rows and their sum.
pub fn of_bin_sums(rt: &impl Print) -> io::Result<()> {
    by_bin(rt, "M9", &[1, 1])?;
    by_bin(rt, "M9", &[1, 0])?;
    by_bin(rt, "M9", &[0, 0, 1, 0])
}

// TERN: a row of one digit, n times.
fn tern_row(rt: &impl Print, label: &str, digit: u8, n: usize) -> io::Result<()>
    requires { n ≤ 257 }
{
    let row = [digit; 257];
    by_tern(rt, label, &row[..n])
}

// Digits 2 give 3^n - 1, which passes the limit with the 20th digit from the top; no digit gives zero. Then 20 and 21.
pub fn of_tern_rows(rt: &impl Print) -> io::Result<()> {
    tern_row(rt, "TERN 19", 2, 19)?;
    tern_row(rt, "TERN 20", 2, 20)?;
    tern_row(rt, "TERN 256", 2, 256)?;
    tern_row(rt, "TERN 0", 2, 0)?;
    tern_row(rt, "TERN 257", 5, 257)?;
    tern_row(rt, "TERN 1", 5, 1)
}

// The table's fault comes first.
pub fn of_no_table(rt: &impl Print) -> io::Result<()> {
    let row = [5u8; 257];
    by_table(rt, "none 257", b"", &row)
}

// BIN: a row of one digit, 31 times.
fn bin_row(rt: &impl Print, digit: u8) -> io::Result<()> {
    let row = [digit; 31];
    by_bin(rt, "BIN 31", &row)
}

// BIN: one digit above 31 zeros.
fn bin_power(rt: &impl Print, digit: u8) -> io::Result<()> {
    let mut row = [0u8; 32];
    row[31] = digit;
    by_bin(rt, "BIN 32", &row)
}

// 2^31 - 1 is within the limit and 2^31 is not; the same below zero.
pub fn of_bin_rows(rt: &impl Print) -> io::Result<()> {
    bin_row(rt, 1)?;
    bin_row(rt, 2)?;
    bin_power(rt, 1)?;
    bin_power(rt, 2)
}
