// Additions. Every sum buffer holds nines before the call.
ghost use Rattle.std.specs.Prelude.{◌≤◌, length};

use crate::{output, tables};
use std::io;

// `LABEL sum K reach R SUM`, or the fault and SUM: the whole buffer as the call left it.
pub fn summed(
    rt: &impl Print,
    label: &str,
    table: &[u8],
    first: &[u8],
    second: &[u8],
    sum: &mut [u8],
) -> io::Result<()>
    requires { length sum.old ≤ 260 }
{
    print!(rt; "{label} ")?;
    printed::added(rt, "sum", adder::add(table, first, second, sum))?;
    printed::buffer(rt, sum)?;
    println!(rt; "")
}

// M9 and M10
pub fn sums(rt: &impl Print) -> io::Result<()> {
    let mut sum = [9u8; 4];
    summed(rt, "M9", &carried::bin(), &[1, 1], &[1, 0], &mut sum)?;
    let mut other = [9u8; 4];
    summed(rt, "M10", &carried::bin(), &[0, 1], &[0, 0], &mut other)
}

// The rows of M7 and M9 with every digit negated: so is every digit of the sum. By a table that isn't mirrored, 1 and −1: their sums aren't.
pub fn negated_rows(rt: &impl Print) -> io::Result<()> {
    let mut tern = [9u8; 4];
    summed(
        rt,
        "negated M7",
        &carried::tern(),
        &[4, 4],
        &[3, 4],
        &mut tern,
    )?;
    let mut bin = [9u8; 5];
    summed(
        rt,
        "negated M9",
        &carried::bin(),
        &[2, 2],
        &[2, 0],
        &mut bin,
    )?;
    output::checked(rt, "unmirrored", table::check(&tables::unmirrored()))?;
    let mut sum = [9u8; 3];
    summed(
        rt,
        "unmirrored",
        &tables::unmirrored(),
        &[1],
        &[0],
        &mut sum,
    )?;
    summed(
        rt,
        "unmirrored",
        &tables::unmirrored(),
        &[2],
        &[0],
        &mut sum,
    )
}

// M11
pub fn empty_rows(rt: &impl Print) -> io::Result<()> {
    let mut one = [9u8; 1];
    summed(rt, "M11", &carried::tern(), b"", b"", &mut one)?;
    let mut two = [9u8; 2];
    summed(rt, "M11", &carried::bin(), b"", b"", &mut two)
}

// Rows of `n` digits 1 and `room` bytes for their sum.
fn ones(rt: &impl Print, label: &str, table: &[u8], n: usize, room: usize) -> io::Result<()>
    requires { (n ≤ 257) × (room ≤ 260) }
{
    let first = [1u8; 257];
    let second = [1u8; 257];
    let mut sum = [9u8; 260];
    summed(
        rt,
        label,
        table,
        &first[..n],
        &second[..n],
        &mut sum[..room],
    )
}

fn tern_ones(rt: &impl Print, label: &str, n: usize, room: usize) -> io::Result<()>
    requires { (n ≤ 257) × (room ≤ 260) }
{
    ones(rt, label, &carried::tern(), n, room)
}

fn bin_ones(rt: &impl Print, label: &str, n: usize, room: usize) -> io::Result<()>
    requires { (n ≤ 257) × (room ≤ 260) }
{
    ones(rt, label, &carried::bin(), n, room)
}

// 256 digits and 257; n + h bytes, one fewer and one more.
pub fn tern_limits(rt: &impl Print) -> io::Result<()> {
    tern_ones(rt, "TERN 256", 256, 257)?;
    tern_ones(rt, "TERN 257", 257, 258)?;
    tern_ones(rt, "TERN 256", 256, 256)?;
    tern_ones(rt, "TERN 2", 2, 4)?;
    tern_ones(rt, "TERN 2", 2, 2)
}

// The same where h is 2.
pub fn bin_limits(rt: &impl Print) -> io::Result<()> {
    bin_ones(rt, "BIN 256", 256, 258)?;
    bin_ones(rt, "BIN 257", 257, 259)?;
    bin_ones(rt, "BIN 256", 256, 257)
}

// Rows with room for two digits.
fn in_two(rt: &impl Print, table: &[u8], first: &[u8], second: &[u8]) -> io::Result<()> {
    let mut sum = [9u8; 2];
    summed(rt, "faults", table, first, second, &mut sum)
}

fn tern_in_two(rt: &impl Print, first: &[u8], second: &[u8]) -> io::Result<()> {
    in_two(rt, &carried::tern(), first, second)
}

// 1, 20, 21 and 22, each where a later rule is broken too.
pub fn row_faults(rt: &impl Print) -> io::Result<()> {
    in_two(rt, b"", &[5], &[2, 2])?;
    tern_in_two(rt, &[5], &[2, 2])?;
    tern_in_two(rt, &[2, 5], &[5, 2])?;
    tern_in_two(rt, &[2, 2], &[2, 5])
}

// A table that only the check refuses: 27 where a digit outside the alphabet arises, else the sum.
pub fn damaged_sums(rt: &impl Print) -> io::Result<()> {
    let mut sum = [9u8; 3];
    summed(
        rt,
        "damaged",
        &tables::damaged(),
        &[2, 1],
        &[2, 1],
        &mut sum,
    )?;
    summed(
        rt,
        "damaged",
        &tables::damaged(),
        &[2, 0],
        &[2, 1],
        &mut sum,
    )
}
