// Subtractions. Every buffer holds nines before the call.
ghost use Rattle.std.specs.Prelude.{◌≤◌, length};

use crate::{additions, tables};
use std::io;

// `LABEL difference K reach R DIFFERENCE`, or the fault and the whole buffer as the call left it.
fn subtracted(
    rt: &impl Print,
    label: &str,
    table: &[u8],
    first: &[u8],
    second: &[u8],
    difference: &mut [u8],
) -> io::Result<()>
    requires { length difference.old ≤ 260 }
{
    print!(rt; "{label} ")?;
    printed::added(
        rt,
        "difference",
        adder::subtract(table, first, second, difference),
    )?;
    printed::buffer(rt, difference)?;
    println!(rt; "")
}

// A row minus another and the other way round; a byte beyond n + h is kept.
pub fn differences(rt: &impl Print) -> io::Result<()> {
    let mut tern = [9u8; 4];
    subtracted(
        rt,
        "TERN minus",
        &carried::tern(),
        &[2, 2],
        &[3, 1],
        &mut tern,
    )?;
    subtracted(
        rt,
        "TERN minus",
        &carried::tern(),
        &[3, 1],
        &[2, 2],
        &mut tern,
    )?;
    let mut bin = [9u8; 5];
    subtracted(rt, "BIN minus", &carried::bin(), &[1, 1], &[2, 0], &mut bin)?;
    subtracted(rt, "BIN minus", &carried::bin(), b"", b"", &mut bin)
}

// The rows of two of these with every digit negated: so is every digit of the difference.
pub fn negated_rows(rt: &impl Print) -> io::Result<()> {
    let mut tern = [9u8; 4];
    subtracted(
        rt,
        "negated TERN minus",
        &carried::tern(),
        &[4, 4],
        &[1, 3],
        &mut tern,
    )?;
    let mut bin = [9u8; 5];
    subtracted(
        rt,
        "negated BIN minus",
        &carried::bin(),
        &[2, 2],
        &[1, 0],
        &mut bin,
    )
}

// Without negative digits 42, also for empty rows, and not before 23; a sum is given.
pub fn unlisted(rt: &impl Print) -> io::Result<()> {
    let mut out = [9u8; 2];
    additions::summed(
        rt,
        "whole",
        &tables::without_negatives(),
        &[1],
        &[0],
        &mut out,
    )?;
    subtracted(
        rt,
        "whole minus",
        &tables::without_negatives(),
        b"",
        b"",
        &mut out,
    )?;
    subtracted(
        rt,
        "whole minus",
        &tables::without_negatives(),
        &[1],
        &[2],
        &mut out,
    )?;
    subtracted(
        rt,
        "whole minus",
        &tables::without_negatives(),
        &[1, 1],
        &[1, 1],
        &mut out,
    )
}

// A table that only the check refuses: 27.
pub fn damaged_difference(rt: &impl Print) -> io::Result<()> {
    let mut out = [9u8; 3];
    subtracted(
        rt,
        "damaged minus",
        &tables::damaged(),
        &[2, 1],
        &[4, 3],
        &mut out,
    )
}
