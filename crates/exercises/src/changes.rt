// Edits. An edit is a row number, a place and an alphabet index.
ghost use Rattle.std.specs.Prelude.{◌≤◌, length};

use exercise_calls::{additions, degrees, tables};
use std::io;

// 24, 25 and 26 each alone, then where a later rule is broken too; the largest numbers; digits whose lowest byte is an index.
const REFUSED: [[usize; 3]; 9] = [
    [2, 0, 1],
    [0, 2, 1],
    [0, 0, 5],
    [2, 2, 5],
    [1, 2, 5],
    [18446744073709551615, 0, 0],
    [0, 18446744073709551615, 0],
    [1, 1, 18446744073709551615],
    [1, 1, 256],
];

const TERN_EDITS: [[usize; 3]; 6] = [
    [0, 0, 4],
    [1, 3, 4],
    [1, 3, 4],
    [0, 1, 2],
    [0, 4, 1],
    [0, 2, 4],
];

const BIN_EDITS: [[usize; 3]; 6] = [
    [1, 0, 0],
    [0, 0, 2],
    [1, 3, 1],
    [1, 1, 3],
    [0, 2, 2],
    [0, 0, 1],
];

// The word below the edited place is the longest, then no long word is looked up, then it is gone.
const REACH_EDITS: [[usize; 3]; 3] = [[0, 1, 1], [0, 2, 0], [0, 0, 0]];

// Job 8: the edit that crate marked has, one that a digit outside the alphabet refuses, the first back again.
const CUBIC_EDITS: [[usize; 3]; 3] = [[1, 1, 4], [0, 2, 5], [1, 1, 2]];

const QUARTIC_EDITS: [[usize; 3]; 3] = [[0, 0, 2], [1, 2, 3], [0, 0, 1]];

// `LABEL changed K reach R FIRST SECOND SUM`, or the fault and the buffers: each whole, as the call left it. No line feed.
fn changed(
    rt: &impl Print,
    label: &str,
    table: &[u8],
    first: &mut [u8],
    second: &mut [u8],
    sum: &mut [u8],
    edit: [usize; 3],
) -> io::Result<()>
    requires { (length first.old ≤ 260) × (length second.old ≤ 260) × (length sum.old ≤ 260) }
{
    print!(rt; "{label} ")?;
    let [row, place, digit] = edit;
    printed::edited(
        rt,
        edit_call::edit(table, first, second, sum, row, place, digit),
    )?;
    printed::buffer(rt, first)?;
    printed::buffer(rt, second)?;
    printed::buffer(rt, sum)
}

// M7, and M8 after it
pub fn after_sum(rt: &impl Print) -> io::Result<()> {
    let mut first = [2u8, 2];
    let mut second = [1u8, 2];
    let mut sum = [9u8; 3];
    additions::summed(rt, "M7", &carried::tern(), &first, &second, &mut sum)?;
    changed(
        rt,
        "M8",
        &carried::tern(),
        &mut first,
        &mut second,
        &mut sum,
        [0, 0, 4],
    )?;
    println!(rt; "")
}

// An edit, then ` same` if the sum is the one that a whole addition of the rows writes into another buffer, else ` other`.
fn step(
    rt: &impl Print,
    label: &str,
    table: &[u8],
    first: &mut [u8],
    second: &mut [u8],
    sum: &mut [u8],
    whole: &mut [u8],
    edit: [usize; 3],
) -> io::Result<()>
    requires { (length first.old ≤ 260) × (length second.old ≤ 260) × (length sum.old ≤ 260) }
{
    changed(rt, label, table, first, second, sum, edit)?;
    let _ = adder::add(table, first, second, whole);
    if &sum[..] == &whole[..] {
        println!(rt; " same")
    } else {
        println!(rt; " other")
    }
}

// An addition, then a list of edits.
fn listed<const N: usize, const M: usize>(
    rt: &impl Print,
    label: &str,
    table: &[u8],
    mut first: [u8; N],
    mut second: [u8; N],
    mut sum: [u8; M],
    list: &[[usize; 3]],
) -> io::Result<()>
    requires { (N ≤ 260) × (M ≤ 260) }
{
    let mut whole = [8u8; M];
    additions::summed(rt, label, table, &first, &second, &mut sum)?;
    for &edit in list {
        step(
            rt,
            label,
            table,
            &mut first,
            &mut second,
            &mut sum,
            &mut whole,
            edit,
        )?;
    }
    Ok(())
}

pub fn refusals_in_order(rt: &impl Print) -> io::Result<()> {
    let table = carried::tern();
    listed(rt, "order", &table, [2, 2], [1, 2], [9; 3], &REFUSED)
}

pub fn tern_list(rt: &impl Print) -> io::Result<()> {
    let table = carried::tern();
    listed(
        rt,
        "TERN",
        &table,
        [2, 3, 0, 1],
        [1, 4, 2, 1],
        [9; 5],
        &TERN_EDITS,
    )
}

pub fn bin_list(rt: &impl Print) -> io::Result<()> {
    let table = carried::bin();
    listed(
        rt,
        "BIN",
        &table,
        [1, 1, 1, 1],
        [1, 0, 0, 2],
        [9; 6],
        &BIN_EDITS,
    )
}

pub fn reach_list(rt: &impl Print) -> io::Result<()> {
    let table = carried::bin();
    listed(
        rt,
        "reach",
        &table,
        [1, 0, 0],
        [0, 1, 0],
        [9; 5],
        &REACH_EDITS,
    )
}

pub fn cubic_list(rt: &impl Print) -> io::Result<()> {
    let table = degrees::cubic();
    listed(
        rt,
        "cubic",
        &table,
        [2, 1, 3],
        [2, 2, 4],
        [9; 4],
        &CUBIC_EDITS,
    )
}

pub fn quartic_list(rt: &impl Print) -> io::Result<()> {
    let table = degrees::quartic();
    listed(
        rt,
        "quartic",
        &table,
        [1, 1, 2],
        [1, 0, 2],
        [9; 5],
        &QUARTIC_EDITS,
    )
}

// The table's fault and the rows' come before the editor's; nothing is written.
pub fn earlier_faults(rt: &impl Print) -> io::Result<()> {
    let mut first = [2u8, 0];
    let mut second = [2u8, 1];
    let mut sum = [9u8; 2];
    changed(
        rt,
        "faults",
        b"",
        &mut first,
        &mut second,
        &mut sum,
        [2, 2, 5],
    )?;
    println!(rt; "")?;
    changed(
        rt,
        "faults",
        &carried::tern(),
        &mut first,
        &mut second,
        &mut sum,
        [2, 2, 5],
    )?;
    println!(rt; "")
}

// 27, of a table that only the check refuses; nothing is written.
pub fn damaged_edit(rt: &impl Print) -> io::Result<()> {
    let mut first = [2u8, 0];
    let mut second = [2u8, 1];
    let mut sum = [1u8, 2, 0];
    changed(
        rt,
        "damaged",
        &tables::damaged(),
        &mut first,
        &mut second,
        &mut sum,
        [0, 1, 1],
    )?;
    println!(rt; "")
}

// 256 digits: the top place is edited after the addition.
pub fn longest_rows(rt: &impl Print) -> io::Result<()> {
    let mut first = [1u8; 256];
    let mut second = [1u8; 256];
    let mut sum = [9u8; 257];
    let _ = adder::add(&carried::tern(), &first, &second, &mut sum);
    changed(
        rt,
        "TERN 256",
        &carried::tern(),
        &mut first,
        &mut second,
        &mut sum,
        [0, 255, 4],
    )?;
    println!(rt; "")
}

// 257 digits.
pub fn longer_rows(rt: &impl Print) -> io::Result<()> {
    let mut first = [1u8; 257];
    let mut second = [1u8; 257];
    let mut sum = [9u8; 258];
    changed(
        rt,
        "TERN 257",
        &carried::tern(),
        &mut first,
        &mut second,
        &mut sum,
        [0, 255, 4],
    )?;
    println!(rt; "")
}
