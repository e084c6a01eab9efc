// Lists of edits through the runner: check, addition and each edit in turn.
ghost use Rattle.std.specs.Prelude.{◌≤◌, length};

use exercise_calls::tables;
use faults::Fault;
use runner_rules::RanFacts;
use std::io;

// M8 after its addition; 24, 25 and 26; another that is taken.
const ROWS: [usize; 5] = [0, 2, 1, 1, 1];

const PLACES: [usize; 5] = [0, 0, 2, 1, 1];

const DIGITS: [usize; 5] = [4, 0, 1, 5, 0];

// `ran K`, or the fault.
fn ran(rt: &impl Print, answer: Result<RanFacts, Fault>) -> io::Result<()> {
    match answer {
        Ok(facts) => print!(rt; "ran {}", facts.edits),
        Err(fault) => printed::refused(rt, fault),
    }
}

// Three numbers for each answer, and the entry behind the last.
fn told(
    rt: &impl Print,
    whose: &[usize; 6],
    numbers: &[usize; 6],
    values: &[usize; 6],
) -> io::Result<()> {
    for i in 0..6 {
        print!(rt; " | {} {} {}", whose[i], numbers[i], values[i])?;
    }
    Ok(())
}

// `LABEL ran K FIRST SECOND SUM`, or the fault and the buffers; then what the slices of answers hold, 7 at first.
fn listed(
    rt: &impl Print,
    label: &str,
    table: &[u8],
    first: &mut [u8],
    second: &mut [u8],
    sum: &mut [u8],
) -> io::Result<()>
    requires { (length first.old ≤ 260) × (length second.old ≤ 260) × (length sum.old ≤ 260) }
{
    let mut whose = [7usize; 6];
    let mut numbers = [7usize; 6];
    let mut values = [7usize; 6];
    print!(rt; "{label} ")?;
    ran(
        rt,
        runner::run(
            table,
            first,
            second,
            sum,
            &ROWS,
            &PLACES,
            &DIGITS,
            &mut whose,
            &mut numbers,
            &mut values,
        ),
    )?;
    printed::buffer(rt, first)?;
    printed::buffer(rt, second)?;
    printed::buffer(rt, sum)?;
    told(rt, &whose, &numbers, &values)?;
    println!(rt; "")
}

// A list that starts, one that the check refuses with 14, one that the addition refuses with 23.
pub fn runs(rt: &impl Print) -> io::Result<()> {
    let mut first = [2u8, 2];
    let mut second = [1u8, 2];
    let mut sum = [9u8; 4];
    listed(
        rt,
        "list",
        &tables::damaged(),
        &mut first,
        &mut second,
        &mut sum,
    )?;
    listed(
        rt,
        "list",
        &carried::tern(),
        &mut first,
        &mut second,
        &mut sum,
    )?;
    let mut short = [9u8; 2];
    listed(
        rt,
        "list",
        &carried::tern(),
        &mut first,
        &mut second,
        &mut short,
    )
}
