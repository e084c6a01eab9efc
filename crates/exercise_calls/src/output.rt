// The lines that begin with a label.
use bad_row_rules::BadRow;
use faults::Fault;
use forecast_rules::ForecastFacts;
use midpoint::Element;
use ring::Degree;
use std::io;
use table_rules::Facts;

// `LABEL yes` or `LABEL no`
pub fn verdict(rt: &impl Print, label: &str, holds: bool) -> io::Result<()> {
    let word = if holds { "yes" } else { "no" };
    println!(rt; "{label} {word}")
}

// `LABEL accepted depth h leaves L digits A pairs P`, or the fault.
pub fn checked(rt: &impl Print, label: &str, answer: Result<Facts, Fault>) -> io::Result<()> {
    print!(rt; "{label} ")?;
    printed::checked(rt, answer)?;
    println!(rt; "")
}

// `LABEL pairs P bytes B`, or the fault.
pub fn forecasted(
    rt: &impl Print,
    label: &str,
    answer: Result<ForecastFacts, Fault>,
) -> io::Result<()> {
    print!(rt; "{label} ")?;
    printed::forecasted(rt, answer)?;
    println!(rt; "")
}

fn failing(rt: &impl Print, degree: Degree, row: BadRow) -> io::Result<()> {
    printed::failing(rt, degree, row)?;
    print!(rt; " bytes {}", row.bytes)
}

// `LABEL pair U L digit PARTS bytes K`, or that there is nothing to show, or the fault. No line feed.
pub fn shown(
    rt: &impl Print,
    label: &str,
    degree: Degree,
    answer: Result<Option<BadRow>, Fault>,
) -> io::Result<()> {
    print!(rt; "{label} ")?;
    match answer {
        Ok(Some(row)) => failing(rt, degree, row),
        Ok(None) => print!(rt; "nothing"),
        Err(fault) => printed::refused(rt, fault),
    }
}

// `LABEL value` and the parts, or the fault.
pub fn valued(
    rt: &impl Print,
    label: &str,
    degree: Degree,
    answer: Result<Element, Fault>,
) -> io::Result<()> {
    print!(rt; "{label} ")?;
    printed::valued(rt, degree, answer)?;
    println!(rt; "")
}
