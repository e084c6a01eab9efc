// The program `exercises`: M1 to M12 of document 01 and further cases through the public calls, a line for each. A digit is written
// as the byte that it is in a row: its alphabet index, two hexadecimal digits; in the string of a bad row it is the input index.
#![tactic(auto)]

use exercise_calls::{
    additions, arithmetic, bad_rows, degrees, forecasts, lines, subtractions, tables, values,
};
use std::io;

mod changes;
mod listed_edits;
mod orders;

// M1 to M12
fn marked(rt: &impl Print) -> io::Result<()> {
    arithmetic::products(rt)?;
    arithmetic::bases(rt)?;
    changes::after_sum(rt)?;
    additions::sums(rt)?;
    additions::empty_rows(rt)?;
    tables::without_weight(rt)
}

fn tables_and_sums(rt: &impl Print) -> io::Result<()> {
    tables::carried_tables(rt)?;
    additions::tern_limits(rt)?;
    additions::bin_limits(rt)?;
    additions::row_faults(rt)?;
    additions::damaged_sums(rt)
}

// Job 3
fn mirrored_tables(rt: &impl Print) -> io::Result<()> {
    additions::negated_rows(rt)?;
    subtractions::negated_rows(rt)
}

fn differences(rt: &impl Print) -> io::Result<()> {
    subtractions::differences(rt)?;
    subtractions::unlisted(rt)?;
    subtractions::damaged_difference(rt)
}

fn edited_rows(rt: &impl Print) -> io::Result<()> {
    changes::refusals_in_order(rt)?;
    changes::earlier_faults(rt)?;
    changes::damaged_edit(rt)?;
    changes::tern_list(rt)?;
    changes::bin_list(rt)?;
    changes::reach_list(rt)?;
    changes::longest_rows(rt)?;
    changes::longer_rows(rt)?;
    listed_edits::runs(rt)
}

fn elements_of_rows(rt: &impl Print) -> io::Result<()> {
    values::of_tern_sums(rt)?;
    values::of_bin_sums(rt)?;
    values::of_tern_rows(rt)?;
    values::of_no_table(rt)?;
    values::of_bin_rows(rt)?;
    arithmetic::midpoints(rt)
}

// Job 13
fn forecast_tables(rt: &impl Print) -> io::Result<()> {
    forecasts::of_tables(rt)?;
    forecasts::of_lengths(rt)?;
    forecasts::of_no_table(rt)
}

// Job 5
fn rows_to_show(rt: &impl Print) -> io::Result<()> {
    bad_rows::of_tables(rt)?;
    bad_rows::of_degrees(rt)?;
    bad_rows::of_no_table(rt)?;
    bad_rows::added(rt)
}

// Job 8
fn degrees_three_and_four(rt: &impl Print) -> io::Result<()> {
    degrees::checks(rt)?;
    degrees::sums(rt)?;
    changes::cubic_list(rt)?;
    changes::quartic_list(rt)?;
    arithmetic::midpoint_of_four(rt)
}

// Job 10
fn edits_in_both_orders(rt: &impl Print) -> io::Result<()> {
    orders::of_bin(rt)?;
    orders::of_tern(rt)
}

fn main(rt: HostRuntime) -> io::Result<()> {
    marked(&rt)?;
    tables_and_sums(&rt)?;
    differences(&rt)?;
    edited_rows(&rt)?;
    elements_of_rows(&rt)?;
    degrees_three_and_four(&rt)?;
    forecast_tables(&rt)?;
    rows_to_show(&rt)?;
    mirrored_tables(&rt)?;
    edits_in_both_orders(&rt)?;
    lines::of_files(&rt)
}
