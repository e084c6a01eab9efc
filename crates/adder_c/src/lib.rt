// The calls for C and Rust: each slice is a pointer and then a length. Facts and faults go into a lent array of signed 64-bit words,
// at least 8 long: 0 and the facts, or whose fault it is (1 author, 2 rows, 3 editor), its number and its place; further words keep
// their contents. A call returns 0 for facts, 1 for a fault, and 2 where a lent array is too short, which it then leaves alone.
#![tactic(auto)]

ghost use Rattle.std.specs.Prelude.{◌≡◌, [], ◌∷◌, length};
ghost use Rattle.lists.specs.Overwrite.{overwrite};
ghost use Rattle.faults.specs.Outcome.{facts};
ghost use Rattle.ring.specs.declared.Degree.TheVariants.{Four};
ghost use Rattle.layout_rules.specs.Section.{degree_in};
ghost use Rattle.midpoint.specs.Midpoint.{midpoint_of};
ghost use Rattle.table_rules.specs.Check.{check_outcome};
ghost use Rattle.forecast_rules.specs.Forecast.{forecast_outcome};
ghost use Rattle.adder_rules.specs.Calls.{add_outcome, add_sum, subtract_outcome, subtract_difference};
ghost use Rattle.edit_rules.specs.Edit.{edit_outcome, edit_state};
ghost use Rattle.edit_rules.specs.State.{state};
ghost use Rattle.value_call_rules.specs.Value.{value_outcome};
ghost use Rattle.carried.specs.Tables.{tern_file, bin_file};
ghost use Rattle.answer_rules.specs.Answer.{if_room, returned, answered, check_words, forecast_words, add_words, edit_words, element_words};

use midpoint::Element;
use ring::Degree;

mod bad_rows;
mod run;

#[unsafe(no_mangle)]
pub extern "C" fn yoyomyrtle_check(file: &[u8], answer: &mut [i64]) -> u64
    ensures outcome { result ≡ returned (check_outcome file.now) answer.old }
    ensures answer { answer.new ≡ answered check_words (check_outcome file.now) answer.old }
{
    if answer.len() < 8 {
        return 2;
    }
    answers::checked(answer, table::check(file))
}

// The number of digits has 64 bits, as usize has.
#[unsafe(no_mangle)]
pub extern "C" fn yoyomyrtle_forecast(table: &[u8], digits: u64, answer: &mut [i64]) -> u64
    ensures outcome { result ≡ returned (forecast_outcome table.now digits) answer.old }
    ensures answer { answer.new ≡ answered forecast_words (forecast_outcome table.now digits) answer.old }
{
    if answer.len() < 8 {
        return 2;
    }
    answers::forecasted(answer, forecast::forecast(table, digits as usize))
}

#[unsafe(no_mangle)]
pub extern "C" fn yoyomyrtle_add(
    table: &[u8],
    first: &[u8],
    second: &[u8],
    sum: &mut [u8],
    answer: &mut [i64],
) -> u64
    ensures outcome { let o = add_outcome table.now first.now second.now (length sum.old) in
        (result ≡ returned o answer.old)
        × (answer.new ≡ answered add_words o answer.old) }
    ensures sum { sum.new
        ≡ if_room 8 (length answer.old)
        (add_sum table.now first.now second.now sum.old) sum.old }
{
    if answer.len() < 8 {
        return 2;
    }
    answers::added(answer, adder::add(table, first, second, sum))
}

#[unsafe(no_mangle)]
pub extern "C" fn yoyomyrtle_subtract(
    table: &[u8],
    first: &[u8],
    second: &[u8],
    difference: &mut [u8],
    answer: &mut [i64],
) -> u64
    ensures outcome { let o = subtract_outcome table.now first.now second.now (length difference.old) in
        (result ≡ returned o answer.old)
        × (answer.new ≡ answered add_words o answer.old) }
    ensures difference { difference.new
        ≡ if_room 8 (length answer.old)
        (subtract_difference table.now first.now second.now difference.old) difference.old }
{
    if answer.len() < 8 {
        return 2;
    }
    answers::added(answer, adder::subtract(table, first, second, difference))
}

// The row number, the place and the digit have 64 bits, as usize has.
#[unsafe(no_mangle)]
pub extern "C" fn yoyomyrtle_edit(
    table: &[u8],
    first: &mut [u8],
    second: &mut [u8],
    sum: &mut [u8],
    row: u64,
    place: u64,
    digit: u64,
    answer: &mut [i64],
) -> u64
    ensures outcome { let o = edit_outcome table.now (record { row = row; place = place; digit = digit })
        (state first.old second.old sum.old) in
        (result ≡ returned o answer.old)
        × (answer.new ≡ answered edit_words o answer.old) }
    ensures buffers { let s = state first.old second.old sum.old in
        state first.new second.new sum.new
        ≡ if_room 8 (length answer.old)
        (edit_state table.now (record { row = row; place = place; digit = digit }) s) s }
{
    if answer.len() < 8 {
        return 2;
    }
    let given = edit_call::edit(
        table,
        first,
        second,
        sum,
        row as usize,
        place as usize,
        digit as usize,
    );
    answers::edited(answer, given)
}

#[unsafe(no_mangle)]
pub extern "C" fn yoyomyrtle_value(table: &[u8], row: &[u8], answer: &mut [i64]) -> u64
    ensures outcome { result ≡ returned (value_outcome table.now row.now) answer.old }
    ensures answer { answer.new ≡ answered (element_words (degree_in table.now)) (value_outcome table.now row.now) answer.old }
{
    if answer.len() < 8 {
        return 2;
    }
    let degree = layout::degree_in(table);
    answers::valued(degree, answer, value_call::value(table, row))
}

// It takes and tells all four parts, so that it needs no degree and no input is wrong: a caller of a smaller degree gives zeros above it, and
// the midpoint of two zeros is zero.
#[unsafe(no_mangle)]
pub extern "C" fn yoyomyrtle_midpoint(
    a1: i32,
    b1: i32,
    c1: i32,
    d1: i32,
    a2: i32,
    b2: i32,
    c2: i32,
    d2: i32,
    answer: &mut [i64],
) -> u64
    ensures outcome { result ≡ returned (facts (midpoint_of (a1 ∷ b1 ∷ c1 ∷ d1 ∷ []) (a2 ∷ b2 ∷ c2 ∷ d2 ∷ []))) answer.old }
    ensures answer { answer.new
        ≡ answered (element_words Four) (facts (midpoint_of (a1 ∷ b1 ∷ c1 ∷ d1 ∷ []) (a2 ∷ b2 ∷ c2 ∷ d2 ∷ []))) answer.old }
{
    if answer.len() < 8 {
        return 2;
    }
    let x = Element {
        a: a1,
        b: b1,
        c: c1,
        d: d1,
    };
    let y = Element {
        a: a2,
        b: b2,
        c: c2,
        d: d2,
    };
    let degree = Degree::Four;
    answer_words::put_element(degree, answer, midpoint::midpoint(x, y))
}

// TERN's bytes, in the first 165 of `out`.
#[unsafe(no_mangle)]
pub extern "C" fn yoyomyrtle_tern(out: &mut [u8]) -> u64
    ensures outcome { result ≡ if_room 165 (length out.old) 0 2 }
    ensures bytes { out.new
        ≡ if_room 165 (length out.old) (overwrite out.old 0 tern_file) out.old }
{
    if out.len() < 165 {
        return 2;
    }
    octets::put(out, 0, &carried::tern());
    0
}

// BIN's bytes, in the first 187 of `out`.
#[unsafe(no_mangle)]
pub extern "C" fn yoyomyrtle_bin(out: &mut [u8]) -> u64
    ensures outcome { result ≡ if_room 187 (length out.old) 0 2 }
    ensures bytes { out.new
        ≡ if_room 187 (length out.old) (overwrite out.old 0 bin_file) out.old }
{
    if out.len() < 187 {
        return 2;
    }
    octets::put(out, 0, &carried::bin());
    0
}
