// Addition and subtraction of two rows: one body, with the operation on two digits as a parameter.
#![tactic(auto)]

ghost use Rattle.std.specs.Prelude.{◌≡◌, ℕ, ◌+◌, ◌≤◌, ◌<◌, length, get_or};
ghost use Rattle.lists.specs.Scan.{first_failing};
ghost use Rattle.lists.specs.Overwrite.{overwrite};
ghost use Rattle.faults.specs.Outcome.{at_exit};
ghost use Rattle.numeration.specs.Code.{Inputs};
ghost use Rattle.digit_rules.specs.Digits.{operation_check};
ghost use Rattle.reader_rules.specs.Table.{alphabet_part, input_part, input_count};
ghost use Rattle.reader_rules.specs.TableFacts.{table_facts};
ghost use Rattle.reader_rules.specs.Check.{table_check};
ghost use Rattle.row_rules.specs.Rows.{RowsFit};
ghost use Rattle.rows.specs.ChangedBy.{changed_by};
ghost use Rattle.place_rules.specs.Helpers.{part_row};
ghost use Rattle.adder_rules.specs.Sum.{digit_count, place_count, row_reach};
ghost use Rattle.adder_rules.specs.Input.{input_of};
ghost use Rattle.adder_rules.specs.Add.{row_allowed, row_part, result_row, digits_outcome, asked_outcome, result_outcome, result_in};
ghost use Rattle.adder_rules.specs.Calls.{add_outcome, add_sum, subtract_outcome, subtract_difference};
ghost use Rattle.faults.specs.Answer.{outcome_of};

use adder_rules::AddedFacts;
use faults::Fault;
use places::Written;
use ring::Operation;
use row_rules::Change;

// The row of input indexes of two rows with the change made, at the places from `from` up to `end`; zeros elsewhere.
pub fn inputs_of(
    operation: Operation,
    table: &[u8],
    change: Option<Change>,
    first: &[u8],
    second: &[u8],
    from: usize,
    end: usize,
) -> [u8; 256]
    requires table { (table_check table.now).number ≡ 0 }
    requires part { (from ≤ end) × (end ≤ 256)
        × ((k : ℕ) → k < end → get_or (changed_by change 0 first.now) k 0 < digit_count table.now)
        × ((k : ℕ) → k < end → get_or (changed_by change 1 second.now) k 0 < digit_count table.now) }
    ensures { result ≡ part_row (input_of operation table.now
        (changed_by change 0 first.now) (changed_by change 1 second.now)) from end }
{
    let degree = layout::degree_in(table);
    let alphabet = reader::section(table, 1);
    let inputs = reader::section(table, 2);
    input_rows::input_row(
        degree, operation, alphabet, inputs, change, first, second, from, end,
    )
}

// Writes the alphabet indexes of the digits of a row of input indexes at the places from `from` on, up to the first digit that isn't
// in the alphabet, at most `count` of them.
pub fn digits_of(table: &[u8], row: &[u8], from: usize, count: usize, out: &mut [u8]) -> Written
    requires table { (table_check table.now).number ≡ 0 }
    requires inputs { Inputs (input_count table.now) row.now }
    requires room { (from + count < 65536) × (count ≤ length out.old) }
    ensures count { result.count ≡ first_failing (λ k. row_allowed table.now row.now (from + k)) 0 count }
    ensures reach { result.reach ≡ row_reach table.now row.now from result.count }
    ensures digits { out.new
        ≡ overwrite out.old 0 (row_part table.now row.now from result.count) }
{
    let degree = layout::degree_in(table);
    let base = digits::base_of(degree, reader::section(table, 0));
    let alphabet = reader::section(table, 1);
    let inputs = reader::section(table, 2);
    let leaves = reader::section(table, 3);
    let words = reader::section(table, 4);
    places::convert(
        degree, base, alphabet, inputs, leaves, words, row, from, count, out,
    )
}

// The result of rows that pass 20 to 23, where nothing that the operation asks is broken, or fault 27. Every digit is computed before any
// is written.
fn write_digits(
    operation: Operation,
    table: &[u8],
    first: &[u8],
    second: &[u8],
    places: usize,
    out: &mut [u8],
) -> Result<AddedFacts, Fault>
    requires table { (table_check table.now).number ≡ 0 }
    requires rows { RowsFit first.now second.now (length out.old) (digit_count table.now) (table_facts table.now).depth }
    requires asked { (operation_check operation (alphabet_part table.now) (input_part table.now)).number ≡ 0 }
    requires places { places ≡ place_count table.now first.now }
    ensures outcome { outcome_of result ≡ digits_outcome operation table.now first.now second.now }
    ensures out { out.new
        ≡ at_exit (digits_outcome operation table.now first.now second.now) out.old
        (overwrite out.old 0 (result_row operation table.now first.now second.now)) }
{
    let row = inputs_of(operation, table, None, first, second, 0, first.len());
    let mut digits = [0u8; 264];
    let found = digits_of(table, &row, 0, places, &mut digits);
    if found.count < places {
        return Err(Fault::Author {
            number: 27,
            place: found.count,
        });
    }
    octets::put(out, 0, &digits[..places]);
    Ok(AddedFacts {
        places,
        reach: found.reach,
    })
}

// The result of rows that pass 20 to 23, or what the operation asks and isn't so, or fault 27.
fn combine_rows(
    operation: Operation,
    table: &[u8],
    first: &[u8],
    second: &[u8],
    places: usize,
    out: &mut [u8],
) -> Result<AddedFacts, Fault>
    requires table { (table_check table.now).number ≡ 0 }
    requires rows { RowsFit first.now second.now (length out.old) (digit_count table.now) (table_facts table.now).depth }
    requires places { places ≡ place_count table.now first.now }
    ensures outcome { outcome_of result ≡ asked_outcome operation table.now first.now second.now }
    ensures out { out.new
        ≡ at_exit (asked_outcome operation table.now first.now second.now) out.old
        (overwrite out.old 0 (result_row operation table.now first.now second.now)) }
{
    let degree = layout::degree_in(table);
    let alphabet = reader::section(table, 1);
    let inputs = reader::section(table, 2);
    if let Err(asked) = digit_check::operation_rule(degree, operation, alphabet, inputs) {
        return Err(asked.by_author());
    }
    write_digits(operation, table, first, second, places, out)
}

// The result of the operation on two rows in the first n + h bytes of the lent buffer, or a fault and nothing written.
fn combine(
    operation: Operation,
    table: &[u8],
    first: &[u8],
    second: &[u8],
    out: &mut [u8],
) -> Result<AddedFacts, Fault>
    ensures outcome { outcome_of result
        ≡ result_outcome operation table.now first.now second.now (length out.old) }
    ensures out { out.new
        ≡ result_in operation table.now first.now second.now out.old }
{
    let facts = reader::read(table)?;
    if let Err(found) = rows::row_check(
        first,
        second,
        out.len(),
        facts.alphabet.count,
        facts.depth,
    ) {
        return Err(found.by_rows());
    }
    combine_rows(
        operation,
        table,
        first,
        second,
        first.len() + facts.depth,
        out,
    )
}

// The sum of two rows in the first n + h bytes of the sum buffer, or a fault and nothing written.
pub fn add(table: &[u8], first: &[u8], second: &[u8], sum: &mut [u8]) -> Result<AddedFacts, Fault>
    ensures outcome { outcome_of result
        ≡ add_outcome table.now first.now second.now (length sum.old) }
    ensures sum { sum.new
        ≡ add_sum table.now first.now second.now sum.old }
{
    combine(Operation::Plus, table, first, second, sum)
}

// The first row minus the second in the first n + h bytes of the lent buffer, or a fault and nothing written.
pub fn subtract(
    table: &[u8],
    first: &[u8],
    second: &[u8],
    difference: &mut [u8],
) -> Result<AddedFacts, Fault>
    ensures outcome { outcome_of result
        ≡ subtract_outcome table.now first.now second.now (length difference.old) }
    ensures difference { difference.new
        ≡ subtract_difference table.now first.now second.now difference.old }
{
    combine(Operation::Minus, table, first, second, difference)
}
