// The value of a row: rules 1 to 13 of the table, 20 and 21 of the row, then 28.
#![tactic(auto)]

ghost use Rattle.std.specs.Prelude.{◌≡◌};
ghost use Rattle.layout_rules.specs.Section.{of_degree};
ghost use Rattle.digit_rules.specs.BaseMatrix.{base_matrix};
ghost use Rattle.digit_rules.specs.Digits.{BasePart};
ghost use Rattle.digit_rules.specs.Record.{element_count};
ghost use Rattle.row_rules.specs.Fit.{Indexes};
ghost use Rattle.row_value_rules.specs.Total.{worth_of};
ghost use Rattle.reader_rules.specs.Table.{alphabet_part};
ghost use Rattle.reader_rules.specs.Check.{table_check};
ghost use Rattle.value_call_rules.specs.Value.{row_outcome, value_outcome};
ghost use Rattle.midpoint.specs.Midpoint.{parts};
ghost use Rattle.faults.specs.Answer.{outcome_by};

use faults::Fault;
use midpoint::Element;
use ring::Degree;

// Rule 28, and the value of a row of alphabet indexes.
fn total(degree: Degree, base: &[u8], alphabet: &[u8], row: &[u8]) -> Result<Element, Fault>
    requires { BasePart (of_degree degree base.now) × Indexes (element_count (of_degree degree alphabet.now)) row.now }
    ensures { outcome_by parts result ≡ worth_of (base_matrix (of_degree degree base.now)) (of_degree degree alphabet.now) row.now }
{
    match row_value::row_value_by(degree, digits::base_of(degree, base), alphabet, row) {
        Ok(element) => Ok(element),
        Err(over) => Err(Fault::Rows {
            number: 28,
            place: over.place,
        }),
    }
}

// Rules 20, 21 and 28 of a row, for a table that passes 1 to 13 and its alphabet's size.
fn row_value(table: &[u8], digits: usize, row: &[u8]) -> Result<Element, Fault>
    requires { ((table_check table.now).number ≡ 0) × (digits ≡ element_count (alphabet_part table.now)) }
    ensures { outcome_by parts result ≡ row_outcome table.now row.now }
{
    if let Err(found) = rows::one_row_check(row, digits) {
        return Err(found.by_rows());
    }
    let degree = layout::degree_in(table);
    total(
        degree,
        reader::section(table, 0),
        reader::section(table, 1),
        row,
    )
}

// The value of a row, or the first fault: the author's of the table, or the rows'.
pub fn value(table: &[u8], row: &[u8]) -> Result<Element, Fault>
    ensures { outcome_by parts result ≡ value_outcome table.now row.now }
{
    let facts = reader::read(table)?;
    row_value(table, facts.alphabet.count, row)
}
