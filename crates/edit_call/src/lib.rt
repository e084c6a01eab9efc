// The digit edit as a call: the table, the rows and what the editor asks for are checked, then the edit is made.
#![tactic(auto)]

ghost use Rattle.std.specs.Prelude.{◌≡◌};
ghost use Rattle.edit_rules.specs.Edit.{edit_outcome, edit_state};
ghost use Rattle.edit_rules.specs.State.{state};
ghost use Rattle.faults.specs.Answer.{outcome_of};

use edit_rules::EditedFacts;
use faults::Fault;
use row_rules::Change;

// Stores a digit of a row and renews the sum places that it reaches, or a fault and nothing written.
pub fn edit(
    table: &[u8],
    first: &mut [u8],
    second: &mut [u8],
    sum: &mut [u8],
    row: usize,
    place: usize,
    digit: usize,
) -> Result<EditedFacts, Fault>
    ensures outcome { outcome_of result
        ≡ edit_outcome table.now (record { row = row; place = place; digit = digit })
        (state first.old second.old sum.old) }
    ensures buffers { state first.new second.new sum.new
        ≡ edit_state table.now (record { row = row; place = place; digit = digit })
        (state first.old second.old sum.old) }
{
    let facts = reader::read(table)?;
    let digits = facts.alphabet.count;
    if let Err(found) = rows::row_check(first, second, sum.len(), digits, facts.depth) {
        return Err(found.by_rows());
    }
    if let Err(found) = rows::edit_check(row, place, digit, first.len(), digits) {
        return Err(found.by_editor());
    }
    let change = Change {
        row,
        place,
        digit: digit as u8,
    };
    row_edit::edit_rows(table, first, second, sum, facts.depth, change)
}
