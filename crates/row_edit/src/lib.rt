// The digit edit on rows that pass 20 to 26.
#![tactic(auto)]

ghost use Rattle.std.specs.Prelude.{◌≡◌, ℕ, ◌+◌, ◌≤◌, ◌<◌, length};
ghost use Rattle.faults.specs.Outcome.{rows};
ghost use Rattle.reader_rules.specs.TableFacts.{table_facts};
ghost use Rattle.reader_rules.specs.Check.{table_check};
ghost use Rattle.row_rules.specs.Changed.{changed};
ghost use Rattle.row_rules.specs.Fit.{EditFits};
ghost use Rattle.row_rules.specs.Rows.{RowsFit};
ghost use Rattle.adder_rules.specs.Sum.{digit_count};
ghost use Rattle.edit_rules.specs.Count.{differing};
ghost use Rattle.edit_rules.specs.Edit.{renew_outcome, renew_state};
ghost use Rattle.edit_rules.specs.State.{state};
ghost use Rattle.faults.specs.Answer.{outcome_of};

use edit_rules::EditedFacts;
use faults::Fault;
use ring::Operation;
use row_rules::Change;

// The end of the part of a row of n digits that the digits up to place + depth depend on.
fn part_end(place: usize, depth: usize, n: usize) -> usize
    requires { (place < n) × (n ≤ 256) × (depth ≤ 8) }
    ensures above { place < result }
    ensures within { result ≤ n }
    ensures reach { (k : ℕ) → k ≤ place + depth → k < n → k < result }
{
    n.min(place + depth + 1)
}

// Stores the digit in the row that is named, and in no other.
fn store(change: Change, first: &mut [u8], second: &mut [u8])
    requires { (change.row ≤ 1) × (change.place < length first.old) × (change.place < length second.old) }
    ensures first { first.new ≡ changed change 0 first.old }
    ensures second { second.new ≡ changed change 1 second.old }
{
    if change.row == 0 {
        first[change.place] = change.digit;
    } else {
        second[change.place] = change.digit;
    }
}

// Writes digits over a part of the sum; how many of its bytes are others than before.
fn renew(part: &mut [u8], digits: &[u8]) -> usize
    requires { length digits.now ≡ length part.old }
    ensures count { result ≡ differing part.old digits.now 0 (length part.old) }
    ensures part { part.new ≡ digits.now }
{
    let mut count = 0;
    for k in 0..part.len() {
        if part[k] != digits[k] {
            count += 1;
        }
        part[k] = digits[k];
    }
    count
}

// The edit of rows that pass 20 to 26, or fault 27. Every digit is computed from the rows with the change before anything is stored.
pub fn edit_rows(
    table: &[u8],
    first: &mut [u8],
    second: &mut [u8],
    sum: &mut [u8],
    depth: usize,
    change: Change,
) -> Result<EditedFacts, Fault>
    requires table { (table_check table.now).number ≡ 0 }
    requires rows { RowsFit first.old second.old (length sum.old) (digit_count table.now) (table_facts table.now).depth }
    requires edit { EditFits change.row change.place change.digit (length first.old) (digit_count table.now) }
    requires depth { depth ≡ (table_facts table.now).depth }
    ensures outcome { outcome_of result
        ≡ renew_outcome table.now change (state first.old second.old sum.old) }
    ensures buffers { state first.new second.new sum.new
        ≡ renew_state table.now change (state first.old second.old sum.old) }
{
    let place = change.place;
    let from = place.saturating_sub(depth);
    let end = part_end(place, depth, first.len());
    let row = adder::inputs_of(
        Operation::Plus,
        table,
        Some(change),
        first,
        second,
        from,
        end,
    );
    let mut digits = [0u8; 9];
    let found = adder::digits_of(table, &row, place, depth + 1, &mut digits);
    if found.count <= depth {
        return Err(Fault::Author {
            number: 27,
            place: place + found.count,
        });
    }
    store(change, first, second);
    let count = renew(&mut sum[place..place + depth + 1], &digits[..depth + 1]);
    Ok(EditedFacts {
        count,
        reach: found.reach,
    })
}
