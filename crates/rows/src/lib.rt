// Rows of alphabet indexes as callers lend them: rules 20 to 26 of document 01 in stages, and a row read with one digit changed.
#![tactic(auto)]

ghost use Rattle.std.specs.Prelude.{◌≡◌, ◌<◌, position, leb, get_or};
ghost use Rattle.faults.specs.Passed.{passed};
ghost use Rattle.row_rules.specs.Check.{judge_one, lengths_allowed, index_check, room_allowed, row_check, digits_check, one_row_check, edit_check};
ghost use Rattle.rows.specs.ChangedBy.{changed_by};

use faults::Refusal;
use row_rules::Change;

// A rule that judges one thing, at place 0.
fn judge_one(number: usize, allowed: bool) -> Result<(), Refusal>
    requires { 0 < number }
    ensures { result ≡ passed (judge_one number allowed) }
{
    if allowed {
        Ok(())
    } else {
        Err(Refusal { number, place: 0 })
    }
}

fn lengths_allowed(n: usize, m: usize) -> bool
    ensures { result ≡ lengths_allowed n m }
{
    n <= 256 && m == n
}

// The first place of a row whose byte is no alphabet index.
fn first_outside(row: &[u8], digits: usize) -> Option<usize>
    ensures { result ≡ position (λ digit. leb digits digit) row.now }
{
    row.iter().position(|&digit| digits <= digit as usize)
}

fn index_check(number: usize, row: &[u8], digits: usize) -> Result<(), Refusal>
    requires { 0 < number }
    ensures { result ≡ passed (index_check number digits row.now) }
{
    // the highest byte says yes at once; the search names the place
    if (octets::highest(row) as usize) < digits {
        return Ok(());
    }
    match first_outside(row, digits) {
        Some(place) => Err(Refusal { number, place }),
        None => Ok(()),
    }
}

// Whether n + depth bytes fit, without a sum that could wrap.
fn has_room(n: usize, depth: usize, sum: usize) -> bool
    ensures { result ≡ room_allowed n depth sum }
{
    n <= sum && depth <= sum - n
}

// Rules 20 to 23, of two rows and a sum buffer of this length, for an alphabet of this size and a table of this depth.
pub fn row_check(
    first: &[u8],
    second: &[u8],
    sum: usize,
    digits: usize,
    depth: usize,
) -> Result<(), Refusal>
    ensures { result ≡ passed (row_check first.now second.now sum digits depth) }
{
    judge_one(20, lengths_allowed(first.len(), second.len()))?;
    index_check(21, first, digits)?;
    index_check(22, second, digits)?;
    judge_one(23, has_room(first.len(), depth, sum))
}

// Rule 20, of a number of digits.
pub fn digits_check(n: usize) -> Result<(), Refusal>
    ensures { result ≡ passed (digits_check n) }
{
    judge_one(20, n <= 256)
}

// Rules 20 and 21, of the one row of a value call.
pub fn one_row_check(row: &[u8], digits: usize) -> Result<(), Refusal>
    ensures { result ≡ passed (one_row_check row.now digits) }
{
    digits_check(row.len())?;
    index_check(21, row, digits)
}

// Rules 24 to 26: the row number, the place and the new digit that an editor gives, for rows of n digits.
pub fn edit_check(
    row: usize,
    place: usize,
    digit: usize,
    n: usize,
    digits: usize,
) -> Result<(), Refusal>
    ensures { result ≡ passed (edit_check row place digit n digits) }
{
    judge_one(24, row <= 1)?;
    judge_one(25, place < n)?;
    judge_one(26, digit < digits)
}

// The byte of a row, read with the change made; 0 outside the row. A change of another row changes nothing.
pub fn byte_at(change: Option<Change>, number: usize, row: &[u8], place: usize) -> u8
    ensures { result ≡ get_or (changed_by change number row.now) place 0 }
{
    if row.len() <= place {
        return 0;
    }
    match change {
        Some(change) => {
            if change.row == number && change.place == place {
                change.digit
            } else {
                row[place]
            }
        }
        None => row[place],
    }
}
