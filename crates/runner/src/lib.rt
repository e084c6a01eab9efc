// The runner: the check, the addition and a list of edits, as calls one after the other.
#![tactic(auto)]

ghost use Rattle.std.specs.Prelude.{◌≡◌, min, length};
ghost use Rattle.lists.specs.Overwrite.{overwrite};
ghost use Rattle.faults.specs.Outcome.{at_exit};
ghost use Rattle.edit_rules.specs.State.{state};
ghost use Rattle.adder_rules.specs.Calls.{add_sum};
ghost use Rattle.runner_rules.specs.Told.{groups_of, numbers_of, values_of};
ghost use Rattle.runner_rules.specs.Run.{asked_edits, run_outcome, run_all};
ghost use Rattle.faults.specs.Answer.{outcome_of};

use faults::Fault;
use runner_rules::RanFacts;

// The check, then the addition: a fault and nothing written, or the sum written and the number of edits that are to be called.
fn start(
    table: &[u8],
    first: &[u8],
    second: &[u8],
    sum: &mut [u8],
    edits: usize,
) -> Result<RanFacts, Fault>
    ensures outcome { outcome_of result
        ≡ run_outcome table.now (state first.now second.now sum.old) edits }
    ensures sum { sum.new
        ≡ at_exit (outcome_of result) sum.old
        (add_sum table.now first.now second.now sum.old) }
{
    table::check(table)?;
    adder::add(table, first, second, sum)?;
    Ok(RanFacts { edits })
}

// The check, the addition, and the edits that the three slices of numbers list, as many as the shortest of the six slices: each
// answer is told. A fault of the check or of the addition is the answer, and then nothing is written.
pub fn run(
    table: &[u8],
    first: &mut [u8],
    second: &mut [u8],
    sum: &mut [u8],
    rows: &[usize],
    places: &[usize],
    digits: &[usize],
    whose: &mut [usize],
    numbers: &mut [usize],
    values: &mut [usize],
) -> Result<RanFacts, Fault>
    ensures outcome { let s = state first.old second.old sum.old in
        let es = asked_edits rows.now places.now digits.now
        whose.old numbers.old values.old in
        outcome_of result ≡ run_outcome table.now s (length es) }
    ensures buffers { let s = state first.old second.old sum.old in
        let es = asked_edits rows.now places.now digits.now
        whose.old numbers.old values.old in
        state first.new second.new sum.new ≡ (run_all table.now s es).buffers }
    ensures answers { let s = state first.old second.old sum.old in
        let es = asked_edits rows.now places.now digits.now
        whose.old numbers.old values.old in
        (whose.new ≡ overwrite whose.old 0 (groups_of (run_all table.now s es).answers))
        × (numbers.new ≡ overwrite numbers.old 0 (numbers_of (run_all table.now s es).answers))
        × (values.new ≡ overwrite values.old 0 (values_of (run_all table.now s es).answers)) }
{
    let listed = rows.len().min(places.len().min(digits.len()));
    let answered = whose.len().min(numbers.len().min(values.len()));
    let count = listed.min(answered);
    let ran = start(table, first, second, sum, count)?;
    edit_list::edit_each(
        table, first, second, sum, rows, places, digits, whose, numbers, values, count,
    );
    Ok(ran)
}
