// A list of edits, called one after the other, and their answers in numbers.
#![tactic(auto)]

ghost use Rattle.std.specs.Prelude.{◌≡◌, ◌≤◌, length};
ghost use Rattle.lists.specs.Overwrite.{overwrite};
ghost use Rattle.edit_rules.specs.State.{state};
ghost use Rattle.edit_rules.specs.Run.{edit_all, edit_answers};
ghost use Rattle.faults.specs.Answer.{outcome_of};
ghost use Rattle.runner_rules.specs.Told.{told_of, groups_of, numbers_of, values_of};
ghost use Rattle.runner_rules.specs.List.{edit_list};

use edit_rules::EditedFacts;
use faults::Fault;
use runner_rules::Told;

fn told_of(answer: Result<EditedFacts, Fault>) -> Told
    ensures { result ≡ told_of (outcome_of answer) }
{
    match answer {
        Ok(facts) => Told {
            whose: 0,
            number: 0,
            value: facts.count,
        },
        Err(Fault::Author { number, place }) => Told {
            whose: 1,
            number,
            value: place,
        },
        Err(Fault::Rows { number, place }) => Told {
            whose: 2,
            number,
            value: place,
        },
        Err(Fault::Editor { number, place }) => Told {
            whose: 3,
            number,
            value: place,
        },
    }
}

// The first `count` edits of the list, one call after the other, each answer written.
pub fn edit_each(
    table: &[u8],
    first: &mut [u8],
    second: &mut [u8],
    sum: &mut [u8],
    rows: &[usize],
    places: &[usize],
    digits: &[usize],
    whose: &mut [usize],
    numbers: &mut [usize],
    values: &mut [usize],
    count: usize,
)
    requires listed { (count ≤ length rows.now) × (count ≤ length places.now) × (count ≤ length digits.now) }
    requires room { (count ≤ length whose.old) × (count ≤ length numbers.old) × (count ≤ length values.old) }
    ensures buffers { let s = state first.old second.old sum.old in
        let es = edit_list rows.now places.now digits.now count in
        state first.new second.new sum.new ≡ edit_all table.now es s }
    ensures answers { let s = state first.old second.old sum.old in
        let es = edit_list rows.now places.now digits.now count in
        (whose.new ≡ overwrite whose.old 0 (groups_of (edit_answers table.now es s)))
        × (numbers.new ≡ overwrite numbers.old 0 (numbers_of (edit_answers table.now es s)))
        × (values.new ≡ overwrite values.old 0 (values_of (edit_answers table.now es s))) }
{
    for i in 0..count {
        let edited = edit_call::edit(table, first, second, sum, rows[i], places[i], digits[i]);
        let told = told_of(edited);
        whose[i] = told.whose;
        numbers[i] = told.number;
        values[i] = told.value;
    }
}
