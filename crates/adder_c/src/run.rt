// The runner for C and Rust.
ghost use Rattle.std.specs.Prelude.{◌≡◌, length};
ghost use Rattle.edit_rules.specs.State.{state};
ghost use Rattle.runner_rules.specs.Told.{groups_of, numbers_of, values_of};
ghost use Rattle.runner_rules.specs.Run.{asked_edits, run_outcome, run_all};
ghost use Rattle.runner_rules.specs.Follows.{told_in};
ghost use Rattle.answer_rules.specs.Answer.{if_room, returned, answered, run_words};

// The check, the addition and a list of edits, whose row numbers, places and digits are listed and whose answers are told, each in the
// same entry of six slices; as many as the shortest of them has.
#[unsafe(no_mangle)]
pub extern "C" fn yoyomyrtle_run(
    table: &[u8],
    first: &mut [u8],
    second: &mut [u8],
    sum: &mut [u8],
    rows: &[usize],
    places: &[usize],
    digits: &[usize],
    whose: &mut [usize],
    numbers: &mut [usize],
    values: &mut [usize],
    answer: &mut [i64],
) -> u64
    ensures outcome { let s = state first.old second.old sum.old in
        let es = asked_edits rows.now places.now digits.now
        whose.old numbers.old values.old in
        (result ≡ returned (run_outcome table.now s (length es)) answer.old)
        × (answer.new ≡ answered run_words (run_outcome table.now s (length es)) answer.old) }
    ensures buffers { let s = state first.old second.old sum.old in
        let es = asked_edits rows.now places.now digits.now
        whose.old numbers.old values.old in
        state first.new second.new sum.new
        ≡ if_room 8 (length answer.old) (run_all table.now s es).buffers s }
    ensures answers { let s = state first.old second.old sum.old in
        let es = asked_edits rows.now places.now digits.now
        whose.old numbers.old values.old in
        (whose.new
        ≡ if_room 8 (length answer.old) (told_in table.now s es groups_of whose.old) whose.old)
        × (numbers.new
        ≡ if_room 8 (length answer.old) (told_in table.now s es numbers_of numbers.old) numbers.old)
        × (values.new
        ≡ if_room 8 (length answer.old) (told_in table.now s es values_of values.old) values.old) }
{
    if answer.len() < 8 {
        return 2;
    }
    let given = runner::run(
        table, first, second, sum, rows, places, digits, whose, numbers, values,
    );
    answers::ran(answer, given)
}
