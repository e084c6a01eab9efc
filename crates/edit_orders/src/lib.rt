// Two edits in both orders, each order with buffers of its own: what "Two hands on one sum" (document 02, job 10) promises, on the calls.
#![tactic(auto)]

ghost use Rattle.std.specs.Prelude.{◌≡◌};
ghost use Rattle.faults.specs.Outcome.{facts};
ghost use Rattle.table_rules.specs.Check.{check_facts, check_outcome};
ghost use Rattle.edit_rules.specs.State.{state};
ghost use Rattle.edit_rules.specs.Orders.{Addable, in_turn, Agree};
ghost use Rattle.edit_orders.specs.Answer.{turns_of};

use edit_rules::EditedFacts;
use faults::Fault;
use row_rules::Change;

// The answers of two edits, one after the other.
#[derive(Clone, Copy)]
pub struct Turns {
    pub first: Result<EditedFacts, Fault>,
    pub second: Result<EditedFacts, Fault>,
}

// Those of e and then f, and of f and then e.
#[derive(Clone, Copy)]
pub struct Orders {
    pub forth: Turns,
    pub back: Turns,
}

fn in_turn(
    table: &[u8],
    first: &mut [u8],
    second: &mut [u8],
    sum: &mut [u8],
    e: Change,
    f: Change,
) -> Turns
    ensures { turns_of result (state first.new second.new sum.new)
        ≡ in_turn table.now e f (state first.old second.old sum.old) }
{
    let answer = edit_call::edit(table, first, second, sum, e.row, e.place, e.digit as usize);
    let next = edit_call::edit(table, first, second, sum, f.row, f.place, f.digit as usize);
    Turns {
        first: answer,
        second: next,
    }
}

// e and then f with the first three buffers, f and then e with the others. Where both are lent with the same contents, by an accepted table
// and for rows that pass 20 to 23, the orders agree.
pub fn both_orders(
    table: &[u8],
    first: &mut [u8],
    second: &mut [u8],
    sum: &mut [u8],
    first2: &mut [u8],
    second2: &mut [u8],
    sum2: &mut [u8],
    e: Change,
    f: Change,
) -> Orders
    ensures forth { turns_of result.forth (state first.new second.new sum.new)
        ≡ in_turn table.now e f (state first.old second.old sum.old) }
    ensures back { turns_of result.back (state first2.new second2.new sum2.new)
        ≡ in_turn table.now f e (state first2.old second2.old sum2.old) }
    ensures agree { let s = state first.old second.old sum.old in
        check_outcome table.now ≡ facts (check_facts table.now)
        → state first2.old second2.old sum2.old ≡ s
        → Addable table.now s
        → Agree table.now s e f
        (turns_of result.forth (state first.new second.new sum.new))
        (turns_of result.back (state first2.new second2.new sum2.new)) }
{
    let forth = in_turn(table, first, second, sum, e, f);
    let back = in_turn(table, first2, second2, sum2, f, e);
    Orders { forth, back }
}
