// Two edits in both orders (document 02, job 10). An edit is a row number, a place and an alphabet index; the second row has zeros.
ghost use Rattle.std.specs.Prelude.{◌≤◌, length};

use edit_orders::Turns;
use row_rules::Change;
use std::io;

const ZEROS: [u8; 4] = [0; 4];

// A first row, its sum with zeros by BIN and a byte behind it; the same of zeros; and a sum of zeros that isn't right.
const ROW: [u8; 4] = [1, 1, 0, 1];

const SUM: [u8; 7] = [1, 2, 1, 1, 0, 0, 9];

const NONE: [u8; 7] = [0, 0, 0, 0, 0, 0, 9];

const WRONG: [u8; 7] = [0, 1, 0, 0, 0, 0, 9];

fn change([row, place, digit]: [u8; 3]) -> Change {
    Change {
        row: row as usize,
        place: place as usize,
        digit,
    }
}

// ` changed K reach R` of either edit, or its fault; then FIRST SECOND SUM.
fn order(rt: &impl Print, turns: Turns, first: &[u8], second: &[u8], sum: &[u8]) -> io::Result<()>
    requires { (length first.now ≤ 260) × (length second.now ≤ 260) × (length sum.now ≤ 260) }
{
    print!(rt; " ")?;
    printed::edited(rt, turns.first)?;
    print!(rt; " ")?;
    printed::edited(rt, turns.second)?;
    printed::buffer(rt, first)?;
    printed::buffer(rt, second)?;
    printed::buffer(rt, sum)
}

// `LABEL`, e and then f, and behind a bar f and then e.
fn turned(
    rt: &impl Print,
    label: &str,
    table: &[u8],
    row: [u8; 4],
    sum: [u8; 7],
    e: [u8; 3],
    f: [u8; 3],
) -> io::Result<()> {
    let mut first = row;
    let mut second = ZEROS;
    let mut forth = sum;
    let mut again = row;
    let mut other = ZEROS;
    let mut back = sum;
    let orders = edit_orders::both_orders(
        table,
        &mut first,
        &mut second,
        &mut forth,
        &mut again,
        &mut other,
        &mut back,
        change(e),
        change(f),
    );
    print!(rt; "{label}")?;
    order(rt, orders.forth, &first, &second, &forth)?;
    print!(rt; " |")?;
    order(rt, orders.back, &again, &other, &back)?;
    println!(rt; "")
}

// BIN: h + 1 and h apart the counts are the same, h − 1 apart they aren't, and h apart the reach needn't be.
pub fn of_bin(rt: &impl Print) -> io::Result<()> {
    let table = carried::bin();
    turned(rt, "h + 1 apart", &table, ROW, SUM, [0, 0, 0], [1, 3, 2])?;
    turned(rt, "h apart", &table, ROW, SUM, [0, 0, 0], [1, 2, 1])?;
    turned(rt, "h - 1 apart", &table, ZEROS, NONE, [0, 0, 1], [0, 1, 1])?;
    turned(rt, "reach", &table, ZEROS, NONE, [0, 0, 0], [0, 2, 1])
}

// TERN: one place of both rows, one place of one row, a sum that isn't right, and an edit that is refused.
pub fn of_tern(rt: &impl Print) -> io::Result<()> {
    let table = carried::tern();
    turned(rt, "both rows", &table, ZEROS, NONE, [0, 0, 1], [1, 0, 1])?;
    turned(rt, "one row", &table, ZEROS, NONE, [0, 0, 0], [0, 0, 1])?;
    turned(rt, "not right", &table, ZEROS, WRONG, [0, 0, 0], [0, 1, 0])?;
    turned(rt, "refused", &table, ZEROS, NONE, [2, 0, 0], [0, 1, 2])
}
