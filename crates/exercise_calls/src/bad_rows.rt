// Bad rows. The nine bytes for the string hold nines before each call, and are written whole.
use crate::{additions, degrees, output, tables};
use std::io;

// The degree of the table says how many parts the digit has.
fn by_table(rt: &impl Print, label: &str, table: &[u8]) -> io::Result<()> {
    let degree = layout::degree_in(table);
    let mut string = [9u8; 9];
    let answer = bad_row::bad_row(table, &mut string);
    output::shown(rt, label, degree, answer)?;
    printed::buffer(rt, &string)?;
    println!(rt; "")
}

// Of TERN and BIN there is nothing to show. The words of M12's pair have one digit each, those of the damaged BIN two.
pub fn of_tables(rt: &impl Print) -> io::Result<()> {
    by_table(rt, "TERN", &carried::tern())?;
    by_table(rt, "BIN", &carried::bin())?;
    by_table(rt, "M12", &tables::damaged())?;
    by_table(rt, "damaged BIN", &tables::damaged_bin())
}

// As many parts as the degree says.
pub fn of_degrees(rt: &impl Print) -> io::Result<()> {
    by_table(rt, "cubic", &degrees::cubic())?;
    by_table(rt, "damaged cubic", &degrees::damaged_cubic())?;
    by_table(rt, "damaged quartic", &degrees::damaged_quartic())
}

// The first of rules 1 to 13, and the last.
pub fn of_no_table(rt: &impl Print) -> io::Result<()> {
    by_table(rt, "none", b"")?;
    by_table(rt, "weight at zero", &tables::with_weight_at_zero())
}

// The strings 2, 3 and 1, 1, 2 of input digits as sums of two rows, lowest place first: 27 names the place of the string's top digit.
pub fn added(rt: &impl Print) -> io::Result<()> {
    let mut two = [9u8; 3];
    additions::summed(rt, "M12", &tables::damaged(), &[1, 1], &[2, 1], &mut two)?;
    let mut three = [9u8; 5];
    additions::summed(
        rt,
        "damaged BIN",
        &tables::damaged_bin(),
        &[1, 1, 1],
        &[1, 0, 0],
        &mut three,
    )
}
