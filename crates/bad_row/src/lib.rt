// A bad row to show: the two leaves that rule 14 names, the digit that they give, and a string of input digits that gives it in every row.
#![tactic(auto)]

ghost use Rattle.std.specs.Prelude.{◌≡◌, ◌<◌, ◌≤◌, length};
ghost use Rattle.lists.specs.Overwrite.{overwrite};
ghost use Rattle.midpoint.specs.Midpoint.{parts};
ghost use Rattle.digit_rules.specs.Record.{record_at};
ghost use Rattle.leaf_rules.specs.Leaf.{leaf_count};
ghost use Rattle.numeration.specs.Pairs.{pair_digit};
ghost use Rattle.reader_rules.specs.Table.{input_part, leaf_part, operations_of, leaves_in};
ghost use Rattle.reader_rules.specs.Check.{table_check};
ghost use Rattle.table_rules.specs.Check.{bad_pair_of};
ghost use Rattle.bad_row_rules.specs.BadRow.{string_of, shows, bad_row_outcome, written, bad_row_in};
ghost use Rattle.faults.specs.Answer.{outcome_by};
ghost use Rattle.bad_row.specs.Answer.{shows_of};
ghost use Rattle.bad_row.specs.Words.{word_string};

use bad_row_rules::BadRow;
use faults::Fault;
use midpoint::Element;
use table_rules::Pair;

// The digit that two leaves of a table that passes 1 to 13 give: the upper word's first digit, plus the lower weight, minus the base times the
// upper one. Conversion's function for it has one caller, into whose loop it is made; with this one it would be called there.
fn digit_of(table: &[u8], pair: Pair) -> Element
    requires table { (table_check table.now).number ≡ 0 }
    requires leaves { (pair.upper < leaf_count (leaf_part table.now)) × (pair.lower < leaf_count (leaf_part table.now)) }
    ensures { parts result ≡ pair_digit (operations_of table.now) (record_at (input_part table.now))
        (leaves_in table.now) pair.upper pair.lower }
{
    let degree = layout::degree_in(table);
    let leaves = reader::section(table, 3);
    let word = leaves::word(degree, leaves, reader::section(table, 4), pair.upper);
    let first = usize::from(octets::byte_at(word, 0));
    let sum = elements::sum(
        digits::record_at(degree, reader::section(table, 2), first),
        leaves::weight(degree, leaves, pair.lower),
    );
    let base = digits::base_of(degree, reader::section(table, 0));
    let product = elements::times_base(degree, base, leaves::weight(degree, leaves, pair.upper));
    midpoint::shown(elements::difference(sum, product))
}

// Writes the string of two words, top digit first: the upper word's first digit, then the longer of its tail and the lower word. The count of
// its bytes.
fn put_string(upper: &[u8], lower: &[u8], string: &mut [u8; 9]) -> usize
    requires { (0 < length upper.now) × (length upper.now ≤ 8) × (length lower.now ≤ 8) }
    ensures bytes { result ≡ length (word_string upper.now lower.now) }
    ensures string { string.new ≡ overwrite string.old 0 (word_string upper.now lower.now) }
{
    if lower.len() + 1 < upper.len() {
        return octets::put(string, 0, upper);
    }
    let behind = octets::put(string, 0, &upper[..1]);
    octets::put(string, behind, lower)
}

// Of a table that passes 1 to 13: the failing pair is that of the check's search.
fn show(table: &[u8], string: &mut [u8; 9]) -> Option<BadRow>
    requires { (table_check table.now).number ≡ 0 }
    ensures answer { shows_of result ≡ shows table.now }
    ensures string { string.new
        ≡ written (shows table.now) (string_of table.now (bad_pair_of table.now)) string.old }
{
    let degree = layout::degree_in(table);
    let leaves = reader::section(table, 3);
    let words = reader::section(table, 4);
    let Err(pair) = table::search(table) else {
        return None;
    };
    let bytes = put_string(
        leaves::word(degree, leaves, words, pair.upper),
        leaves::word(degree, leaves, words, pair.lower),
        string,
    );
    Some(BadRow {
        upper: pair.upper,
        lower: pair.lower,
        digit: digit_of(table, pair),
        bytes,
    })
}

// The bad row of a table that rule 14 refuses, or nothing where the check accepts it, or the author's fault of 1 to 13. The string, of input
// indexes from the top, goes into the first bytes that are lent; the others keep their contents, and all do where no row is shown.
pub fn bad_row(table: &[u8], string: &mut [u8; 9]) -> Result<Option<BadRow>, Fault>
    ensures answer { outcome_by shows_of result ≡ bad_row_outcome table.now }
    ensures string { string.new ≡ bad_row_in table.now string.old }
{
    reader::read(table)?;
    Ok(show(table, string))
}
