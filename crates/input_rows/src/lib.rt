// The row of input indexes: w(j) of document 01, a sum of two digits at each place, or a difference.
#![tactic(auto)]

ghost use Rattle.std.specs.Prelude.{◌≡◌, ℕ, ◌+◌, ◌*◌, ◌≤◌, ◌<◌, get_or};
ghost use Rattle.ring.specs.declared.Degree.TheVariants.{Two};
ghost use Rattle.layout_rules.specs.Section.{of_degree};
ghost use Rattle.digit_rules.specs.Record.{element_count};
ghost use Rattle.digit_rules.specs.Digits.{pair_index};
ghost use Rattle.rows.specs.ChangedBy.{changed_by};
ghost use Rattle.place_rules.specs.Place.{input_at};
ghost use Rattle.place_rules.specs.Helpers.{part_row};
ghost use Rattle.input_rows.specs.Known.{Known, KnownRun};

use ring::{Degree, Operation};
use row_rules::Change;

// The two rows' digits at a place, the rows read with the change made, as one number: 16 times the first plus the second.
fn pair_at(change: Option<Change>, first: &[u8], second: &[u8], place: usize) -> usize
    requires { (get_or (changed_by change 0 first.now) place 0 < 16) × (get_or (changed_by change 1 second.now) place 0 < 16) }
    ensures { result ≡ 16 * get_or (changed_by change 0 first.now) place 0 + get_or (changed_by change 1 second.now) place 0 }
{
    16 * rows::byte_at(change, 0, first, place) as usize
        + rows::byte_at(change, 1, second, place) as usize
}

// The input index of what the operation makes of two digits, which then stands in `known`, for a sum in either order.
fn learn(
    degree: Degree,
    operation: Operation,
    alphabet: &[u8],
    inputs: &[u8],
    upper: usize,
    lower: usize,
    known: &mut [u8; 256],
) -> u8
    requires sizes { (element_count (of_degree degree alphabet.now) ≤ 16) × (element_count (of_degree degree inputs.now) < 256) }
    requires indexes { (upper < element_count (of_degree degree alphabet.now)) × (lower < element_count (of_degree degree alphabet.now)) }
    requires known { Known operation (of_degree degree alphabet.now) (of_degree degree inputs.now) known.old }
    ensures index { result ≡ pair_index operation (of_degree degree alphabet.now) (of_degree degree inputs.now) upper lower }
    ensures known { Known operation (of_degree degree alphabet.now) (of_degree degree inputs.now) known.new }
{
    let index = digits::pair_index(degree, operation, alphabet, inputs, upper, lower) as u8;
    known[16 * upper + lower] = index;
    match operation {
        Operation::Plus => {
            known[16 * lower + upper] = index;
            index
        }
        Operation::Minus => index,
    }
}

// The same with the degree as a constant where it is two, so that sizes and parts are chosen once and not for each input digit.
fn learn_at_two(
    operation: Operation,
    alphabet: &[u8],
    inputs: &[u8],
    upper: usize,
    lower: usize,
    known: &mut [u8; 256],
) -> u8
    requires sizes { (element_count (of_degree Two alphabet.now) ≤ 16) × (element_count (of_degree Two inputs.now) < 256) }
    requires indexes { (upper < element_count (of_degree Two alphabet.now)) × (lower < element_count (of_degree Two alphabet.now)) }
    requires known { Known operation (of_degree Two alphabet.now) (of_degree Two inputs.now) known.old }
    ensures index { result ≡ pair_index operation (of_degree Two alphabet.now) (of_degree Two inputs.now) upper lower }
    ensures known { Known operation (of_degree Two alphabet.now) (of_degree Two inputs.now) known.new }
{
    learn(
        Degree::Two,
        operation,
        alphabet,
        inputs,
        upper,
        lower,
        known,
    )
}

fn learn_by(
    degree: Degree,
    operation: Operation,
    alphabet: &[u8],
    inputs: &[u8],
    upper: usize,
    lower: usize,
    known: &mut [u8; 256],
) -> u8
    requires sizes { (element_count (of_degree degree alphabet.now) ≤ 16) × (element_count (of_degree degree inputs.now) < 256) }
    requires indexes { (upper < element_count (of_degree degree alphabet.now)) × (lower < element_count (of_degree degree alphabet.now)) }
    requires known { Known operation (of_degree degree alphabet.now) (of_degree degree inputs.now) known.old }
    ensures index { result ≡ pair_index operation (of_degree degree alphabet.now) (of_degree degree inputs.now) upper lower }
    ensures known { Known operation (of_degree degree alphabet.now) (of_degree degree inputs.now) known.new }
{
    match degree {
        Degree::Two => learn_at_two(operation, alphabet, inputs, upper, lower, known),
        Degree::Three | Degree::Four => learn(
            degree, operation, alphabet, inputs, upper, lower, known,
        ),
    }
}

// The input indexes from a place on, as far as their pairs are known; the first place whose pair isn't.
fn known_run(
    change: Option<Change>,
    first: &[u8],
    second: &[u8],
    place: usize,
    end: usize,
    known: &[u8; 256],
    row: &mut [u8; 256],
) -> usize
    requires { (place ≤ end) × (end ≤ 256)
        × ((k : ℕ) → k < end → get_or (changed_by change 0 first.now) k 0 < 16)
        × ((k : ℕ) → k < end → get_or (changed_by change 1 second.now) k 0 < 16) }
    ensures place { (place ≤ result) × (result ≤ end) }
    ensures row { KnownRun known.now (changed_by change 0 first.now) (changed_by change 1 second.now)
        place row.old result row.new }
{
    for at in place..end {
        let index = known[pair_at(change, first, second, at)];
        if index == 255 {
            return at;
        }
        row[at] = index;
    }
    end
}

// The input indexes at the places from `from` up to `end`; zeros elsewhere. A pair of digits is looked for once; between two that are new
// lies a run of known ones, and of such runs long rows are made.
pub fn input_row(
    degree: Degree,
    operation: Operation,
    alphabet: &[u8],
    inputs: &[u8],
    change: Option<Change>,
    first: &[u8],
    second: &[u8],
    from: usize,
    end: usize,
) -> [u8; 256]
    requires { (from ≤ end) × (end ≤ 256) × (element_count (of_degree degree inputs.now) < 256)
        × ((k : ℕ) → k < end → get_or (changed_by change 0 first.now) k 0 < element_count (of_degree degree alphabet.now))
        × ((k : ℕ) → k < end → get_or (changed_by change 1 second.now) k 0 < element_count (of_degree degree alphabet.now))
        × (element_count (of_degree degree alphabet.now) ≤ 16) }
    ensures { result ≡ part_row (input_at operation (of_degree degree alphabet.now) (of_degree degree inputs.now) (changed_by change 0 first.now)
        (changed_by change 1 second.now)) from end }
{
    let mut row = [0u8; 256];
    // 255 is no input index: `Option`s would take twice the room, which the header's bound on the stack hasn't
    let mut known = [255u8; 256];
    let mut place = from;
    // a `while`: the place goes past a run of known pairs at once, and doesn't count up by one
    while place < end {
        let upper = rows::byte_at(change, 0, first, place) as usize;
        let lower = rows::byte_at(change, 1, second, place) as usize;
        row[place] = learn_by(
            degree, operation, alphabet, inputs, upper, lower, &mut known,
        );
        place = known_run(change, first, second, place + 1, end, &known, &mut row);
    }
    row
}
