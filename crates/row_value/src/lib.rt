// The value of a row of digits, with rule 28 of document 01.
#![tactic(auto)]

ghost use Rattle.std.specs.Prelude.{◌≡◌, ℕ, ◌^◌, ◌≤◌, ◌<◌, length, nat_abs, leb};
ghost use Rattle.ring.specs.Padded.{width};
ghost use Rattle.ring.specs.Element.{zeros};
ghost use Rattle.ring.specs.Tests.{Within, RowsWithin};
ghost use Rattle.ring.specs.declared.Degree.TheVariants.{Two};
ghost use Rattle.layout_rules.specs.Section.{of_degree};
ghost use Rattle.row_rules.specs.Fit.{Indexes};
ghost use Rattle.digit_rules.specs.Record.{element_count};
ghost use Rattle.row_value_rules.specs.Total.{total_limit, limited, place_digit, worth_of};
ghost use Rattle.row_value.specs.Answer.{outcome_of};

use midpoint::Element;
use ring::Degree;

// The place of the digit with which a part of the value passed its limit.
#[derive(Clone, Copy)]
pub struct Over {
    pub place: usize,
}

// Whether a number is within ±2,147,483,647.
fn inside(z: i64) -> bool
    ensures { result ≡ leb (nat_abs z) total_limit }
{
    -2147483647 <= z && z <= 2147483647
}

fn is_limited(x: [i64; 4]) -> bool
    ensures { result ≡ limited x }
{
    inside(x[0]) & inside(x[1]) & inside(x[2]) & inside(x[3])
}

// The digit at a place of a row.
fn digit_at(degree: Degree, alphabet: &[u8], row: &[u8], place: usize) -> [i64; 4]
    requires { (place < length row.now) × Indexes (element_count (of_degree degree alphabet.now)) row.now }
    ensures digit { result ≡ place_digit (of_degree degree alphabet.now) row.now place }
    ensures within { Within 32768 result }
{
    digits::record_at(degree, alphabet, usize::from(row[place]))
}

// The count of places without the zeros at the top, where index 0 is the digit zero.
fn counted_places(degree: Degree, alphabet: &[u8], row: &[u8]) -> usize
    ensures within { result ≤ length row.now }
    ensures zeros { (k : ℕ) → result ≤ k → k < length row.now
        → place_digit (of_degree degree alphabet.now) row.now k ≡ zeros width }
{
    if layout::record_count(degree, alphabet, 1) == 0
        || !elements::equal(digits::record_at(degree, alphabet, 0), [0, 0, 0, 0])
    {
        return row.len();
    }
    octets::significant(row)
}

// The value of a row, from the top place down: base times total plus digit.
fn row_value(
    degree: Degree,
    base: [[i64; 4]; 4],
    alphabet: &[u8],
    row: &[u8],
) -> Result<Element, Over>
    requires { RowsWithin (2 ^ 21) base × Indexes (element_count (of_degree degree alphabet.now)) row.now }
    ensures { outcome_of result ≡ worth_of base (of_degree degree alphabet.now) row.now }
{
    let count = counted_places(degree, alphabet, row);
    let mut total = [0; 4];
    for place in (0..count).rev() {
        let product = elements::times_base(degree, base, total);
        let next = elements::sum(product, digit_at(degree, alphabet, row, place));
        if !is_limited(next) {
            return Err(Over { place });
        }
        total = next;
    }
    Ok(midpoint::shown(total))
}

// The same with the degree as a constant where it is two, so that sizes and parts are chosen once and not at each place.
fn row_value_at_two(base: [[i64; 4]; 4], alphabet: &[u8], row: &[u8]) -> Result<Element, Over>
    requires { RowsWithin (2 ^ 21) base × Indexes (element_count (of_degree Two alphabet.now)) row.now }
    ensures { outcome_of result ≡ worth_of base (of_degree Two alphabet.now) row.now }
{
    row_value(Degree::Two, base, alphabet, row)
}

// Above two the degree is no constant. What is made ready for this call isn't at degree two, as it would be in the function below.
fn row_value_above_two(
    degree: Degree,
    base: [[i64; 4]; 4],
    alphabet: &[u8],
    row: &[u8],
) -> Result<Element, Over>
    requires { RowsWithin (2 ^ 21) base × Indexes (element_count (of_degree degree alphabet.now)) row.now }
    ensures { outcome_of result ≡ worth_of base (of_degree degree alphabet.now) row.now }
{
    row_value(degree, base, alphabet, row)
}

pub fn row_value_by(
    degree: Degree,
    base: [[i64; 4]; 4],
    alphabet: &[u8],
    row: &[u8],
) -> Result<Element, Over>
    requires { RowsWithin (2 ^ 21) base × Indexes (element_count (of_degree degree alphabet.now)) row.now }
    ensures { outcome_of result ≡ worth_of base (of_degree degree alphabet.now) row.now }
{
    match degree {
        Degree::Two => row_value_at_two(base, alphabet, row),
        Degree::Three | Degree::Four => row_value_above_two(degree, base, alphabet, row),
    }
}
