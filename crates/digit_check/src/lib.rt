// Rules 5 to 8 of document 01, on the base, the alphabet and the input digits, and 42 of document 02. Each section is given as its bytes,
// of a file or not.
#![tactic(auto)]

ghost use Rattle.std.specs.Prelude.{◌≡◌, ◌<◌, ltb, nat_abs};
ghost use Rattle.layout_rules.specs.Section.{of_degree};
ghost use Rattle.lists.specs.Scan.{first_failing};
ghost use Rattle.lists.specs.Found.{below};
ghost use Rattle.faults.specs.Passed.{passed};
ghost use Rattle.ring.specs.declared.Degree.TheVariants.{Two};
ghost use Rattle.ring.specs.Degree.{part_count};
ghost use Rattle.ring.specs.Product.{matrix_of};
ghost use Rattle.ring.specs.Determinant.{determinant};
ghost use Rattle.ring.specs.declared.Operation.TheVariants.{Minus};
ghost use Rattle.digit_rules.specs.Record.{element_count};
ghost use Rattle.digit_rules.specs.Base.{omega_of, beta_of};
ghost use Rattle.digit_rules.specs.Digits.{
  BasePart,
  square_free,
  discriminant_allowed,
  base_good,
  base_allowed,
  base_check,
  alphabet_check,
  pairs_listed,
  input_check,
  digit_check,
  operation_check,
};

use faults::Refusal;
use ring::{Degree, Operation};

// The sections of digits.
const ALPHABET: usize = 1;

const INPUTS: usize = 2;

// Whether s² + 4t is no square, and whether the base is expanding: asked at degree two alone.
fn is_square_free(base: &[u8]) -> bool
    requires { BasePart (of_degree Two base.now) }
    ensures { result ≡ square_free Two (of_degree Two base.now) }
{
    !base_tests::has_square_discriminant(layout::signed(base, 0), layout::signed(base, 2))
}

fn is_expanding(base: &[u8]) -> bool
    requires { BasePart (of_degree Two base.now) }
    ensures { result ≡ base_good Two (of_degree Two base.now) }
{
    base_tests::is_expanding(
        layout::signed(base, 0),
        layout::signed(base, 2),
        layout::signed(base, 4),
        layout::signed(base, 6),
    )
}

// Whether the determinant of multiplication by the base is none of −1, 0 and 1: asked above degree two.
fn has_large_determinant(degree: Degree, base: &[u8]) -> bool
    requires { BasePart (of_degree degree base.now) }
    ensures { let given = of_degree degree base.now in
        result ≡ ltb 1 (nat_abs (determinant (part_count degree) (matrix_of (omega_of given) (beta_of given)))) }
{
    !base_tests::is_unit_or_zero(degree, digits::base_of(degree, base))
}

// What rule 5 asks.
fn discriminant_allowed(degree: Degree, base: &[u8]) -> bool
    requires { BasePart (of_degree degree base.now) }
    ensures { result ≡ discriminant_allowed (of_degree degree base.now) }
{
    match degree {
        Degree::Two => is_square_free(base),
        Degree::Three | Degree::Four => true,
    }
}

// What rule 6 asks.
fn base_allowed(degree: Degree, base: &[u8]) -> bool
    requires { BasePart (of_degree degree base.now) }
    ensures { result ≡ base_allowed (of_degree degree base.now) }
{
    match degree {
        Degree::Two => is_expanding(base),
        Degree::Three | Degree::Four => has_large_determinant(degree, base),
    }
}

// Rules 5 and 6.
fn base_rules(degree: Degree, base: &[u8]) -> Result<(), Refusal>
    requires { BasePart (of_degree degree base.now) }
    ensures { result ≡ passed (base_check (of_degree degree base.now)) }
{
    if !discriminant_allowed(degree, base) {
        return Err(Refusal {
            number: 5,
            place: 0,
        });
    }
    if !base_allowed(degree, base) {
        return Err(Refusal {
            number: 6,
            place: 0,
        });
    }
    Ok(())
}

// Rule 7.
fn alphabet_rule(degree: Degree, alphabet: &[u8]) -> Result<(), Refusal>
    ensures { result ≡ passed (alphabet_check (of_degree degree alphabet.now)) }
{
    let count = layout::record_count(degree, alphabet, ALPHABET);
    for digit in 0..count {
        if !digits::record_allowed(degree, alphabet, digit) {
            return Err(Refusal {
                number: 7,
                place: digit,
            });
        }
    }
    Ok(())
}

// The same with the degree as a constant where it is two, so that sizes and parts are chosen once and not for each digit.
fn alphabet_rule_at_two(alphabet: &[u8]) -> Result<(), Refusal>
    ensures { result ≡ passed (alphabet_check (of_degree Two alphabet.now)) }
{
    alphabet_rule(Degree::Two, alphabet)
}

fn alphabet_rule_by(degree: Degree, alphabet: &[u8]) -> Result<(), Refusal>
    ensures { result ≡ passed (alphabet_check (of_degree degree alphabet.now)) }
{
    match degree {
        Degree::Two => alphabet_rule_at_two(alphabet),
        Degree::Three => alphabet_rule(degree, alphabet),
        Degree::Four => alphabet_rule(degree, alphabet),
    }
}

// Whether what the operation makes of alphabet digit i and each that it is taken with is an input digit.
fn pairs_listed(
    degree: Degree,
    operation: Operation,
    alphabet: &[u8],
    inputs: &[u8],
    i: usize,
) -> bool
    requires { i < element_count (of_degree degree alphabet.now) }
    ensures { result ≡ pairs_listed operation (of_degree degree alphabet.now) (of_degree degree inputs.now) i }
{
    let n = layout::record_count(degree, alphabet, ALPHABET);
    let count = layout::record_count(degree, inputs, INPUTS);
    let end = digits::partner_count(operation, n, i);
    for j in 0..end {
        if digits::pair_index(degree, operation, alphabet, inputs, i, j) >= count {
            return false;
        }
    }
    true
}

// The first alphabet digit with which the operation makes something that is no input digit.
fn first_unlisted(
    degree: Degree,
    operation: Operation,
    alphabet: &[u8],
    inputs: &[u8],
) -> Option<usize>
    ensures { result ≡ below (element_count (of_degree degree alphabet.now))
        (first_failing (pairs_listed operation (of_degree degree alphabet.now) (of_degree degree inputs.now)) 0
        (element_count (of_degree degree alphabet.now))) }
{
    let n = layout::record_count(degree, alphabet, ALPHABET);
    for i in 0..n {
        if !pairs_listed(degree, operation, alphabet, inputs, i) {
            return Some(i);
        }
    }
    None
}

// Rule 8.
fn input_rule(degree: Degree, alphabet: &[u8], inputs: &[u8]) -> Result<(), Refusal>
    ensures { result ≡ passed (input_check (of_degree degree alphabet.now) (of_degree degree inputs.now)) }
{
    if digit_sums::inputs_kept(degree, alphabet, inputs) {
        return Ok(());
    }
    let count = layout::record_count(degree, inputs, INPUTS);
    for input in 0..count {
        if !digits::record_allowed(degree, inputs, input) {
            return Err(Refusal {
                number: 8,
                place: input,
            });
        }
    }
    match first_unlisted(degree, Operation::Plus, alphabet, inputs) {
        Some(_) => Err(Refusal {
            number: 8,
            place: count,
        }),
        None => Ok(()),
    }
}

// 42 of document 02.
fn difference_rule(degree: Degree, alphabet: &[u8], inputs: &[u8]) -> Result<(), Refusal>
    ensures { result ≡ passed (operation_check Minus (of_degree degree alphabet.now) (of_degree degree inputs.now)) }
{
    if digit_sums::differences_kept(degree, alphabet, inputs) {
        return Ok(());
    }
    match first_unlisted(degree, Operation::Minus, alphabet, inputs) {
        Some(found) => Err(Refusal {
            number: 42,
            place: found,
        }),
        None => Ok(()),
    }
}

// What an operation asks of alphabet and input digits besides: 42 in subtraction, nothing in addition.
pub fn operation_rule(
    degree: Degree,
    operation: Operation,
    alphabet: &[u8],
    inputs: &[u8],
) -> Result<(), Refusal>
    ensures { result ≡ passed (operation_check operation (of_degree degree alphabet.now) (of_degree degree inputs.now)) }
{
    match operation {
        Operation::Plus => Ok(()),
        Operation::Minus => difference_rule(degree, alphabet, inputs),
    }
}

// Rules 5 to 8.
pub fn digits(degree: Degree, base: &[u8], alphabet: &[u8], inputs: &[u8]) -> Result<(), Refusal>
    requires { BasePart (of_degree degree base.now) }
    ensures { result ≡ passed (digit_check (of_degree degree base.now) (of_degree degree alphabet.now) (of_degree degree inputs.now)) }
{
    base_rules(degree, base)?;
    alphabet_rule_by(degree, alphabet)?;
    input_rule(degree, alphabet, inputs)
}
