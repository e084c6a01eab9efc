// The digit of a fitting pair, and whether it is an alphabet digit: rule 14 for one pair.
#![tactic(auto)]

ghost use Rattle.std.specs.Prelude.{◌≡◌, get_or, true, ◌+◌, ◌<◌, ◌^◌, IfSome};
ghost use Rattle.ring.specs.declared.Degree.TheVariants.{Two};
ghost use Rattle.layout_rules.specs.Section.{of_degree};
ghost use Rattle.ring.specs.Element.{plus};
ghost use Rattle.ring.specs.Tests.{Within, RowsWithin};
ghost use Rattle.digit_rules.specs.Record.{element_count};
ghost use Rattle.leaf_rules.specs.Given.{word_given, weight_given};
ghost use Rattle.pair_digits.specs.Slots.{Slotted};
ghost use Rattle.table_rules.specs.Pairs.{in_alphabet, upper_part};

use ring::Degree;

// The count of slots, for alphabet digits and for weights, and the mark of an empty one.
pub const SLOTS: usize = 256;

pub const EMPTY: u8 = 255;

// What an upper leaf gives to the digits of its pairs: its first digit minus the base times its weight.
pub fn upper_part(
    degree: Degree,
    base: &[[i64; 4]; 4],
    inputs: &[u8],
    leaves: &[u8],
    words: &[u8],
    upper: usize,
) -> [i64; 4]
    requires { RowsWithin (2 ^ 21) base.now
        × (get_or (word_given (of_degree degree leaves.now) words.now upper) 0 0 < element_count (of_degree degree inputs.now)) }
    ensures part { result ≡ upper_part base.now (of_degree degree inputs.now) (of_degree degree leaves.now) words.now upper }
    ensures within { Within (2 ^ 55 + 32768) result }
{
    let first = octets::byte_at(leaves::word(degree, leaves, words, upper), 0) as usize;
    elements::difference(
        digits::record_at(degree, inputs, first),
        elements::times_base(degree, *base, leaves::weight(degree, leaves, upper)),
    )
}

// The same with the degree as a constant where it is two, so that sizes and parts are chosen once.
fn upper_part_at_two(
    base: &[[i64; 4]; 4],
    inputs: &[u8],
    leaves: &[u8],
    words: &[u8],
    upper: usize,
) -> [i64; 4]
    requires { RowsWithin (2 ^ 21) base.now × (get_or (word_given (of_degree Two leaves.now) words.now upper) 0 0 < element_count (of_degree Two inputs.now)) }
    ensures part { result ≡ upper_part base.now (of_degree Two inputs.now) (of_degree Two leaves.now) words.now upper }
    ensures within { Within (2 ^ 55 + 32768) result }
{
    upper_part(Degree::Two, base, inputs, leaves, words, upper)
}

pub fn upper_part_by(
    degree: Degree,
    base: &[[i64; 4]; 4],
    inputs: &[u8],
    leaves: &[u8],
    words: &[u8],
    upper: usize,
) -> [i64; 4]
    requires { RowsWithin (2 ^ 21) base.now
        × (get_or (word_given (of_degree degree leaves.now) words.now upper) 0 0 < element_count (of_degree degree inputs.now)) }
    ensures part { result ≡ upper_part base.now (of_degree degree inputs.now) (of_degree degree leaves.now) words.now upper }
    ensures within { Within (2 ^ 55 + 32768) result }
{
    match degree {
        Degree::Two => upper_part_at_two(base, inputs, leaves, words, upper),
        Degree::Three => upper_part(degree, base, inputs, leaves, words, upper),
        Degree::Four => upper_part(degree, base, inputs, leaves, words, upper),
    }
}

// Puts the number of each alphabet digit into its slot; whether each has a slot of its own. The slots are lent, and bytes with a mark: an array in an
// `Option` may be copied, `Option`s are twice as large, and the header's bound on the stack has no room for either.
pub fn slot_digits(degree: Degree, alphabet: &[u8], slots: &mut [u8; SLOTS]) -> bool
    ensures { result ≡ true → Slotted (of_degree degree alphabet.now) slots.new }
{
    let count = layout::record_count(degree, alphabet, 1);
    if count > 255 {
        return false;
    }
    for digit in 0..count {
        let slot = slots::slot_of(digits::record_at(degree, alphabet, digit));
        if slots[slot] < EMPTY {
            return false;
        }
        slots[slot] = digit as u8;
    }
    true
}

// Whether an element is an alphabet digit, by the one in its slot.
fn in_slots(degree: Degree, alphabet: &[u8], slots: &[u8; SLOTS], x: [i64; 4]) -> bool
    requires { Within (2 ^ 56) x × Slotted (of_degree degree alphabet.now) slots.now }
    ensures { result ≡ in_alphabet (of_degree degree alphabet.now) x }
{
    let slot = slots::slot_of(x);
    let digit = usize::from(slots[slot]);
    digit < layout::record_count(degree, alphabet, 1)
        && elements::equal(digits::record_at(degree, alphabet, digit), x)
}

// Whether a fitting pair gives an alphabet digit, by the upper leaf's part of it, and by the slots where they are known.
fn gives_digit(
    degree: Degree,
    alphabet: &[u8],
    slots: Option<&[u8; SLOTS]>,
    part: [i64; 4],
    leaves: &[u8],
    lower: usize,
) -> bool
    requires { IfSome slots (λ known. Slotted (of_degree degree alphabet.now) known.now) × Within (2 ^ 55 + 32768) part }
    ensures { result ≡ in_alphabet (of_degree degree alphabet.now) (plus part (weight_given (of_degree degree leaves.now) lower)) }
{
    let digit = elements::sum(part, leaves::weight(degree, leaves, lower));
    match slots {
        Some(known) => in_slots(degree, alphabet, known, digit),
        None => {
            let count = layout::record_count(degree, alphabet, 1);
            digits::find(degree, alphabet, count, digit).is_some()
        }
    }
}

// The same with the degree as a constant where it is two, as above.
fn gives_digit_at_two(
    alphabet: &[u8],
    slots: Option<&[u8; SLOTS]>,
    part: [i64; 4],
    leaves: &[u8],
    lower: usize,
) -> bool
    requires { IfSome slots (λ known. Slotted (of_degree Two alphabet.now) known.now) × Within (2 ^ 55 + 32768) part }
    ensures { result ≡ in_alphabet (of_degree Two alphabet.now) (plus part (weight_given (of_degree Two leaves.now) lower)) }
{
    gives_digit(Degree::Two, alphabet, slots, part, leaves, lower)
}

pub fn gives_digit_by(
    degree: Degree,
    alphabet: &[u8],
    slots: Option<&[u8; SLOTS]>,
    part: [i64; 4],
    leaves: &[u8],
    lower: usize,
) -> bool
    requires { IfSome slots (λ known. Slotted (of_degree degree alphabet.now) known.now) × Within (2 ^ 55 + 32768) part }
    ensures { result ≡ in_alphabet (of_degree degree alphabet.now) (plus part (weight_given (of_degree degree leaves.now) lower)) }
{
    match degree {
        Degree::Two => gives_digit_at_two(alphabet, slots, part, leaves, lower),
        Degree::Three => gives_digit(degree, alphabet, slots, part, leaves, lower),
        Degree::Four => gives_digit(degree, alphabet, slots, part, leaves, lower),
    }
}
