// The different weights of leaves, by number, and sets of them: those of neighbouring leaves, and those that give alphabet digits.
#![tactic(auto)]

ghost use Rattle.std.specs.Prelude.{◌≡◌, List, ℕ, ◌+◌, ◌<◌, ◌≤◌, ◌^◌, length, get_or, IfSome};
ghost use Rattle.ring.specs.declared.Degree.TheVariants.{Two};
ghost use Rattle.layout_rules.specs.Section.{of_degree};
ghost use Rattle.ring.specs.Tests.{Within, RowsWithin};
ghost use Rattle.digit_rules.specs.Record.{element_count};
ghost use Rattle.leaf_rules.specs.Leaf.{leaf_count};
ghost use Rattle.leaf_rules.specs.Given.{word_given, weight_given};
ghost use Rattle.table_rules.specs.Pairs.{upper_part};
ghost use Rattle.pair_digits.specs.Slots.{Slotted};
ghost use Rattle.weight_sets.specs.Bits.{Has};
ghost use Rattle.weight_sets.specs.Weights.{WeightsNumbered, Covers, Good, Judged};

use pair_digits::{EMPTY, SLOTS};
use ring::Degree;

// The most different weights.
pub const WEIGHTS: usize = 64;

// The number of a leaf's weight, of the count that are known: the one in the weight's slot, or the next one where the slot is empty; none where
// the slot has another weight, or there are too many.
fn number_in(
    degree: Degree,
    leaves: &[u8],
    first: &[usize],
    count: usize,
    leaf: usize,
    number: usize,
) -> Option<usize>
    requires { (count ≤ 64) × (count ≤ length first.now) }
    ensures within { IfSome result (λ n. (n < 64) × (n ≤ count)) }
    ensures same { IfSome result (λ n. n < count
        → weight_given (of_degree degree leaves.now) (get_or first.now n 0) ≡ weight_given (of_degree degree leaves.now) leaf) }
{
    if number < count {
        let known = leaves::weight(degree, leaves, first[number]);
        elements::equal(known, leaves::weight(degree, leaves, leaf)).then_some(number)
    } else {
        (count < WEIGHTS).then_some(count)
    }
}

// Numbers the different weights as they come up, with a leaf for each number; their count, unless there are too many or two have the same slot.
fn number_weights(
    degree: Degree,
    leaves: &[u8],
    numbers: &mut [u8],
    first: &mut [usize],
) -> Option<usize>
    requires { (leaf_count (of_degree degree leaves.now) ≤ length numbers.old) × (64 ≤ length first.old) }
    ensures { IfSome result (λ n. (n ≤ 64)
        × WeightsNumbered (of_degree degree leaves.now) numbers.new first.new n (leaf_count (of_degree degree leaves.now))) }
{
    let mut slots = [EMPTY; SLOTS];
    let mut count = 0;
    for leaf in 0..leaves::leaf_count(degree, leaves) {
        let slot = slots::slot_of(leaves::weight(degree, leaves, leaf));
        let kept = usize::from(slots[slot]);
        let number = number_in(degree, leaves, first, count, leaf, kept)?;
        if number == count {
            first[number] = leaf;
            slots[slot] = number as u8;
            count += 1;
        }
        numbers[leaf] = number as u8;
    }
    Some(count)
}

// The same with the degree as a constant where it is two, so that sizes and parts are chosen once and not for each leaf.
fn number_weights_at_two(leaves: &[u8], numbers: &mut [u8], first: &mut [usize]) -> Option<usize>
    requires { (leaf_count (of_degree Two leaves.now) ≤ length numbers.old) × (64 ≤ length first.old) }
    ensures { IfSome result (λ n. (n ≤ 64)
        × WeightsNumbered (of_degree Two leaves.now) numbers.new first.new n (leaf_count (of_degree Two leaves.now))) }
{
    number_weights(Degree::Two, leaves, numbers, first)
}

pub fn number_weights_by(
    degree: Degree,
    leaves: &[u8],
    numbers: &mut [u8],
    first: &mut [usize],
) -> Option<usize>
    requires { (leaf_count (of_degree degree leaves.now) ≤ length numbers.old) × (64 ≤ length first.old) }
    ensures { IfSome result (λ n. (n ≤ 64)
        × WeightsNumbered (of_degree degree leaves.now) numbers.new first.new n (leaf_count (of_degree degree leaves.now))) }
{
    match degree {
        Degree::Two => number_weights_at_two(leaves, numbers, first),
        Degree::Three => number_weights(degree, leaves, numbers, first),
        Degree::Four => number_weights(degree, leaves, numbers, first),
    }
}

// A set of one number.
pub fn single(number: usize) -> u64
    requires { number < 64 }
    ensures { result ≡ 2 ^ number }
{
    1 << number
}

// Each leaf's weight as a set.
fn singles(numbers: &[u8], count: usize, sets: &mut [u64])
    requires room { (count ≤ length numbers.now) × (count ≤ length sets.old) }
    requires weights { (k : ℕ) → k < count → get_or numbers.now k 0 < 64 }
    ensures { Covers numbers.now sets.new count 1 }
{
    for leaf in 0..count {
        sets[leaf] = single(usize::from(numbers[leaf]));
    }
}

// From sets of so many neighbours to sets of twice as many.
fn double(count: usize, sets: &mut [u64], step: usize)
    requires { (count ≤ length sets.old) × (step ≤ 8) }
    ensures { (numbers : List ℕ) → Covers numbers sets.old count step → Covers numbers sets.new count (step + step) }
{
    for leaf in 0..count.saturating_sub(step) {
        sets[leaf] |= sets[leaf + step];
    }
}

// For each leaf the weights of the eight leaves from it on.
pub fn eights(numbers: &[u8], count: usize, sets: &mut [u64])
    requires room { (count ≤ length numbers.now) × (count ≤ length sets.old) }
    requires weights { (k : ℕ) → k < count → get_or numbers.now k 0 < 64 }
    ensures { Covers numbers.now sets.new count 8 }
{
    singles(numbers, count, sets);
    double(count, sets, 1);
    double(count, sets, 2);
    double(count, sets, 4);
}

// All weights, by their count.
pub fn all_weights(count: usize) -> u64
    requires { count ≤ 64 }
    ensures { (j : ℕ) → j < count → Has result j }
{
    let mut set = 0;
    for number in 0..count {
        set |= single(number);
    }
    set
}

// The weights that give alphabet digits with an upper leaf's part.
fn good_set(
    degree: Degree,
    alphabet: &[u8],
    slots: &[u8; SLOTS],
    part: [i64; 4],
    leaves: &[u8],
    first: &[usize],
    count: usize,
) -> u64
    requires part { Slotted (of_degree degree alphabet.now) slots.now × Within (2 ^ 55 + 32768) part }
    requires weights { (count ≤ 64) × (count ≤ length first.now) }
    ensures { Good (of_degree degree alphabet.now) (of_degree degree leaves.now) first.now part result }
{
    let mut good = 0;
    for number in 0..count {
        let leaf = first[number];
        if pair_digits::gives_digit_by(degree, alphabet, Some(slots), part, leaves, leaf) {
            good |= single(number);
        }
    }
    good
}

// The weights that give alphabet digits with an upper leaf.
fn judge(
    degree: Degree,
    base: &[[i64; 4]; 4],
    alphabet: &[u8],
    slots: &[u8; SLOTS],
    inputs: &[u8],
    leaves: &[u8],
    words: &[u8],
    upper: usize,
    first: &[usize],
    count: usize,
) -> u64
    requires part { RowsWithin (2 ^ 21) base.now × Slotted (of_degree degree alphabet.now) slots.now
        × (get_or (word_given (of_degree degree leaves.now) words.now upper) 0 0 < element_count (of_degree degree inputs.now)) }
    requires weights { (count ≤ 64) × (count ≤ length first.now) }
    ensures { Good (of_degree degree alphabet.now) (of_degree degree leaves.now) first.now
        (upper_part base.now (of_degree degree inputs.now) (of_degree degree leaves.now) words.now upper) result }
{
    let part = pair_digits::upper_part(degree, base, inputs, leaves, words, upper);
    good_set(degree, alphabet, slots, part, leaves, first, count)
}

// The same with the degree as a constant where it is two, as above.
fn judge_at_two(
    base: &[[i64; 4]; 4],
    alphabet: &[u8],
    slots: &[u8; SLOTS],
    inputs: &[u8],
    leaves: &[u8],
    words: &[u8],
    upper: usize,
    first: &[usize],
    count: usize,
) -> u64
    requires part { RowsWithin (2 ^ 21) base.now × Slotted (of_degree Two alphabet.now) slots.now
        × (get_or (word_given (of_degree Two leaves.now) words.now upper) 0 0 < element_count (of_degree Two inputs.now)) }
    requires weights { (count ≤ 64) × (count ≤ length first.now) }
    ensures { Good (of_degree Two alphabet.now) (of_degree Two leaves.now) first.now
        (upper_part base.now (of_degree Two inputs.now) (of_degree Two leaves.now) words.now upper) result }
{
    judge(
        Degree::Two,
        base,
        alphabet,
        slots,
        inputs,
        leaves,
        words,
        upper,
        first,
        count,
    )
}

fn judge_by(
    degree: Degree,
    base: &[[i64; 4]; 4],
    alphabet: &[u8],
    slots: &[u8; SLOTS],
    inputs: &[u8],
    leaves: &[u8],
    words: &[u8],
    upper: usize,
    first: &[usize],
    count: usize,
) -> u64
    requires part { RowsWithin (2 ^ 21) base.now × Slotted (of_degree degree alphabet.now) slots.now
        × (get_or (word_given (of_degree degree leaves.now) words.now upper) 0 0 < element_count (of_degree degree inputs.now)) }
    requires weights { (count ≤ 64) × (count ≤ length first.now) }
    ensures { Good (of_degree degree alphabet.now) (of_degree degree leaves.now) first.now
        (upper_part base.now (of_degree degree inputs.now) (of_degree degree leaves.now) words.now upper) result }
{
    match degree {
        Degree::Two => judge_at_two(
            base, alphabet, slots, inputs, leaves, words, upper, first, count,
        ),
        Degree::Three => judge(
            degree, base, alphabet, slots, inputs, leaves, words, upper, first, count,
        ),
        Degree::Four => judge(
            degree, base, alphabet, slots, inputs, leaves, words, upper, first, count,
        ),
    }
}

// The same, judged once for each first digit and weight of an upper leaf: leaves come in the order of their first digits. `mark` is the
// first digit plus one, as it is kept.
pub fn judged(
    degree: Degree,
    base: &[[i64; 4]; 4],
    alphabet: &[u8],
    slots: &[u8; SLOTS],
    inputs: &[u8],
    leaves: &[u8],
    words: &[u8],
    upper: usize,
    mark: usize,
    number: usize,
    first: &[usize],
    count: usize,
    made: &mut [usize; WEIGHTS],
    good: &mut [u64; WEIGHTS],
) -> u64
    requires part { RowsWithin (2 ^ 21) base.now × Slotted (of_degree degree alphabet.now) slots.now
        × (get_or (word_given (of_degree degree leaves.now) words.now upper) 0 0 < element_count (of_degree degree inputs.now)) }
    requires number { (number < 64) × (count ≤ 64) × (count ≤ length first.now)
        × (weight_given (of_degree degree leaves.now) (get_or first.now number 0) ≡ weight_given (of_degree degree leaves.now) upper)
        × (mark ≡ get_or (word_given (of_degree degree leaves.now) words.now upper) 0 0 + 1) }
    requires kept { Judged base.now (of_degree degree alphabet.now) (of_degree degree inputs.now) (of_degree degree leaves.now) first.now made.old good.old }
    ensures good { Good (of_degree degree alphabet.now) (of_degree degree leaves.now) first.now
        (upper_part base.now (of_degree degree inputs.now) (of_degree degree leaves.now) words.now upper) result }
    ensures kept { Judged base.now (of_degree degree alphabet.now) (of_degree degree inputs.now) (of_degree degree leaves.now) first.now
        made.new good.new }
{
    if made[number] == mark {
        return good[number];
    }
    let set = judge_by(
        degree, base, alphabet, slots, inputs, leaves, words, upper, first, count,
    );
    good[number] = set;
    made[number] = mark;
    set
}
