// Rule 14's quick look, by sets of weights: how many upper leaves, from the first on, are seen to give alphabet digits in all their pairs, and
// how many pairs these are.
#![tactic(auto)]

ghost use Rattle.std.specs.Prelude.{◌≡◌, List, ℕ, ◌/◌, ◌<◌, ◌≤◌, ◌^◌, length, get_or};
ghost use Rattle.layout_rules.specs.Section.{of_degree};
ghost use Rattle.ring.specs.Tests.{RowsWithin};
ghost use Rattle.digit_rules.specs.BaseMatrix.{base_matrix};
ghost use Rattle.digit_rules.specs.Digits.{BasePart};
ghost use Rattle.digit_rules.specs.Record.{element_count};
ghost use Rattle.numeration.specs.Pairs.{Fits};
ghost use Rattle.numeration.specs.PairCount.{lower_count};
ghost use Rattle.leaf_rules.specs.Leaf.{leaf_count, code_of, word_length};
ghost use Rattle.prefix_rules.specs.Check.{leaf_check};
ghost use Rattle.prefix_rules.specs.Formed.{LeavesFormed};
ghost use Rattle.runs.specs.Words.{WordsOrdered, Keyed, Between, FirstAbove};
ghost use Rattle.weight_sets.specs.Bits.{Has};
ghost use Rattle.pair_sets.specs.Runs.{InRun, Judgement};
ghost use Rattle.weight_sets.specs.Weights.{WeightsNumbered, Covers};

use pair_digits::{EMPTY, SLOTS};
use ring::Degree;
use weight_sets::WEIGHTS;

// The fewest leaves, few leaves, and the most leaves.
const FEWEST: usize = 32;

const FEW: usize = 512;

const LEAVES: usize = 4096;

// The weights of leaves that are neighbours, and where these end.
#[derive(Clone, Copy)]
struct Run {
    set: u64,
    end: usize,
}

// The same of the lower leaves that fit an upper one, and how many they are.
#[derive(Clone, Copy)]
struct FitRun {
    set: u64,
    count: usize,
    end: usize,
}

// How many upper leaves, from the first on, are seen to pass, and how many pairs they have.
#[derive(Clone, Copy)]
pub struct PassedLeaves {
    pub uppers: usize,
    pub pairs: usize,
}

// No leaf is seen to pass.
const NONE_PASSED: PassedLeaves = PassedLeaves {
    uppers: 0,
    pairs: 0,
};

// The first digit of a word, by its number.
fn first_digit(key: u64) -> usize
    ensures digit { result ≡ key / 72057594037927936 }
    ensures within { result < 256 }
{
    (key / 72057594037927936) as usize
}

// The weights from a leaf on, eight leaves at a time, while their words are at most the last one.
fn by_eights(keys: &[u64], sets: &[u64], count: usize, start: usize, last: u64) -> Run
    requires room { (count ≤ length keys.now) × (count ≤ length sets.now) × (start ≤ count) }
    ensures end { Between keys.now last start count result.end count }
    ensures set { (numbers : List ℕ) → Covers numbers sets.now count 8 → InRun numbers start result.set result.end }
{
    let mut set = 0;
    let mut leaf = start;
    // a range with `step_by` wouldn't tell the leaf that the walk one by one goes on from
    while leaf + 8 <= count {
        let next = leaf + 7;
        if last < keys[next] {
            return Run { set, end: leaf };
        }
        set |= sets[leaf];
        leaf += 8;
    }
    Run { set, end: leaf }
}

// The same leaf by leaf, up to the first whose word is above the last one.
fn one_by_one(keys: &[u64], numbers: &[u8], count: usize, run: Run, last: u64) -> Run
    requires room { (count ≤ length keys.now) × (count ≤ length numbers.now) × (run.end ≤ count) }
    requires weights { (k : ℕ) → k < count → get_or numbers.now k 0 < 64 }
    ensures end { (start : ℕ) → Between keys.now last start count run.end count
        → FirstAbove keys.now last start count result.end }
    ensures set { (start : ℕ) → InRun numbers.now start run.set run.end
        → InRun numbers.now start result.set result.end }
{
    let mut set = run.set;
    for leaf in run.end..count {
        if last < keys[leaf] {
            return Run { set, end: leaf };
        }
        set |= weight_sets::single(usize::from(numbers[leaf]));
    }
    Run { set, end: count }
}

// The weights of all lower leaves that fit an upper one. All leaves fit one whose word has one digit; often one alone fits.
fn fitting(
    degree: Degree,
    leaves: &[u8],
    keys: &[u64],
    numbers: &[u8],
    sets: &[u64],
    all: u64,
    upper: usize,
    guess: usize,
) -> FitRun
    requires room { (leaf_count (of_degree degree leaves.now) ≤ length keys.now) × (leaf_count (of_degree degree leaves.now) ≤ length numbers.now)
        × (leaf_count (of_degree degree leaves.now) ≤ length sets.now) }
    requires upper { (upper < leaf_count (of_degree degree leaves.now)) × (1 ≤ word_length (of_degree degree leaves.now) upper)
        × (word_length (of_degree degree leaves.now) upper ≤ 8)
        × (guess ≤ leaf_count (of_degree degree leaves.now)) }
    requires weights { ((k : ℕ) → k < leaf_count (of_degree degree leaves.now) → get_or numbers.now k 0 < 64)
        × Covers numbers.now sets.now (leaf_count (of_degree degree leaves.now)) 8
        × ((k : ℕ) → k < leaf_count (of_degree degree leaves.now) → Has all (get_or numbers.now k 0)) }
    ensures end { (result.end ≤ leaf_count (of_degree degree leaves.now)) × (result.count ≤ leaf_count (of_degree degree leaves.now)) }
    ensures set { let table = of_degree degree leaves.now in
        (words : List ℕ) → WordsOrdered table words → Keyed table words keys.now (leaf_count table)
        → (l : ℕ) → l < leaf_count table → Fits (code_of table words) upper l → Has result.set (get_or numbers.now l 0) }
    ensures count { let table = of_degree degree leaves.now in
        (words : List ℕ) (m : ℕ) → 0 < m → LeavesFormed table words m → WordsOrdered table words → Keyed table words keys.now (leaf_count table)
        → result.count ≡ lower_count (code_of table words) upper }
{
    let count = leaves::leaf_count(degree, leaves);
    let length = leaves::word_length(degree, leaves, upper);
    if length == 1 {
        return FitRun {
            set: all,
            count,
            end: count,
        };
    }
    let tail = keys[upper] << 8;
    let last = tail | runs::behind(length);
    let low = runs::low_leaf(keys, count, guess, tail);
    if runs::next_above(keys, count, low, last) {
        return FitRun {
            set: weight_sets::single(usize::from(numbers[low])),
            count: 1,
            end: low + 1,
        };
    }
    let start = runs::last_from(keys, count, low, tail);
    let run = one_by_one(
        keys,
        numbers,
        count,
        by_eights(keys, sets, count, start, last),
        last,
    );
    FitRun {
        set: run.set,
        count: run.end - start,
        end: run.end,
    }
}

// How many upper leaves, from the first on, are seen to give alphabet digits with all lower leaves that fit, and how many pairs these are.
fn all_in(
    degree: Degree,
    base: &[[i64; 4]; 4],
    alphabet: &[u8],
    inputs: &[u8],
    leaves: &[u8],
    words: &[u8],
    keys: &[u64],
    numbers: &[u8],
    sets: &[u64],
    first: &[usize],
    count: usize,
) -> PassedLeaves
    requires table { RowsWithin (2 ^ 21) base.now × (0 < element_count (of_degree degree inputs.now))
        × ((leaf_check (of_degree degree leaves.now) words.now (element_count (of_degree degree inputs.now))).number ≡ 0) }
    requires room { (leaf_count (of_degree degree leaves.now) ≤ length keys.now) × (leaf_count (of_degree degree leaves.now) ≤ length numbers.now)
        × (leaf_count (of_degree degree leaves.now) ≤ length sets.now) × (count ≤ 64) × (count ≤ length first.now)
        × (leaf_count (of_degree degree leaves.now) ≤ 4096) }
    requires known { Keyed (of_degree degree leaves.now) words.now keys.now (leaf_count (of_degree degree leaves.now))
        × WeightsNumbered (of_degree degree leaves.now) numbers.now first.now count (leaf_count (of_degree degree leaves.now))
        × Covers numbers.now sets.now (leaf_count (of_degree degree leaves.now)) 8 }
    ensures { Judgement base.now (of_degree degree alphabet.now) (of_degree degree inputs.now) (of_degree degree leaves.now)
        words.now result }
{
    let mut slots = [EMPTY; SLOTS];
    if !pair_digits::slot_digits(degree, alphabet, &mut slots) {
        return NONE_PASSED;
    }
    let mut made = [0; WEIGHTS];
    let mut good = [0; WEIGHTS];
    let leaf_count = leaves::leaf_count(degree, leaves);
    let all = weight_sets::all_weights(count);
    let mut pairs = 0;
    let mut guess = 0;
    for upper in 0..leaf_count {
        let run = fitting(degree, leaves, keys, numbers, sets, all, upper, guess);
        let mark = first_digit(keys[upper]) + 1;
        let number = usize::from(numbers[upper]);
        let known = weight_sets::judged(
            degree, base, alphabet, &slots, inputs, leaves, words, upper, mark, number, first,
            count, &mut made, &mut good,
        );
        let set = run.set;
        if set & known != set {
            return PassedLeaves {
                uppers: upper,
                pairs,
            };
        }
        pairs += run.count;
        guess = run.end;
    }
    PassedLeaves {
        uppers: leaf_count,
        pairs,
    }
}

// The same, with room lent for what is kept of the leaves.
fn look(
    degree: Degree,
    base: &[u8],
    alphabet: &[u8],
    inputs: &[u8],
    leaves: &[u8],
    words: &[u8],
    keys: &mut [u64],
    sets: &mut [u64],
    numbers: &mut [u8],
) -> PassedLeaves
    requires table { BasePart (of_degree degree base.now) × (0 < element_count (of_degree degree inputs.now))
        × ((leaf_check (of_degree degree leaves.now) words.now (element_count (of_degree degree inputs.now))).number ≡ 0) }
    requires room { (leaf_count (of_degree degree leaves.now) ≤ length keys.old) × (leaf_count (of_degree degree leaves.now) ≤ length sets.old)
        × (leaf_count (of_degree degree leaves.now) ≤ length numbers.old) × (leaf_count (of_degree degree leaves.now) ≤ 4096) }
    ensures { Judgement (base_matrix (of_degree degree base.now)) (of_degree degree alphabet.now) (of_degree degree inputs.now)
        (of_degree degree leaves.now) words.now result }
{
    let mut first = [0; WEIGHTS];
    let Some(count) = weight_sets::number_weights_by(degree, leaves, numbers, &mut first) else {
        return NONE_PASSED;
    };
    runs::keys_of_by(degree, leaves, words, keys);
    weight_sets::eights(numbers, leaves::leaf_count(degree, leaves), sets);
    let matrix = digits::base_of(degree, base);
    all_in(
        degree, &matrix, alphabet, inputs, leaves, words, keys, numbers, sets, &first, count,
    )
}

// The same with room for so many leaves, since cleared room costs time.
fn look_with_room<const ROOM: usize>(
    degree: Degree,
    base: &[u8],
    alphabet: &[u8],
    inputs: &[u8],
    leaves: &[u8],
    words: &[u8],
) -> PassedLeaves
    requires table { BasePart (of_degree degree base.now) × (0 < element_count (of_degree degree inputs.now))
        × ((leaf_check (of_degree degree leaves.now) words.now (element_count (of_degree degree inputs.now))).number ≡ 0) }
    requires room { (leaf_count (of_degree degree leaves.now) ≤ ROOM) × (ROOM ≤ 4096) }
    ensures { Judgement (base_matrix (of_degree degree base.now)) (of_degree degree alphabet.now) (of_degree degree inputs.now)
        (of_degree degree leaves.now) words.now result }
{
    let mut keys = [0; ROOM];
    let mut sets = [0; ROOM];
    let mut numbers = [0; ROOM];
    look(
        degree,
        base,
        alphabet,
        inputs,
        leaves,
        words,
        &mut keys,
        &mut sets,
        &mut numbers,
    )
}

// The same: all of them where every fitting pair gives an alphabet digit.
pub fn passed(
    degree: Degree,
    base: &[u8],
    alphabet: &[u8],
    inputs: &[u8],
    leaves: &[u8],
    words: &[u8],
) -> PassedLeaves
    requires table { BasePart (of_degree degree base.now) × (0 < element_count (of_degree degree inputs.now))
        × ((leaf_check (of_degree degree leaves.now) words.now (element_count (of_degree degree inputs.now))).number ≡ 0) }
    ensures { Judgement (base_matrix (of_degree degree base.now)) (of_degree degree alphabet.now) (of_degree degree inputs.now)
        (of_degree degree leaves.now) words.now result }
{
    let count = leaves::leaf_count(degree, leaves);
    if count <= FEWEST {
        look_with_room::<FEWEST>(degree, base, alphabet, inputs, leaves, words)
    } else if count <= FEW {
        look_with_room::<FEW>(degree, base, alphabet, inputs, leaves, words)
    } else if count <= LEAVES {
        look_with_room::<LEAVES>(degree, base, alphabet, inputs, leaves, words)
    } else {
        NONE_PASSED
    }
}
