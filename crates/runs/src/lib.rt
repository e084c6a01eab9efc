// Words as numbers, and the runs of lower leaves that fit an upper one, as places among them.
#![tactic(auto)]

ghost use Rattle.std.specs.Prelude.{◌≡◌, true, List, ℕ, ◌+◌, ◌-◌, ◌<◌, ◌≤◌, ◌^◌, pred, length, get_or};
ghost use Rattle.ring.specs.declared.Degree.TheVariants.{Two};
ghost use Rattle.layout_rules.specs.Section.{of_degree};
ghost use Rattle.numeration.specs.PairCount.{lower_count, pair_count};
ghost use Rattle.leaf_rules.specs.Leaf.{leaf_count, code_of, word_length};
ghost use Rattle.prefix_rules.specs.Formed.{LeavesFormed};
ghost use Rattle.runs.specs.Words.{WordsOrdered, Keyed, LeavesPass, FirstAbove, LastLow};

use ring::Degree;

// Few leaves, and the most leaves.
const FEW: usize = 64;

const LEAVES: usize = 4096;

// How many lower leaves fit an upper one, and where their run ends.
#[derive(Clone, Copy)]
struct Run {
    fitting: usize,
    end: usize,
}

// The words of all leaves as numbers.
fn keys_of(degree: Degree, leaves: &[u8], words: &[u8], keys: &mut [u64])
    requires room { leaf_count (of_degree degree leaves.now) ≤ length keys.old }
    requires ordered { WordsOrdered (of_degree degree leaves.now) words.now }
    ensures { Keyed (of_degree degree leaves.now) words.now keys.new (leaf_count (of_degree degree leaves.now)) }
{
    for leaf in 0..leaves::leaf_count(degree, leaves) {
        let start = leaves::word_start(degree, leaves, leaf);
        let length = leaves::word_length(degree, leaves, leaf);
        keys[leaf] = word_numbers::word_number(words, start, length);
    }
}

// The same with the degree as a constant where it is two, so that the size of a record is one too.
fn keys_of_at_two(leaves: &[u8], words: &[u8], keys: &mut [u64])
    requires room { leaf_count (of_degree Two leaves.now) ≤ length keys.old }
    requires ordered { WordsOrdered (of_degree Two leaves.now) words.now }
    ensures { Keyed (of_degree Two leaves.now) words.now keys.new (leaf_count (of_degree Two leaves.now)) }
{
    keys_of(Degree::Two, leaves, words, keys)
}

pub fn keys_of_by(degree: Degree, leaves: &[u8], words: &[u8], keys: &mut [u64])
    requires room { leaf_count (of_degree degree leaves.now) ≤ length keys.old }
    requires ordered { WordsOrdered (of_degree degree leaves.now) words.now }
    ensures { Keyed (of_degree degree leaves.now) words.now keys.new (leaf_count (of_degree degree leaves.now)) }
{
    match degree {
        Degree::Two => keys_of_at_two(leaves, words, keys),
        Degree::Three | Degree::Four => keys_of(degree, leaves, words, keys),
    }
}

// What the words that begin with an upper word's tail have behind it at most, by the upper word's length.
pub fn behind(length: usize) -> u64
    requires { (1 ≤ length) × (length ≤ 8) }
    ensures { result + 1 ≡ 256 ^ (8 - pred length) }
{
    u64::MAX >> (8 * (length - 1))
}

// The first place whose number is above a bound, by halves. Not by `partition_point`: the contract holds of any numbers, and that method's
// says nothing of numbers that aren't known to be sorted.
fn by_halves(keys: &[u64], from: usize, end: usize, bound: u64) -> usize
    requires { (from ≤ end) × (end ≤ length keys.now) }
    ensures { FirstAbove keys.now bound from end result }
{
    let mut low = from;
    let mut high = end;
    while low < high {
        let middle = low + (high - low) / 2;
        if bound < keys[middle] {
            high = middle;
        } else {
            low = middle + 1;
        }
    }
    low
}

// The same in steps that double, since it is near the first place most of the time.
fn first_above(keys: &[u64], from: usize, end: usize, bound: u64) -> usize
    requires { (from ≤ end) × (end ≤ length keys.now) }
    ensures { FirstAbove keys.now bound from end result }
{
    let mut low = from;
    let mut step = 1;
    // a `while`: the step doubles, and no index counts up
    while step <= end - low {
        let last = low + (step - 1);
        if bound < keys[last] {
            return by_halves(keys, low, last, bound);
        }
        low = last + 1;
        step += step;
    }
    by_halves(keys, low, end, bound)
}

// A leaf whose word is at most a tail with zeros behind it: the guessed one, the one before it, or leaf 0.
pub fn low_leaf(keys: &[u64], count: usize, guess: usize, tail: u64) -> usize
    requires { (0 < count) × (count ≤ length keys.now) × (guess ≤ count) }
    ensures within { result < count }
    ensures low { 0 < result → get_or keys.now result 0 ≤ tail }
{
    if guess < count && keys[guess] <= tail {
        return guess;
    }
    if 0 < guess && keys[guess - 1] <= tail {
        return guess - 1;
    }
    0
}

// Whether the next leaf is there and its word above a number.
pub fn next_above(keys: &[u64], count: usize, leaf: usize, number: u64) -> bool
    requires { (leaf < count) × (count ≤ length keys.now) }
    ensures { result ≡ true → (leaf + 1 < count) × (number < get_or keys.now (leaf + 1) 0) }
{
    let next = leaf + 1;
    next < count && number < keys[next]
}

// From a leaf on whose word is at most a tail with zeros behind it, or from leaf 0, the last such leaf. Most of the time the next leaf's is
// above the tail.
pub fn last_from(keys: &[u64], count: usize, low: usize, tail: u64) -> usize
    requires { (low < count) × (count ≤ length keys.now) × (0 < low → get_or keys.now low 0 ≤ tail) }
    ensures { LastLow keys.now tail count result }
{
    let next = low + 1;
    if next < count && keys[next] <= tail {
        return first_above(keys, next, count, tail) - 1;
    }
    low
}

// The lower leaves that fit an upper one. All leaves fit one whose word has one digit.
fn run_of(degree: Degree, leaves: &[u8], keys: &[u64], upper: usize, guess: usize) -> Run
    requires room { leaf_count (of_degree degree leaves.now) ≤ length keys.now }
    requires upper { (upper < leaf_count (of_degree degree leaves.now)) × (1 ≤ word_length (of_degree degree leaves.now) upper)
        × (word_length (of_degree degree leaves.now) upper ≤ 8) × (guess ≤ leaf_count (of_degree degree leaves.now)) }
    ensures end { (result.end ≤ leaf_count (of_degree degree leaves.now)) × (result.fitting ≤ leaf_count (of_degree degree leaves.now)) }
    ensures fitting { let table = of_degree degree leaves.now in
        (words : List ℕ) (m : ℕ) → 0 < m → LeavesFormed table words m → WordsOrdered table words → Keyed table words keys.now (leaf_count table)
        → result.fitting ≡ lower_count (code_of table words) upper }
{
    let count = leaves::leaf_count(degree, leaves);
    let length = leaves::word_length(degree, leaves, upper);
    if length == 1 {
        return Run {
            fitting: count,
            end: count,
        };
    }
    let tail = keys[upper] << 8;
    let low = low_leaf(keys, count, guess, tail);
    let start = last_from(keys, count, low, tail);
    let end = first_above(keys, start, count, tail | behind(length));
    let fitting = end - start;
    Run { fitting, end }
}

// The number of fitting pairs, with room lent for the words as numbers.
fn count_in(degree: Degree, leaves: &[u8], words: &[u8], keys: &mut [u64]) -> usize
    requires formed { LeavesPass (of_degree degree leaves.now) words.now }
    requires room { (leaf_count (of_degree degree leaves.now) ≤ length keys.old) × (leaf_count (of_degree degree leaves.now) ≤ 4096) }
    ensures { result ≡ pair_count (code_of (of_degree degree leaves.now) words.now) }
{
    keys_of_by(degree, leaves, words, keys);
    let count = leaves::leaf_count(degree, leaves);
    let mut pairs = 0;
    let mut guess = 0;
    for upper in 0..count {
        let run = run_of(degree, leaves, keys, upper, guess);
        pairs += run.fitting;
        guess = run.end;
    }
    pairs
}

// The same with room for so many leaves, since cleared room costs time.
fn count_with_room<const ROOM: usize>(degree: Degree, leaves: &[u8], words: &[u8]) -> usize
    requires formed { LeavesPass (of_degree degree leaves.now) words.now }
    requires room { (leaf_count (of_degree degree leaves.now) ≤ ROOM) × (ROOM ≤ 4096) }
    ensures { result ≡ pair_count (code_of (of_degree degree leaves.now) words.now) }
{
    let mut keys = [0; ROOM];
    count_in(degree, leaves, words, &mut keys)
}

// The number of fitting leaf pairs: for each upper leaf the difference of two places.
pub fn pair_count(degree: Degree, leaves: &[u8], words: &[u8]) -> usize
    requires formed { LeavesPass (of_degree degree leaves.now) words.now }
    requires count { leaf_count (of_degree degree leaves.now) ≤ 4096 }
    ensures { result ≡ pair_count (code_of (of_degree degree leaves.now) words.now) }
{
    if leaves::leaf_count(degree, leaves) <= FEW {
        count_with_room::<FEW>(degree, leaves, words)
    } else {
        count_with_room::<LEAVES>(degree, leaves, words)
    }
}
