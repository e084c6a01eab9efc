// Rules 9 to 13 of document 01, each by a scan that names the place. Sections 3 and 4 come as two parts, of a file or not.
#![tactic(auto)]

ghost use Rattle.std.specs.Prelude.{◌≡◌, ◌+◌, ◌-◌, ◌≤◌, ◌<◌, true, length};
ghost use Rattle.layout_rules.specs.Section.{of_degree};
ghost use Rattle.faults.specs.Passed.{passed};
ghost use Rattle.numeration.specs.Prefix as prefixes;
ghost use Rattle.leaf_rules.specs.Leaf.{leaf_count, code_of};
ghost use Rattle.prefix_rules.specs.Coverage as coverage;
ghost use Rattle.prefix_rules.specs.Check.{expected_word_start, leaf_allowed, place_check, word_index_check, order_check, cover_check, zero_check, leaf_check};

use faults::Refusal;
use ring::Degree;

// The most digits of a word.
const LONGEST: usize = 8;

// Where a leaf's word must start: at 0, or where the one before ends.
fn expected_start(degree: Degree, leaves: &[u8], leaf: usize) -> usize
    requires { leaf < leaf_count (of_degree degree leaves.now) }
    ensures { result ≡ expected_word_start (of_degree degree leaves.now) leaf }
{
    if leaf == 0 {
        0
    } else {
        leaves::word_start(degree, leaves, leaf - 1) + leaves::word_length(degree, leaves, leaf - 1)
    }
}

// Rule 9 at a leaf, with the length of section 4.
fn leaf_allowed(degree: Degree, leaves: &[u8], all: usize, leaf: usize) -> bool
    requires { leaf < leaf_count (of_degree degree leaves.now) }
    ensures { result ≡ leaf_allowed (of_degree degree leaves.now) all leaf }
{
    let start = leaves::word_start(degree, leaves, leaf);
    let length = leaves::word_length(degree, leaves, leaf);
    // tests one by one: of five joined by `&&` the check hands a proof no fact that says which failed
    if length < 1 {
        return false;
    }
    if LONGEST < length {
        return false;
    }
    if start != expected_start(degree, leaves, leaf) {
        return false;
    }
    if all < start + length {
        return false;
    }
    if leaf + 1 < leaves::leaf_count(degree, leaves) {
        return true;
    }
    start + length == all
}

// Rule 9: the words lie one after the other.
fn places(degree: Degree, leaves: &[u8], words: &[u8]) -> Result<(), Refusal>
    ensures { result ≡ passed (place_check (of_degree degree leaves.now) words.now) }
{
    let count = leaves::leaf_count(degree, leaves);
    for leaf in 0..count {
        if !leaf_allowed(degree, leaves, words.len(), leaf) {
            return Err(Refusal {
                number: 9,
                place: leaf,
            });
        }
    }
    Ok(())
}

// Rule 10: every word byte is an input index.
fn indexes(words: &[u8], inputs: usize) -> Result<(), Refusal>
    ensures { result ≡ passed (word_index_check words.now inputs) }
{
    for (i, digit) in words.iter().enumerate() {
        if inputs <= usize::from(*digit) {
            return Err(Refusal {
                number: 10,
                place: i,
            });
        }
    }
    Ok(())
}

// Rule 11 at a leaf and the next one: the later word is above, and neither begins the other.
fn precedes(degree: Degree, leaves: &[u8], words: &[u8], leaf: usize) -> bool
    requires { leaf + 1 < leaf_count (of_degree degree leaves.now) }
    ensures { result ≡ prefixes.precedes (code_of (of_degree degree leaves.now) words.now) leaf (leaf + 1) }
{
    let a = leaves::word_start(degree, leaves, leaf);
    let b = leaves::word_start(degree, leaves, leaf + 1);
    let n = leaves::word_length(degree, leaves, leaf).min(leaves::word_length(
        degree,
        leaves,
        leaf + 1,
    ));
    look_up::lower(words, a, words, b, n)
}

// Rule 11: the words rise, and none begins another.
fn order(degree: Degree, leaves: &[u8], words: &[u8]) -> Result<(), Refusal>
    ensures { result ≡ passed (order_check (of_degree degree leaves.now) words.now) }
{
    let count = leaves::leaf_count(degree, leaves);
    for leaf in 1..count {
        if !precedes(degree, leaves, words, leaf - 1) {
            return Err(Refusal {
                number: 11,
                place: leaf,
            });
        }
    }
    Ok(())
}

// Of the leaves from low up to high, the first whose digit at a place isn't this one.
fn run_end(
    degree: Degree,
    leaves: &[u8],
    words: &[u8],
    place: usize,
    digit: usize,
    low: usize,
    high: usize,
) -> usize
    requires { (place ≤ 8) × (low ≤ high) × (high ≤ leaf_count (of_degree degree leaves.now)) }
    ensures { result ≡ coverage.run_end (code_of (of_degree degree leaves.now) words.now) place digit low high }
{
    for leaf in low..high {
        if usize::from(octets::byte_at(words, leaves::word_start(degree, leaves, leaf) + place))
            != digit
        {
            return leaf;
        }
    }
    high
}

// Rule 12 among the leaves from low up to high, which share their first digits: strings without a leaf are looked for one digit
// deeper at a time, with so many digits left of eight.
fn covered(
    degree: Degree,
    leaves: &[u8],
    words: &[u8],
    inputs: usize,
    left: usize,
    low: usize,
    high: usize,
) -> bool
    requires { (left ≤ 8) × (high ≤ leaf_count (of_degree degree leaves.now)) }
    ensures { result ≡ coverage.covered (code_of (of_degree degree leaves.now) words.now) inputs left (8 - left) low high }
{
    let place = LONGEST - left;
    if high <= low {
        return false;
    }
    if leaves::word_length(degree, leaves, low) <= place {
        return true;
    }
    if left == 0 {
        return false;
    }
    let mut from = low;
    for digit in 0..inputs {
        let end = run_end(degree, leaves, words, place, digit, from, high);
        if !covered(degree, leaves, words, inputs, left - 1, from, end) {
            return false;
        }
        from = end;
    }
    true
}

// Rule 12: every string of eight begins with a leaf.
fn cover(degree: Degree, leaves: &[u8], words: &[u8], inputs: usize) -> Result<(), Refusal>
    ensures { result ≡ passed (cover_check (of_degree degree leaves.now) words.now inputs) }
{
    let high = leaves::leaf_count(degree, leaves);
    if covered(degree, leaves, words, inputs, LONGEST, 0, high) {
        Ok(())
    } else {
        Err(Refusal {
            number: 12,
            place: 0,
        })
    }
}

// Rule 13: leaf 0 has the weight zero.
pub fn zero_weight(degree: Degree, leaves: &[u8]) -> Result<(), Refusal>
    requires { 0 < leaf_count (of_degree degree leaves.now) }
    ensures { result ≡ passed (zero_check (of_degree degree leaves.now)) }
{
    if elements::equal(leaves::weight(degree, leaves, 0), [0, 0, 0, 0]) {
        Ok(())
    } else {
        Err(Refusal {
            number: 13,
            place: 0,
        })
    }
}

// Rules 9 to 13, each by a scan that names the place.
pub fn first_broken(
    degree: Degree,
    leaves: &[u8],
    words: &[u8],
    inputs: usize,
) -> Result<(), Refusal>
    ensures { result ≡ passed (leaf_check (of_degree degree leaves.now) words.now inputs) }
{
    places(degree, leaves, words)?;
    indexes(words, inputs)?;
    order(degree, leaves, words)?;
    cover(degree, leaves, words, inputs)?;
    zero_weight(degree, leaves)
}
