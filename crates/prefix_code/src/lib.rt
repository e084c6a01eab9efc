// The leaves of a table as a complete prefix code: rules 9 to 13 of document 01 by a quick look that says yes or nothing, in front of the
// scans. Sections 3 and 4 come as two parts, of a file or not.
#![tactic(auto)]

ghost use Rattle.std.specs.Prelude.{◌≡◌, ℕ, ◌+◌, ◌≤◌, ◌<◌, true, length, get_or};
ghost use Rattle.layout_rules.specs.Section.{of_degree};
ghost use Rattle.faults.specs.Passed.{passed};
ghost use Rattle.leaf_rules.specs.Leaf.{leaf_count, code_of};
ghost use Rattle.prefix_rules.specs.Check.{leaf_allowed, leaf_check};
ghost use Rattle.prefix_code.specs.Numbers.{Numbered};
ghost use Rattle.prefix_code.specs.Kept.{CodeKept};

use faults::Refusal;
use ring::Degree;

// The most digits of a word.
const LONGEST: usize = 8;

// Whether a word that is to start at a place starts there, has 1 to 8 digits and ends within section 4 of so many bytes.
fn lies(start: usize, length: usize, place: usize, all: usize) -> bool
    requires { (start < 65536) × (length < 65536) }
    ensures { result ≡ true → (start ≡ place) × (1 ≤ length) × (length ≤ 8) × (start + length ≤ all) }
{
    start == place && 1 <= length && length <= LONGEST && start + length <= all
}

// Whether the words lie one after the other, each above the one before, and begin as many strings of eight as there are, so that rules
// 9, 11 and 12 hold. Where words are in order no string begins with two of them, so their strings are counted by a sum.
fn numbered(degree: Degree, leaves: &[u8], words: &[u8], inputs: u64) -> bool
    requires sizes { (1 ≤ inputs) × (inputs ≤ 136) × (leaf_count (of_degree degree leaves.now) ≤ 8191) }
    requires indexes { (k : ℕ) → k < length words.now → get_or words.now k 0 < inputs }
    ensures { result ≡ true → ((k : ℕ) → k < leaf_count (of_degree degree leaves.now)
        → leaf_allowed (of_degree degree leaves.now) (length words.now) k ≡ true)
        × Numbered (code_of (of_degree degree leaves.now) words.now) inputs }
{
    let units = word_numbers::powers(256);
    let shares = word_numbers::powers(inputs);
    let count = leaves::leaf_count(degree, leaves);
    let mut end = 0;
    let mut floor = 0;
    let mut strings = 0;
    for leaf in 0..count {
        let start = leaves::word_start(degree, leaves, leaf);
        let length = leaves::word_length(degree, leaves, leaf);
        if !lies(start, length, end, words.len()) {
            return false;
        }
        let number = word_numbers::word_number_by(words, start, length, units[length]);
        if number < floor {
            return false;
        }
        end = start + length;
        floor = number + units[length];
        strings += shares[length];
    }
    end == words.len() && strings == shares[1] * inputs
}

// Whether rules 9 to 12 hold, by a quick look that says yes or nothing.
fn well_coded(degree: Degree, leaves: &[u8], words: &[u8], inputs: usize) -> bool
    ensures { result ≡ true → CodeKept (of_degree degree leaves.now) words.now inputs }
{
    let count = leaves::leaf_count(degree, leaves);
    let top = usize::from(octets::highest(words));
    1 <= inputs
        && inputs <= 136
        && count <= 8191
        && top < inputs
        && numbered(degree, leaves, words, inputs as u64)
}

// Rules 9 to 13, of sections 3 and 4 and the count of input digits. The scans run only where the quick look doesn't say yes.
pub fn prefix_code(
    degree: Degree,
    leaves: &[u8],
    words: &[u8],
    inputs: usize,
) -> Result<(), Refusal>
    ensures { result ≡ passed (leaf_check (of_degree degree leaves.now) words.now inputs) }
{
    if well_coded(degree, leaves, words, inputs) {
        return prefix_scan::zero_weight(degree, leaves);
    }
    prefix_scan::first_broken(degree, leaves, words, inputs)
}
