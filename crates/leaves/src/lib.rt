// The leaves of a table: their words and weights, and the depth. Sections 3 and 4 come as two parts, of a file or not.
#![tactic(auto)]

ghost use Rattle.std.specs.Prelude.{◌≡◌, List, ℕ, ◌+◌, ◌*◌, ◌≤◌, ◌<◌, length};
ghost use Rattle.layout_rules.specs.Section.{leaf_size, of_degree};
ghost use Rattle.ring.specs.Tests.{Within};
ghost use Rattle.numeration.specs.LeafOf as depths;
ghost use Rattle.leaf_rules.specs.Leaf.{leaf_count, word_start, word_length, code_of};
ghost use Rattle.leaf_rules.specs.Given.{word_given, length_given, weight_given};

use ring::Degree;

// The section of leaves.
const LEAVES: usize = 3;

pub fn leaf_count(degree: Degree, leaves: &[u8]) -> usize
    ensures { result ≡ leaf_count (of_degree degree leaves.now) }
{
    layout::record_count(degree, leaves, LEAVES)
}

// Where a leaf's record starts: offset and length of its word, then its weight.
fn record_start(degree: Degree, leaves: &[u8], leaf: usize) -> usize
    requires { leaf < leaf_count (of_degree degree leaves.now) }
    ensures start { result ≡ leaf * leaf_size degree }
    ensures inside { result + leaf_size degree ≤ length leaves.now }
{
    leaf * (4 + layout::element_size(degree))
}

// Where a leaf's word starts in section 4, and its length.
pub fn word_start(degree: Degree, leaves: &[u8], leaf: usize) -> usize
    requires { leaf < leaf_count (of_degree degree leaves.now) }
    ensures start { result ≡ word_start (of_degree degree leaves.now) leaf }
    ensures within { result < 65536 }
{
    layout::unsigned(leaves, record_start(degree, leaves, leaf))
}

pub fn word_length(degree: Degree, leaves: &[u8], leaf: usize) -> usize
    requires { leaf < leaf_count (of_degree degree leaves.now) }
    ensures size { result ≡ word_length (of_degree degree leaves.now) leaf }
    ensures within { result < 65536 }
{
    layout::unsigned(leaves, record_start(degree, leaves, leaf) + 2)
}

// A leaf's word as that part of section 4: an empty one where there is no such leaf or its record points outside.
pub fn word<'a>(degree: Degree, leaves: &[u8], words: &'a [u8], leaf: usize) -> &'a [u8]
    ensures { result.now ≡ word_given (of_degree degree leaves.now) words.now leaf }
{
    if leaf_count(degree, leaves) <= leaf {
        return &[];
    }
    let start = word_start(degree, leaves, leaf);
    let end = start + word_length(degree, leaves, leaf);
    if words.len() < end {
        return &[];
    }
    &words[start..end]
}

// The length of a leaf's word: 0 where there is no such leaf.
pub fn length(degree: Degree, leaves: &[u8], leaf: usize) -> usize
    ensures { result ≡ length_given (of_degree degree leaves.now) leaf }
{
    if leaf < leaf_count(degree, leaves) {
        word_length(degree, leaves, leaf)
    } else {
        0
    }
}

// The weight of a leaf that there is.
pub fn weight_at(degree: Degree, leaves: &[u8], leaf: usize) -> [i64; 4]
    requires { leaf < leaf_count (of_degree degree leaves.now) }
    ensures weight { result ≡ weight_given (of_degree degree leaves.now) leaf }
    ensures within { Within 32768 result }
{
    digits::element(degree, leaves, record_start(degree, leaves, leaf) + 4)
}

// A leaf's weight: zero where there is no such leaf.
pub fn weight(degree: Degree, leaves: &[u8], leaf: usize) -> [i64; 4]
    ensures weight { result ≡ weight_given (of_degree degree leaves.now) leaf }
    ensures within { Within 32768 result }
{
    if leaf < leaf_count(degree, leaves) {
        weight_at(degree, leaves, leaf)
    } else {
        [0; 4]
    }
}

// The depth: the longest word length.
pub fn depth(degree: Degree, leaves: &[u8]) -> usize
    ensures { (words : List ℕ) → result ≡ depths.depth (code_of (of_degree degree leaves.now) words) }
{
    let mut longest: usize = 0;
    for leaf in 0..leaf_count(degree, leaves) {
        longest = longest.max(word_length(degree, leaves, leaf));
    }
    longest
}
