// The leaf that gives a place its weight from below: the window of input indexes below the place, and the leaf that begins it, with its
// word's length.
#![tactic(auto)]

ghost use Rattle.std.specs.Prelude.{◌≡◌, true, ◌+◌, ◌<◌, ◌≤◌, max};
ghost use Rattle.layout_rules.specs.Section.{of_degree};
ghost use Rattle.lists.specs.Span.{span};
ghost use Rattle.numeration.specs.Code.{Begins};
ghost use Rattle.numeration.specs.Conversion.{window};
ghost use Rattle.leaf_rules.specs.Leaf.{leaf_count, word_length, code_of};
ghost use Rattle.place_rules.specs.Helpers.{Begun, IsLeaf, Counted};

use look_up::Found;
use ring::Degree;

// The slots that leaves are kept in by the windows they begin, and one more than the first digits of windows.
pub const WINDOWS: usize = 256;

pub const STARTS: usize = 257;

// More than any leaf's number: a slot that holds none. An `Option` would take twice the room, which the header's bound on the stack hasn't.
pub const NO_LEAF: u16 = 65535;

// A leaf, and the reach with its word counted.
#[derive(Clone, Copy)]
pub struct Tried {
    pub leaf: usize,
    pub reach: usize,
}

// Digit k of the window below a place; 0 outside the row.
fn digit_below(row: &[u8], place: usize, k: usize) -> u8
    ensures { result ≡ window row.now place k }
{
    if place <= k {
        return 0;
    }
    octets::byte_at(row, place - k - 1)
}

// The eight input indexes below a place, read downward.
fn window_below(row: &[u8], place: usize) -> [u8; 8]
    ensures { result ≡ span (window row.now place) 0 8 }
{
    [
        digit_below(row, place, 0),
        digit_below(row, place, 1),
        digit_below(row, place, 2),
        digit_below(row, place, 3),
        digit_below(row, place, 4),
        digit_below(row, place, 5),
        digit_below(row, place, 6),
        digit_below(row, place, 7),
    ]
}

// The leaf that begins the window below a place.
pub fn leaf_into(degree: Degree, leaves: &[u8], words: &[u8], row: &[u8], place: usize) -> Found
    requires { Begun (of_degree degree leaves.now) words.now row.now }
    ensures { IsLeaf (of_degree degree leaves.now) words.now row.now place result.leaf result.length }
{
    look_up::look_up(degree, leaves, words, window_below(row, place))
}

// Whether a leaf's word begins the window below a place, of which the first digit is given.
fn begins_below(
    degree: Degree,
    leaves: &[u8],
    words: &[u8],
    row: &[u8],
    place: usize,
    first: u8,
    leaf: usize,
) -> bool
    requires { (leaf < leaf_count (of_degree degree leaves.now)) × (first ≡ window row.now place 0) }
    ensures { result ≡ true → Begins (code_of (of_degree degree leaves.now) words.now) leaf (window row.now place) }
{
    let start = leaves::word_start(degree, leaves, leaf);
    if octets::byte_at(words, start) != first {
        return false;
    }
    for k in 1..leaves::word_length(degree, leaves, leaf) {
        if octets::byte_at(words, start + k) != digit_below(row, place, k) {
            return false;
        }
    }
    true
}

// The leaf that begins the window below a place: the guessed one where it does, whose word is counted in the reach already, else by a search
// of the leaves from one up to another, or of all where that doesn't help.
fn leaf_below(
    degree: Degree,
    leaves: &[u8],
    words: &[u8],
    row: &[u8],
    place: usize,
    first: u8,
    guess: u16,
    low: u16,
    high: u16,
    reach: usize,
) -> Tried
    requires { Begun (of_degree degree leaves.now) words.now row.now × (first ≡ window row.now place 0)
        × (guess < leaf_count (of_degree degree leaves.now) → word_length (of_degree degree leaves.now) guess ≤ reach) }
    ensures leaf { IsLeaf (of_degree degree leaves.now) words.now row.now place result.leaf
        (word_length (of_degree degree leaves.now) result.leaf) }
    ensures reach { result.reach ≡ max reach (word_length (of_degree degree leaves.now) result.leaf) }
{
    let leaf = guess as usize;
    if leaf < leaves::leaf_count(degree, leaves)
        && begins_below(degree, leaves, words, row, place, first, leaf)
    {
        return Tried { leaf, reach };
    }
    let below = look_up::look_up_within(
        degree,
        leaves,
        words,
        window_below(row, place),
        low as usize,
        high as usize,
    );
    Tried {
        leaf: below.leaf,
        reach: reach.max(below.length),
    }
}

// The slot of the window below a place: by its first digit where no word has more, else by the first two.
fn window_slot(row: &[u8], place: usize, first: u8, single: bool) -> usize
    ensures { result < 256 }
{
    let mut slot = first as usize;
    if !single {
        slot += 16 * digit_below(row, place, 1) as usize;
    }
    slot % WINDOWS
}

// The leaf that begins the window below a place. The one that was found last for a window of the same slot is tried before the search,
// which is among the leaves with the window's first digit.
pub fn leaf_tried(
    degree: Degree,
    leaves: &[u8],
    words: &[u8],
    row: &[u8],
    place: usize,
    first: u8,
    single: bool,
    starts: &[u16; STARTS],
    found: &mut [u16; WINDOWS],
    reach: usize,
) -> Tried
    requires window { Begun (of_degree degree leaves.now) words.now row.now × (first ≡ window row.now place 0) }
    requires found { (leaf_count (of_degree degree leaves.now) < 65536) × Counted (of_degree degree leaves.now) found.old reach }
    ensures leaf { IsLeaf (of_degree degree leaves.now) words.now row.now place result.leaf
        (word_length (of_degree degree leaves.now) result.leaf) }
    ensures reach { result.reach ≡ max reach (word_length (of_degree degree leaves.now) result.leaf) }
    ensures found { Counted (of_degree degree leaves.now) found.new result.reach }
{
    let slot = window_slot(row, place, first, single);
    let digit = usize::from(first);
    let below = leaf_below(
        degree,
        leaves,
        words,
        row,
        place,
        first,
        found[slot],
        starts[digit],
        starts[digit + 1],
        reach,
    );
    found[slot] = below.leaf as u16;
    below
}

// For each first digit below a count the leaf that begins a window of it and zeros, which is the first with that digit, and behind them
// the leaf count. The search of a window tries them, so that nothing depends on what they are.
pub fn first_leaves(degree: Degree, leaves: &[u8], words: &[u8], inputs: usize) -> [u16; STARTS] {
    let mut starts = [0u16; STARTS];
    if 255 < inputs {
        return starts;
    }
    for digit in 0..inputs {
        let lowest = look_up::look_up(degree, leaves, words, [digit as u8, 0, 0, 0, 0, 0, 0, 0]);
        starts[digit] = (lowest.leaf % 65536) as u16;
    }
    starts[inputs] = (leaves::leaf_count(degree, leaves) % 65536) as u16;
    starts
}
