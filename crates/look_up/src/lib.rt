// The look-up: the leaf whose word begins a window, and the length of that word.
#![tactic(auto)]

ghost use Rattle.std.specs.Prelude.{◌≡◌, ◌+◌, ◌-◌, ◌<◌, ◌≤◌, true, eqb};
ghost use lib.ListN.{length, get_or};
ghost use Rattle.layout_rules.specs.Section.{of_degree};
ghost use Rattle.lists.specs.Scan.{first_failing};
ghost use Rattle.lists.specs.Found.{below};
ghost use Rattle.numeration.specs.Code.{Begins};
ghost use Rattle.numeration.specs.Prefix as prefixes;
ghost use Rattle.leaf_rules.specs.Leaf.{leaf_count, code_of};
ghost use Rattle.leaf_rules.specs.Given.{length_given};
ghost use Rattle.leaf_rules.specs.Window as windows;
ghost use Rattle.look_up.specs.Search as searches;

use ring::Degree;

// The most digits of a word, and the digits of a window.
const LONGEST: usize = 8;

// What the look-up answers: the leaf's number, and its word's length.
#[derive(Clone, Copy)]
pub struct Found {
    pub leaf: usize,
    pub length: usize,
}

// The first of n places at which the bytes from a on differ from the other bytes from b on.
fn first_difference(bytes: &[u8], a: usize, other: &[u8], b: usize, n: usize) -> Option<usize>
    requires { (a < 65536) × (b < 65536) × (n < 65536) }
    ensures { result ≡ below n (first_failing (λ i. eqb (get_or bytes.now (a + i) 0) (get_or other.now (b + i) 0)) 0 n) }
{
    for i in 0..n {
        if octets::byte_at(bytes, a + i) != octets::byte_at(other, b + i) {
            return Some(i);
        }
    }
    None
}

// Of n places, at the first where the bytes from a on differ from the other bytes from b on, the other byte is the higher.
pub fn lower(bytes: &[u8], a: usize, other: &[u8], b: usize, n: usize) -> bool
    requires { (a < 65536) × (b < 65536) × (n < 65536) }
    ensures { result ≡ prefixes.lower (λ i. get_or bytes.now (a + i) 0) (λ i. get_or other.now (b + i) 0) n }
{
    match first_difference(bytes, a, other, b, n) {
        Some(i) => octets::byte_at(bytes, a + i) < octets::byte_at(other, b + i),
        None => false,
    }
}

// Whether a word of one to eight digits lies inside section 4, so that it can be read as a number.
fn is_inside(words: &[u8], start: usize, length: usize) -> bool
    requires { (start < 65536) × (length < 65536) }
    ensures { result ≡ true → (1 ≤ length) × (length ≤ 8) × (start + length ≤ lib.ListN.length words.now) }
{
    1 <= length && length <= LONGEST && start + length <= words.len()
}

// Whether a leaf's word is above the window at the first place where they differ.
fn above(degree: Degree, leaves: &[u8], words: &[u8], window: &[u8; 8], leaf: usize) -> bool
    requires { leaf < leaf_count (of_degree degree leaves.now) }
    ensures { result ≡ searches.above (code_of (of_degree degree leaves.now) words.now) window.now leaf }
{
    let start = leaves::word_start(degree, leaves, leaf);
    let length = leaves::word_length(degree, leaves, leaf);
    if is_inside(words, start, length) {
        word_numbers::eight(window, 0) < word_numbers::word_number(words, start, length)
    } else {
        lower(window, 0, words, start, length.min(LONGEST))
    }
}

// Where the search goes on: in the lower half, or in the upper one. One number is chosen, without a jump that could be guessed wrong.
fn next_low(
    degree: Degree,
    leaves: &[u8],
    words: &[u8],
    window: &[u8; 8],
    low: usize,
    half: usize,
) -> usize
    requires { low + half < leaf_count (of_degree degree leaves.now) }
    ensures { result ≡ searches.next_low (code_of (of_degree degree leaves.now) words.now) window.now low half }
{
    if above(degree, leaves, words, window, low + half) {
        low
    } else {
        low + half
    }
}

// The number of the leaf whose word begins the window, by binary search of the ordered words, in a part that has it.
fn search_part(
    degree: Degree,
    leaves: &[u8],
    words: &[u8],
    window: &[u8; 8],
    from: usize,
    count: usize,
) -> usize
    requires { searches.Between (code_of (of_degree degree leaves.now) words.now) window.now from (from + count) }
    ensures { windows.LookedUp (code_of (of_degree degree leaves.now) words.now) window.now result }
{
    let mut low = from;
    let mut size = count;
    // a `while`: the part is halved without a branch, and no index counts up
    while 1 < size {
        let half = size / 2;
        low = next_low(degree, leaves, words, window, low, half);
        size -= half;
    }
    low
}

// A leaf with the length that its record gives its word.
fn with_length(degree: Degree, leaves: &[u8], leaf: usize) -> Found
    ensures leaf { result.leaf ≡ leaf }
    ensures length { result.length ≡ length_given (of_degree degree leaves.now) leaf }
{
    Found {
        leaf,
        length: leaves::length(degree, leaves, leaf),
    }
}

// The leaf whose word begins the window.
pub fn look_up(degree: Degree, leaves: &[u8], words: &[u8], window: [u8; 8]) -> Found
    ensures leaf { windows.LookedUp (code_of (of_degree degree leaves.now) words.now) window result.leaf }
    ensures length { result.length ≡ length_given (of_degree degree leaves.now) result.leaf }
{
    let count = leaves::leaf_count(degree, leaves);
    let leaf = search_part(degree, leaves, words, &window, 0, count);
    with_length(degree, leaves, leaf)
}

// Whether the leaf that begins the window must be among those from low up to high.
fn is_between(
    degree: Degree,
    leaves: &[u8],
    words: &[u8],
    window: &[u8; 8],
    low: usize,
    high: usize,
) -> bool
    ensures { result ≡ true → searches.Between (code_of (of_degree degree leaves.now) words.now) window.now low high }
{
    let count = leaves::leaf_count(degree, leaves);
    if high <= low || count < high || above(degree, leaves, words, window, low) {
        return false;
    }
    count <= high || above(degree, leaves, words, window, high)
}

// The look-up with a part of the leaves that may have the one: all are searched where it can't be told.
pub fn look_up_within(
    degree: Degree,
    leaves: &[u8],
    words: &[u8],
    window: [u8; 8],
    low: usize,
    high: usize,
) -> Found
    ensures leaf { windows.LookedUp (code_of (of_degree degree leaves.now) words.now) window result.leaf }
    ensures length { result.length ≡ length_given (of_degree degree leaves.now) result.leaf }
{
    if is_between(degree, leaves, words, &window, low, high) {
        let leaf = search_part(degree, leaves, words, &window, low, high - low);
        with_length(degree, leaves, leaf)
    } else {
        look_up(degree, leaves, words, window)
    }
}

// Whether a leaf's word begins the window.
fn begins(degree: Degree, leaves: &[u8], words: &[u8], window: &[u8; 8], leaf: usize) -> bool
    requires { leaf < leaf_count (of_degree degree leaves.now) }
    ensures { result ≡ true → Begins (code_of (of_degree degree leaves.now) words.now) leaf (windows.digits window.now) }
{
    let start = leaves::word_start(degree, leaves, leaf);
    let n = leaves::word_length(degree, leaves, leaf);
    first_difference(words, start, window, 0, n).is_none()
}

// The look-up with a guess: the search is only made where the guessed leaf doesn't begin the window.
pub fn look_up_from(
    degree: Degree,
    leaves: &[u8],
    words: &[u8],
    window: [u8; 8],
    guess: usize,
) -> Found
    ensures leaf { windows.LookedUp (code_of (of_degree degree leaves.now) words.now) window result.leaf }
    ensures length { result.length ≡ length_given (of_degree degree leaves.now) result.leaf }
{
    if guess < leaves::leaf_count(degree, leaves) && begins(degree, leaves, words, &window, guess) {
        with_length(degree, leaves, guess)
    } else {
        look_up(degree, leaves, words, window)
    }
}
