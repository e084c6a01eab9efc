// The lines of a table as the program `show` writes them.
#![tactic(auto)]

ghost use Rattle.std.specs.Prelude.{◌≡◌, ◌+◌, ◌*◌, ◌≤◌, ◌<◌, length};
ghost use Rattle.layout_rules.specs.Section.{of_degree};
ghost use Rattle.ring.specs.Degree.{part_count};
ghost use Rattle.ring.specs.declared.Degree.TheVariants.{Two};
ghost use Rattle.ring.specs.Tests.{Within};
ghost use Rattle.digit_rules.specs.Record.{record_at, element_count};
ghost use Rattle.digit_rules.specs.Digits.{BasePart};
ghost use Rattle.listing_rules.specs.Element.{element_text};
ghost use Rattle.listing_rules.specs.Listing.{ring_line, limited_base, expanding_word, norm_line_of, allowed_word, determinant_line, determinant_of, item_text};
ghost use Rattle.listing_rules.specs.Listing.{columns_for, word_shown, widest};

use ring::Degree;
use text::Text;

// The base section.
const BASE: usize = 0;

// Where the base section starts in a file.
const START: usize = 20;

// The line of ω to the power of the degree, and of the base.
pub fn ring_line(degree: Degree, base: &[u8]) -> Text<80>
    requires { length base.now ≡ 4 * part_count degree }
    ensures { result ≡ ring_line (of_degree degree base.now) }
{
    let mut text: Text<80> = Text::new();
    text.item(b"omega^", layout::part_count(degree));
    text.put(b" = ");
    element_text::put_element(
        &mut text,
        digits::turned(degree, digits::record_at(degree, base, 0)),
    );
    text.put(b", base ");
    element_text::put_element(&mut text, digits::record_at(degree, base, 1));
    text.put(b"\n");
    text
}

// Whether a base section has its length and numbers inside their size limits.
pub fn is_limited(degree: Degree, base: &[u8]) -> bool
    ensures { result ≡ limited_base (of_degree degree base.now) }
{
    base.len() == 4 * layout::part_count(degree)
        && limits::limits_in(degree, base, START, BASE).is_ok()
}

// Whether the base is expanding, and the line's end.
fn expanding_word(expanding: bool) -> &'static [u8]
    ensures { result.now ≡ expanding_word expanding }
{
    if expanding {
        b", expanding\n"
    } else {
        b", not expanding\n"
    }
}

// The line of T and N at degree two.
fn trace_line(base: &[u8]) -> Text<64>
    requires { BasePart (of_degree Two base.now) }
    ensures { result ≡ norm_line_of (of_degree Two base.now) }
{
    let s = layout::signed(base, 0);
    let t = layout::signed(base, 2);
    let u = layout::signed(base, 4);
    let v = layout::signed(base, 6);
    let mut text: Text<64> = Text::new();
    text.put(b"T = ");
    text.signed(base_tests::base_trace(s, u, v) as i32);
    text.put(b", N = ");
    text.signed(base_tests::base_norm(s, t, u, v) as i32);
    text.put(expanding_word(base_tests::is_expanding(s, t, u, v)));
    text
}

// What rule 6 says above degree two, where it refuses, and the line's end.
fn allowed_word(allowed: bool) -> &'static [u8]
    ensures { result.now ≡ allowed_word allowed }
{
    if allowed { b"\n" } else { b", refused by 6\n" }
}

// The line of N above degree two.
fn determinant_line(degree: Degree, base: &[u8]) -> Text<64>
    requires { BasePart (of_degree degree base.now) }
    ensures { result ≡ determinant_line (determinant_of (of_degree degree base.now)) }
{
    let norm = base_tests::determinant(degree, digits::base_of(degree, base));
    let mut text: Text<64> = Text::new();
    text.put(b"N = ");
    element_text::put_element(&mut text, [norm, 0, 0, 0]);
    text.put(allowed_word(1 < magnitude::size(norm)));
    text
}

// The line of the base's numbers.
pub fn norm_line(degree: Degree, base: &[u8]) -> Text<64>
    requires { BasePart (of_degree degree base.now) }
    ensures { result ≡ norm_line_of (of_degree degree base.now) }
{
    match degree {
        Degree::Two => trace_line(base),
        Degree::Three | Degree::Four => determinant_line(degree, base),
    }
}

// A digit of a section of elements, behind a space.
pub fn item(degree: Degree, part: &[u8], k: usize) -> Text<32>
    requires { k < element_count (of_degree degree part.now) }
    ensures { result ≡ item_text (record_at (of_degree degree part.now) k) }
{
    let mut text: Text<32> = Text::new();
    text.put(b" ");
    element_text::put_element(&mut text, digits::record_at(degree, part, k));
    text
}

// The word of a leaf as it is shown: an empty part in the place of one that points outside section 4 or is longer than a word may be.
pub fn word_shown<'a>(degree: Degree, leaves: &[u8], words: &'a [u8], leaf: usize) -> &'a [u8]
    ensures word { result.now ≡ word_shown (of_degree degree leaves.now) words.now leaf }
    ensures within { length result.now ≤ 8 }
{
    let word = leaves::word(degree, leaves, words, leaf);
    if 8 < word.len() { &[] } else { word }
}

// How many columns the words of a table get: as many as the longest that is shown.
pub fn columns(degree: Degree, leaves: &[u8], words: &[u8]) -> usize
    ensures count { result ≡ columns_for (of_degree degree leaves.now) words.now }
    ensures within { result ≤ 8 }
{
    let mut most: usize = 1;
    for leaf in 0..leaves::leaf_count(degree, leaves) {
        most = most.max(word_shown(degree, leaves, words, leaf).len());
    }
    most
}

// The length of an element's text.
fn text_length(x: [i64; 4]) -> usize
    requires { Within 32768 x }
    ensures count { result ≡ length (element_text x) }
    ensures within { result ≤ 31 }
{
    let mut text: Text<32> = Text::new();
    element_text::put_element(&mut text, x);
    text.len()
}

// The longest text among the elements of a section's records, each of which ends its record.
pub fn width(degree: Degree, part: &[u8], section: usize) -> usize
    requires { section < 4 }
    ensures count { result ≡ widest section (of_degree degree part.now) }
    ensures within { result ≤ 31 }
{
    let size = layout::size_of_record(degree, section);
    let skip = size - layout::element_size(degree);
    let mut longest: usize = 0;
    for k in 0..part.len() / size {
        let length = text_length(digits::element(degree, part, k * size + skip));
        longest = longest.max(length);
    }
    longest
}
