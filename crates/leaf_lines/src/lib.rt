// The line of a leaf as the program `show` writes it: its number, its word in columns, its weight.
#![tactic(auto)]

ghost use Rattle.std.specs.Prelude.{◌≡◌, ◌++◌, ◌+◌, ◌≤◌, ◌<◌, length};
ghost use Rattle.layout_rules.specs.Section.{of_degree};
ghost use Rattle.ring.specs.Tests.{Within};
ghost use Rattle.listing_rules.specs.Element.{element_text, right};
ghost use Rattle.listing_rules.specs.Listing.{input_text, digit_text, column_text, word_text, leaf_line};

use ring::Degree;
use text::Text;

// The section of input digits.
const INPUTS: usize = 2;

// The columns of a listing: how many a word has, how wide each is, and how wide that of the weights.
#[derive(Clone, Copy)]
pub struct Columns {
    pub count: usize,
    pub digits: usize,
    pub weights: usize,
}

// An input digit by its index.
fn input_text(degree: Degree, inputs: &[u8], k: usize) -> Text<32>
    ensures { result ≡ input_text (of_degree degree inputs.now) k }
{
    let mut text: Text<32> = Text::new();
    if k < layout::record_count(degree, inputs, INPUTS) {
        element_text::put_element(&mut text, digits::record_at(degree, inputs, k));
    } else {
        text.put(b"?");
    }
    text
}

// The digit of a word in a column.
fn digit_text(degree: Degree, inputs: &[u8], word: &[u8], i: usize) -> Text<32>
    ensures { result ≡ digit_text (of_degree degree inputs.now) word.now i }
{
    if i < word.len() {
        return input_text(degree, inputs, usize::from(word[i]));
    }
    let mut text: Text<32> = Text::new();
    if i == 0 {
        text.put(b"?");
    }
    text
}

// Writes a column.
fn put_column<const N: usize>(
    text: &mut Text<N>,
    degree: Degree,
    inputs: &[u8],
    word: &[u8],
    i: usize,
    width: usize,
)
    requires { length text.old + length (column_text width (of_degree degree inputs.now) word.now i) ≤ N }
    ensures { text.new ≡ text.old ++ column_text width (of_degree degree inputs.now) word.now i }
{
    text.put(b" ");
    element_text::put_right(text, width, digit_text(degree, inputs, word, i).as_bytes());
}

// Writes the columns of a word.
pub fn put_word<const N: usize>(
    text: &mut Text<N>,
    degree: Degree,
    inputs: &[u8],
    word: &[u8],
    columns: usize,
    width: usize,
)
    requires { length text.old + length (word_text width (of_degree degree inputs.now) word.now columns) ≤ N }
    ensures { text.new ≡ text.old ++ word_text width (of_degree degree inputs.now) word.now columns }
{
    for i in 0..columns {
        put_column(text, degree, inputs, word, i, width);
    }
}

// Writes an element at the right of a column.
fn put_aligned<const N: usize>(text: &mut Text<N>, width: usize, x: [i64; 4])
    requires room { length text.old + length (right width (element_text x)) ≤ N }
    requires parts { Within 32768 x }
    ensures { text.new ≡ text.old ++ right width (element_text x) }
{
    let mut element: Text<32> = Text::new();
    element_text::put_element(&mut element, x);
    element_text::put_right(text, width, element.as_bytes());
}

// The line of a leaf.
pub fn leaf_line(
    degree: Degree,
    inputs: &[u8],
    word: &[u8],
    leaf: usize,
    weight: [i64; 4],
    columns: Columns,
) -> Text<320>
    requires parts { Within 32768 weight }
    requires few { (columns.count ≤ 8) × (columns.digits ≤ 31) × (columns.weights ≤ 31) }
    ensures { result ≡ leaf_line columns.count columns.digits columns.weights (of_degree degree inputs.now) word.now leaf weight }
{
    let mut text: Text<320> = Text::new();
    element_text::put_right(&mut text, 4, text::decimal(leaf).as_bytes());
    text.put(b":");
    put_word(
        &mut text,
        degree,
        inputs,
        word,
        columns.count,
        columns.digits,
    );
    text.put(b" | ");
    put_aligned(&mut text, columns.weights, weight);
    text.put(b"\n");
    text
}
