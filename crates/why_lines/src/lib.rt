// The lines of the program `why`: the rule that a table breaks, and what stands at its place; of rule 14 the two leaves and their digit.
#![tactic(auto)]

ghost use Rattle.std.specs.Prelude.{◌≡◌, ◌++◌, ◌+◌, ◌≤◌, ◌^◌, length};
ghost use Rattle.layout_rules.specs.Section.{of_degree};
ghost use Rattle.ring.specs.Tests.{Within};
ghost use Rattle.why_rules.specs.Rule.{file_rule, digit_rule, leaf_rule, rule_line};
ghost use Rattle.why_rules.specs.Why.{numbered, file_line, extent_line, due_line, byte_line, element_line};
ghost use Rattle.why_rules.specs.Why.{weight_text, why_leaf, row_line, bracketed, sum_line, product_line, digit_lines};

use ring::Degree;
use text::Text;

// A rule of the file, or that none is broken.
fn file_rule(number: usize) -> &'static [u8]
    ensures text { result.now ≡ file_rule number }
    ensures within { length result.now ≤ 240 }
{
    match number {
        0 => b"nothing to show: every row of input digits is converted into alphabet digits\n",
        1 => b"rule 1: a table file has 20 to 65535 bytes\n",
        2 =>
            b"rule 2: section 0 starts at byte 20, each other where the one before it ends, and section 4 ends the file\n",
        3 =>
            b"rule 3: the lengths of sections 0 to 4 are 4d, 2 to 16 times 2d, 1 to 136 times 2d, 1 to 4000 times 4 + 2d, 1 to 32000; d is 2, 3 or 4\n",
        4 =>
            b"rule 4: numbers are -64 to 64, those of a base of degree four -32 to 32, of input digits -128 to 128, of weights -1024 to 1024\n",
        _ => b"",
    }
}

// The same of base and digits.
fn digit_rule(number: usize) -> &'static [u8]
    ensures text { result.now ≡ digit_rule number }
    ensures within { length result.now ≤ 240 }
{
    match number {
        5 => b"rule 5: omega^2 = t + sw, and s^2 + 4t isn't the square of a whole number\n",
        6 =>
            b"rule 6: at degree two |N| is 2 or more and |T| less than |N + 1|; at degree three and four N isn't -1, 0 or 1\n",
        7 =>
            b"rule 7: record 0 of the alphabet is 0, and no record is the same as an earlier one\n",
        8 =>
            b"rule 8: record 0 of the input digits is 0, none is the same as an earlier one, and all sums of two alphabet digits are there\n",
        _ => b"",
    }
}

// The same of leaves.
fn leaf_rule(number: usize) -> &'static [u8]
    ensures text { result.now ≡ leaf_rule number }
    ensures within { length result.now ≤ 240 }
{
    match number {
        9 =>
            b"rule 9: a word has 1 to 8 bytes; the first starts at 0 in section 4, each other where one ends, and the last ends the section\n",
        10 => b"rule 10: each byte of a word is the number of an input digit, counted from 0\n",
        11 =>
            b"rule 11: each word comes after the one before it, by number where they first differ, and neither begins the other\n",
        12 =>
            b"rule 12: every string of eight input digits begins with the word of a leaf; here some string doesn't\n",
        13 => b"rule 13: leaf 0 has the weight 0, so that zeros stay zeros\n",
        14 =>
            b"rule 14: where leaf U is used at a place and leaf L at the place below it, the digit that comes out is in the alphabet\n",
        _ => b"",
    }
}

// A rule by its number, 0 for a table that breaks none.
pub fn rule_line(number: usize) -> &'static [u8]
    ensures text { result.now ≡ rule_line number }
    ensures within { length result.now ≤ 240 }
{
    if number < 5 {
        file_rule(number)
    } else if number < 9 {
        digit_rule(number)
    } else {
        leaf_rule(number)
    }
}

// Writes two numbers, each behind a word.
fn put_numbers<const N: usize>(text: &mut Text<N>, first: &[u8], a: usize, second: &[u8], b: usize)
    requires { length text.old + length first.now + length second.now + 40 ≤ N }
    ensures text { text.new ≡ text.old ++ numbered first.now a second.now b }
    ensures within { length text.new ≤ length text.old + length first.now + length second.now + 40 }
{
    text.item(first, a);
    text.item(second, b);
}

// The size of a file.
pub fn file_line(n: usize) -> Text<240>
    ensures { result ≡ file_line n }
{
    let mut text: Text<240> = Text::new();
    if 65535 < n {
        text.put(b"  the file has more than 65535 bytes\n");
        return text;
    }
    text.item(b"  the file has ", n);
    text.put(b" bytes\n");
    text
}

// Where something starts and how long it is.
pub fn extent_line(name: &[u8], k: usize, start: usize, size: usize) -> Text<240>
    requires { length name.now ≤ 40 }
    ensures { result ≡ extent_line name.now k start size }
{
    let mut text: Text<240> = Text::new();
    put_numbers(&mut text, name, k, b": offset ", start);
    text.item(b", length ", size);
    text.put(b"\n");
    text
}

// Where it has to start, and the length of what it stands in.
pub fn due_line(start: usize, name: &[u8], size: usize) -> Text<240>
    requires { length name.now ≤ 40 }
    ensures { result ≡ due_line start name.now size }
{
    let mut text: Text<240> = Text::new();
    put_numbers(&mut text, b"  the offset has to be ", start, name, size);
    text.put(b" bytes\n");
    text
}

// A byte of the words.
pub fn byte_line(k: usize, byte: usize) -> Text<240>
    ensures { result ≡ byte_line k byte }
{
    let mut text: Text<240> = Text::new();
    put_numbers(&mut text, b"  byte ", k, b" of section 4 is ", byte);
    text.put(b"\n");
    text
}

// The element of a place.
pub fn element_line(name: &[u8], k: usize, x: [i64; 4]) -> Text<240>
    requires short { length name.now ≤ 40 }
    requires parts { Within 32768 x }
    ensures { result ≡ element_line name.now k x }
{
    let mut text: Text<240> = Text::new();
    text.item(name, k);
    text.put(b" is ");
    element_text::put_element(&mut text, x);
    text.put(b"\n");
    text
}

// Writes a weight and the line's end.
fn put_weight<const N: usize>(text: &mut Text<N>, weight: [i64; 4])
    requires room { length text.old + 41 ≤ N }
    requires parts { Within 32768 weight }
    ensures { text.new ≡ text.old ++ weight_text weight }
{
    text.put(b", weight ");
    element_text::put_element(text, weight);
    text.put(b"\n");
}

// A leaf with its word and its weight.
pub fn leaf_line(
    degree: Degree,
    inputs: &[u8],
    name: &[u8],
    leaf: usize,
    word: &[u8],
    weight: [i64; 4],
) -> Text<480>
    requires short { (length name.now ≤ 40) × (length word.now ≤ 8) }
    requires parts { Within 32768 weight }
    ensures { result ≡ why_leaf name.now leaf (of_degree degree inputs.now) word.now weight }
{
    let mut text: Text<480> = Text::new();
    text.item(name, leaf);
    text.put(b": word");
    leaf_lines::put_word(&mut text, degree, inputs, word, word.len(), 0);
    put_weight(&mut text, weight);
    text
}

// The string of input digits that shows two leaves.
pub fn row_line(degree: Degree, inputs: &[u8], string: &[u8]) -> Text<480>
    requires { length string.now ≤ 9 }
    ensures { result ≡ row_line (of_degree degree inputs.now) string.now }
{
    let mut text: Text<480> = Text::new();
    text.put(b"  row, from the top:");
    leaf_lines::put_word(&mut text, degree, inputs, string, string.len(), 0);
    text.put(b"\n  U's word starts at its top place, L's word one place below\n");
    text
}

// Writes an element in brackets behind a word.
fn put_bracketed<const N: usize>(text: &mut Text<N>, before: &[u8], x: [i64; 4])
    requires room { length text.old + length (bracketed before.now x) ≤ N }
    requires parts { Within (2 ^ 62) x }
    ensures { text.new ≡ text.old ++ bracketed before.now x }
{
    text.put(before);
    element_text::put_element(text, x);
    text.put(b")");
}

// The digit of two leaves as rule 14 has it: from the first digit, the lower leaf's weight, the base and the upper leaf's weight.
pub fn sum_line(first: [i64; 4], lower: [i64; 4], base: [i64; 4], upper: [i64; 4]) -> Text<480>
    requires { Within 32768 first × Within 32768 lower × Within 32768 base × Within 32768 upper }
    ensures { result ≡ sum_line first lower base upper }
{
    let mut text: Text<480> = Text::new();
    put_bracketed(
        &mut text,
        b"  digit at the top place = U's first digit + L's weight - base * U's weight\n    = (",
        first,
    );
    put_bracketed(&mut text, b" + (", lower);
    put_bracketed(&mut text, b" - (", base);
    put_bracketed(&mut text, b"*(", upper);
    text.put(b"\n");
    text
}

// The same with the product worked out.
pub fn product_line(first: [i64; 4], lower: [i64; 4], product: [i64; 4]) -> Text<480>
    requires { Within 32768 first × Within 32768 lower × Within (2 ^ 55) product }
    ensures { result ≡ product_line first lower product }
{
    let mut text: Text<480> = Text::new();
    put_bracketed(&mut text, b"    = (", first);
    put_bracketed(&mut text, b" + (", lower);
    put_bracketed(&mut text, b" - (", product);
    text.put(b"\n");
    text
}

// The digit that comes out, and that the alphabet lacks it, whose digits are to follow.
pub fn digit_lines(digit: [i64; 4]) -> Text<480>
    requires { Within (2 ^ 32) digit }
    ensures { result ≡ digit_lines digit }
{
    let mut text: Text<480> = Text::new();
    text.put(b"    = ");
    element_text::put_element(&mut text, digit);
    text.put(b"\n  ");
    element_text::put_element(&mut text, digit);
    text.put(b" isn't in the alphabet:");
    text
}
