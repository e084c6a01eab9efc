// Conversion place by place: the alphabet indexes of the digits that come out of a row of input indexes.
#![tactic(auto)]

ghost use Rattle.std.specs.Prelude.{◌≡◌, ◌+◌, ◌≤◌, ◌<◌, ◌^◌, length};
ghost use Rattle.ring.specs.Degree.{part_count};
ghost use Rattle.lists.specs.Found.{below};
ghost use Rattle.lists.specs.Span.{span};
ghost use Rattle.lists.specs.Scan.{first_failing};
ghost use Rattle.lists.specs.Overwrite.{overwrite};
ghost use Rattle.ring.specs.Tests.{Within, RowsWithin};
ghost use Rattle.ring.specs.declared.Degree.TheVariants.{Two};
ghost use Rattle.layout_rules.specs.Section.{of_degree};
ghost use Rattle.digit_rules.specs.Record.{record_at, element_count};
ghost use Rattle.numeration.specs.Code.{Inputs};
ghost use Rattle.numeration.specs.Conversion.{out_digit};
ghost use Rattle.numeration.specs.Elements.{elements};
ghost use Rattle.numeration.specs.ReachOf.{reach_of};
ghost use Rattle.leaf_rules.specs.Leaf.{leaf_count, code_of};
ghost use Rattle.place_rules.specs.Place.{alphabet_index, index_at, digit_allowed};
ghost use Rattle.place_rules.specs.Helpers.{Begun};
ghost use Rattle.places.specs.Helpers.{Firsts, OutIndex};

use ring::Degree;

// Fewer places than this are an edit's.
const FEW: usize = 16;

// The slots that alphabet digits are kept in by their elements.
const DIGITS: usize = 256;

// The alphabet index of an element. The digit in the element's slot is tried before the search, and a digit that was found is put there.
fn index_of(degree: Degree, alphabet: &[u8], x: [i64; 4], slots: &mut [u8; DIGITS]) -> Option<usize>
    requires { Within (2 ^ 42) x × (element_count (of_degree degree alphabet.now) ≤ 256) × Firsts (of_degree degree alphabet.now) slots.old }
    ensures index { let alphabet = of_degree degree alphabet.now in result ≡ below (element_count alphabet) (alphabet_index alphabet x) }
    ensures slots { Firsts (of_degree degree alphabet.now) slots.new }
{
    let size = layout::record_count(degree, alphabet, 1);
    let slot = slots::slot_of(x);
    let last = usize::from(slots[slot]);
    if last < size && elements::equal(digits::record_at(degree, alphabet, last), x) {
        return Some(last);
    }
    let index = digits::find(degree, alphabet, size, x)?;
    slots[slot] = index as u8;
    Some(index)
}

// The alphabet index of the digit that comes out, by the leaves that the weights are read from.
fn out_index(
    degree: Degree,
    base: [[i64; 4]; 4],
    alphabet: &[u8],
    inputs: &[u8],
    leaves: &[u8],
    input: usize,
    below: usize,
    own: usize,
    slots: &mut [u8; DIGITS],
) -> Option<usize>
    requires sizes { RowsWithin (2 ^ 21) base × (input < element_count (of_degree degree inputs.now))
        × (below < leaf_count (of_degree degree leaves.now)) × (own < leaf_count (of_degree degree leaves.now)) }
    requires alphabet { (element_count (of_degree degree alphabet.now) ≤ 256) × Firsts (of_degree degree alphabet.now) slots.old }
    ensures index { OutIndex degree base (of_degree degree alphabet.now) (of_degree degree inputs.now) (of_degree degree leaves.now) input below own result }
    ensures slots { Firsts (of_degree degree alphabet.now) slots.new }
{
    let digit = converted_digit::out_digit(
        degree,
        base,
        digits::record_at(degree, inputs, input),
        leaves::weight_at(degree, leaves, below),
        leaves::weight_at(degree, leaves, own),
    );
    index_of(degree, alphabet, digit, slots)
}

// The same with the degree as a constant where it is two, so that sizes and parts are chosen once and not for each element.
fn out_index_at_two(
    base: [[i64; 4]; 4],
    alphabet: &[u8],
    inputs: &[u8],
    leaves: &[u8],
    input: usize,
    below: usize,
    own: usize,
    slots: &mut [u8; DIGITS],
) -> Option<usize>
    requires sizes { RowsWithin (2 ^ 21) base × (input < element_count (of_degree Two inputs.now))
        × (below < leaf_count (of_degree Two leaves.now)) × (own < leaf_count (of_degree Two leaves.now)) }
    requires alphabet { (element_count (of_degree Two alphabet.now) ≤ 256) × Firsts (of_degree Two alphabet.now) slots.old }
    ensures index { OutIndex Two base (of_degree Two alphabet.now) (of_degree Two inputs.now) (of_degree Two leaves.now) input below own result }
    ensures slots { Firsts (of_degree Two alphabet.now) slots.new }
{
    out_index(
        Degree::Two,
        base,
        alphabet,
        inputs,
        leaves,
        input,
        below,
        own,
        slots,
    )
}

// Above two the degree is no constant. What is made ready for this call isn't at degree two, as it would be in the function below.
fn out_index_above_two(
    degree: Degree,
    base: [[i64; 4]; 4],
    alphabet: &[u8],
    inputs: &[u8],
    leaves: &[u8],
    input: usize,
    below: usize,
    own: usize,
    slots: &mut [u8; DIGITS],
) -> Option<usize>
    requires sizes { RowsWithin (2 ^ 21) base × (input < element_count (of_degree degree inputs.now))
        × (below < leaf_count (of_degree degree leaves.now)) × (own < leaf_count (of_degree degree leaves.now)) }
    requires alphabet { (element_count (of_degree degree alphabet.now) ≤ 256) × Firsts (of_degree degree alphabet.now) slots.old }
    ensures index { OutIndex degree base (of_degree degree alphabet.now) (of_degree degree inputs.now) (of_degree degree leaves.now) input below own result }
    ensures slots { Firsts (of_degree degree alphabet.now) slots.new }
{
    out_index(
        degree, base, alphabet, inputs, leaves, input, below, own, slots,
    )
}

fn out_index_by(
    degree: Degree,
    base: [[i64; 4]; 4],
    alphabet: &[u8],
    inputs: &[u8],
    leaves: &[u8],
    input: usize,
    below: usize,
    own: usize,
    slots: &mut [u8; DIGITS],
) -> Option<usize>
    requires sizes { RowsWithin (2 ^ 21) base × (input < element_count (of_degree degree inputs.now))
        × (below < leaf_count (of_degree degree leaves.now)) × (own < leaf_count (of_degree degree leaves.now)) }
    requires alphabet { (element_count (of_degree degree alphabet.now) ≤ 256) × Firsts (of_degree degree alphabet.now) slots.old }
    ensures index { OutIndex degree base (of_degree degree alphabet.now) (of_degree degree inputs.now) (of_degree degree leaves.now) input below own result }
    ensures slots { Firsts (of_degree degree alphabet.now) slots.new }
{
    match degree {
        Degree::Two => out_index_at_two(base, alphabet, inputs, leaves, input, below, own, slots),
        Degree::Three | Degree::Four => out_index_above_two(
            degree, base, alphabet, inputs, leaves, input, below, own, slots,
        ),
    }
}

// How many first digits are looked up beforehand: none for the few places of an edit, or where a first digit alone tells the leaf, since
// that would cost more than it saves.
fn digits_ahead(count: usize, single: bool, inputs: usize) -> usize {
    if single || count < FEW { 0 } else { inputs }
}

// How many digits were written, and the longest word that was looked up for them.
#[derive(Clone, Copy)]
pub struct Written {
    pub count: usize,
    pub reach: usize,
}

// The word looked up below the first place counts, but for the one below place 0.
fn reach_below(from: usize, length: usize) -> usize
    ensures zero { from ≡ 0 → result ≡ 0 }
    ensures above { 0 < from → result ≡ length }
{
    if from == 0 { 0 } else { length }
}

// Writes the alphabet indexes of the digits at the places from `from` on, up to the first digit that isn't in the alphabet, at most
// `count` of them.
pub fn convert(
    degree: Degree,
    base: [[i64; 4]; 4],
    alphabet: &[u8],
    inputs: &[u8],
    leaves: &[u8],
    words: &[u8],
    row: &[u8],
    from: usize,
    count: usize,
    out: &mut [u8],
) -> Written
    requires { RowsWithin (2 ^ 21) base × (element_count (of_degree degree alphabet.now) ≤ 256) × (0 < element_count (of_degree degree inputs.now))
        × Inputs (element_count (of_degree degree inputs.now)) row.now × Begun (of_degree degree leaves.now) words.now row.now × (from + count < 65536)
        × (count ≤ length out.old) × (leaf_count (of_degree degree leaves.now) < 65536) }
    ensures count { let allowed = digit_allowed (elements (part_count degree) base) (of_degree degree alphabet.now) (of_degree degree inputs.now)
        (of_degree degree leaves.now) words.now row.now in
        result.count ≡ first_failing (λ k. allowed (from + k)) 0 count }
    ensures reach { result.reach ≡ reach_of (code_of (of_degree degree leaves.now) words.now) row.now from result.count }
    ensures buffer { let index = index_at (elements (part_count degree) base) (of_degree degree alphabet.now) (of_degree degree inputs.now)
        (of_degree degree leaves.now) words.now row.now in
        out.new ≡ overwrite out.old 0 (span (λ k. index (from + k)) 0 result.count) }
{
    let single = words.len() <= leaves::leaf_count(degree, leaves);
    let ahead = digits_ahead(count, single, layout::record_count(degree, inputs, 2));
    let starts = place_weights::first_leaves(degree, leaves, words, ahead);
    let mut found = [place_weights::NO_LEAF; place_weights::WINDOWS];
    let mut slots = [0u8; DIGITS];
    let lowest = place_weights::leaf_into(degree, leaves, words, row, from);
    let mut below = lowest.leaf;
    let mut reach = reach_below(from, lowest.length);
    for k in 0..count {
        let first = octets::byte_at(row, from + k);
        let upper = place_weights::leaf_tried(
            degree,
            leaves,
            words,
            row,
            from + k + 1,
            first,
            single,
            &starts,
            &mut found,
            reach,
        );
        let own = upper.leaf;
        let input = first as usize;
        let Some(index) = out_index_by(
            degree, base, alphabet, inputs, leaves, input, below, own, &mut slots,
        ) else {
            return Written { count: k, reach };
        };
        out[k] = index as u8;
        below = own;
        reach = upper.reach;
    }
    Written { count, reach }
}
