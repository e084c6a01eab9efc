// Quick looks at rule 8 of document 01 and at 42 of document 02: what an operation makes of two alphabet digits is found among the input
// digits by slots.
#![tactic(auto)]

ghost use Rattle.std.specs.Prelude.{◌≡◌, true, ℕ, ◌≤◌, ◌<◌, ◌^◌};
ghost use Rattle.ring.specs.declared.Degree.TheVariants.{Two};
ghost use Rattle.layout_rules.specs.Section.{of_degree};
ghost use Rattle.lists.specs.Scan.{every};
ghost use Rattle.lists.specs.Found.{below};
ghost use Rattle.faults.specs.Check.{none};
ghost use Rattle.ring.specs.Tests.{Within};
ghost use Rattle.ring.specs.declared.Operation.TheVariants.{Minus};
ghost use Rattle.digit_rules.specs.Record.{record_at, element_count};
ghost use Rattle.digit_rules.specs.Digits.{pair_listed, all_pairs_listed, input_check, operation_check};
ghost use Rattle.digit_sums.specs.Marks.{followed, located, Marked};

use ring::{Degree, Operation};

// The sections of digits.
const ALPHABET: usize = 1;

const INPUTS: usize = 2;

// The most input digits.
const MOST: usize = 136;

// The slots that they are looked up by.
const SLOTS: usize = 256;

// Makes each input digit the first of its slot, with a link to the one that was.
fn link(degree: Degree, inputs: &[u8], heads: &mut [u8; SLOTS], links: &mut [u8; MOST])
    requires { element_count (of_degree degree inputs.now) ≤ 136 }
{
    let count = layout::record_count(degree, inputs, INPUTS);
    for k in 0..count {
        let place = slots::slot_of(digits::record_at(degree, inputs, k));
        links[k] = heads[place];
        heads[place] = k as u8;
    }
}

// The same with the degree as a constant where it is two, so that sizes and parts are chosen once and not for each digit.
fn link_at_two(inputs: &[u8], heads: &mut [u8; SLOTS], links: &mut [u8; MOST])
    requires { element_count (of_degree Two inputs.now) ≤ 136 }
{
    link(Degree::Two, inputs, heads, links)
}

fn link_by(degree: Degree, inputs: &[u8], heads: &mut [u8; SLOTS], links: &mut [u8; MOST])
    requires { element_count (of_degree degree inputs.now) ≤ 136 }
{
    match degree {
        Degree::Two => link_at_two(inputs, heads, links),
        Degree::Three => link(degree, inputs, heads, links),
        Degree::Four => link(degree, inputs, heads, links),
    }
}

// The input index of an element along the links.
fn follow(
    degree: Degree,
    inputs: &[u8],
    links: &[u8; MOST],
    first: u8,
    x: [i64; 4],
) -> Option<usize>
    requires { element_count (of_degree degree inputs.now) ≤ 136 }
    ensures { result ≡ below (element_count (of_degree degree inputs.now)) (followed (of_degree degree inputs.now) links.now x 136 first) }
{
    let count = layout::record_count(degree, inputs, INPUTS);
    let mut at = usize::from(first);
    for _ in 0..MOST {
        if at >= count {
            return None;
        }
        if elements::equal(digits::record_at(degree, inputs, at), x) {
            return Some(at);
        }
        at = usize::from(links[at]);
    }
    None
}

// The input index of an element by its slot.
fn locate(
    degree: Degree,
    inputs: &[u8],
    heads: &[u8; SLOTS],
    links: &[u8; MOST],
    x: [i64; 4],
) -> Option<usize>
    requires inputs { element_count (of_degree degree inputs.now) ≤ 136 }
    requires within { Within (2 ^ 56) x }
    ensures { result ≡ below (element_count (of_degree degree inputs.now)) (located (of_degree degree inputs.now) heads.now links.now x) }
{
    let place = slots::slot_of(x);
    follow(degree, inputs, links, heads[place], x)
}

// Marks the input index of what the operation makes of alphabet digit i and each of the first `end`; whether all were found.
fn mark_pairs(
    degree: Degree,
    operation: Operation,
    alphabet: &[u8],
    inputs: &[u8],
    heads: &[u8; SLOTS],
    links: &[u8; MOST],
    i: usize,
    end: usize,
    marks: &mut [u8; MOST],
) -> bool
    requires sizes { (i < element_count (of_degree degree alphabet.now)) × (end ≤ element_count (of_degree degree alphabet.now))
        × (element_count (of_degree degree inputs.now) ≤ 136) }
    requires marked { Marked (of_degree degree inputs.now) (located (of_degree degree inputs.now) heads.now links.now) marks.old }
    ensures listed { result ≡ true → every (pair_listed operation (of_degree degree alphabet.now) (of_degree degree inputs.now) i) 0 end ≡ true }
    ensures marked { Marked (of_degree degree inputs.now) (located (of_degree degree inputs.now) heads.now links.now)
        marks.new }
{
    for other in 0..end {
        let x = digits::combined(degree, operation, alphabet, i, other);
        match locate(degree, inputs, heads, links, x) {
            Some(found) => marks[found] = 1,
            None => return false,
        }
    }
    true
}

// Marks the input index of all that the operation makes of two alphabet digits; whether all were found.
fn mark_all(
    degree: Degree,
    operation: Operation,
    alphabet: &[u8],
    inputs: &[u8],
    heads: &[u8; SLOTS],
    links: &[u8; MOST],
    marks: &mut [u8; MOST],
) -> bool
    requires inputs { element_count (of_degree degree inputs.now) ≤ 136 }
    requires marked { Marked (of_degree degree inputs.now) (located (of_degree degree inputs.now) heads.now links.now) marks.old }
    ensures listed { result ≡ true → all_pairs_listed operation (of_degree degree alphabet.now) (of_degree degree inputs.now) ≡ true }
    ensures marked { Marked (of_degree degree inputs.now) (located (of_degree degree inputs.now) heads.now links.now)
        marks.new }
{
    let n = layout::record_count(degree, alphabet, ALPHABET);
    for i in 0..n {
        let end = digits::partner_count(operation, n, i);
        if !mark_pairs(
            degree, operation, alphabet, inputs, heads, links, i, end, marks,
        ) {
            return false;
        }
    }
    true
}

// The same with the degree as a constant where it is two, as above.
fn mark_all_at_two(
    operation: Operation,
    alphabet: &[u8],
    inputs: &[u8],
    heads: &[u8; SLOTS],
    links: &[u8; MOST],
    marks: &mut [u8; MOST],
) -> bool
    requires inputs { element_count (of_degree Two inputs.now) ≤ 136 }
    requires marked { Marked (of_degree Two inputs.now) (located (of_degree Two inputs.now) heads.now links.now) marks.old }
    ensures listed { result ≡ true → all_pairs_listed operation (of_degree Two alphabet.now) (of_degree Two inputs.now) ≡ true }
    ensures marked { Marked (of_degree Two inputs.now) (located (of_degree Two inputs.now) heads.now links.now)
        marks.new }
{
    mark_all(
        Degree::Two,
        operation,
        alphabet,
        inputs,
        heads,
        links,
        marks,
    )
}

fn mark_all_by(
    degree: Degree,
    operation: Operation,
    alphabet: &[u8],
    inputs: &[u8],
    heads: &[u8; SLOTS],
    links: &[u8; MOST],
    marks: &mut [u8; MOST],
) -> bool
    requires inputs { element_count (of_degree degree inputs.now) ≤ 136 }
    requires marked { Marked (of_degree degree inputs.now) (located (of_degree degree inputs.now) heads.now links.now) marks.old }
    ensures listed { result ≡ true → all_pairs_listed operation (of_degree degree alphabet.now) (of_degree degree inputs.now) ≡ true }
    ensures marked { Marked (of_degree degree inputs.now) (located (of_degree degree inputs.now) heads.now links.now)
        marks.new }
{
    match degree {
        Degree::Two => mark_all_at_two(operation, alphabet, inputs, heads, links, marks),
        Degree::Three => mark_all(degree, operation, alphabet, inputs, heads, links, marks),
        Degree::Four => mark_all(degree, operation, alphabet, inputs, heads, links, marks),
    }
}

// Whether an input digit is found at its own index: by its mark, or looked for now.
fn found_at(
    degree: Degree,
    inputs: &[u8],
    heads: &[u8; SLOTS],
    links: &[u8; MOST],
    marks: &[u8; MOST],
    k: usize,
) -> bool
    requires inputs { (k < element_count (of_degree degree inputs.now)) × (element_count (of_degree degree inputs.now) ≤ 136) }
    requires marked { Marked (of_degree degree inputs.now) (located (of_degree degree inputs.now) heads.now links.now) marks.now }
    ensures { result ≡ true → located (of_degree degree inputs.now) heads.now links.now (record_at (of_degree degree inputs.now) k) ≡ k }
{
    if marks[k] != 0 {
        return true;
    }
    let x = digits::record_at(degree, inputs, k);
    locate(degree, inputs, heads, links, x) == Some(k)
}

// Whether each of them is.
fn each_found(
    degree: Degree,
    inputs: &[u8],
    heads: &[u8; SLOTS],
    links: &[u8; MOST],
    marks: &[u8; MOST],
) -> bool
    requires inputs { element_count (of_degree degree inputs.now) ≤ 136 }
    requires marked { Marked (of_degree degree inputs.now) (located (of_degree degree inputs.now) heads.now links.now) marks.now }
    ensures { result ≡ true → (k : ℕ) → k < element_count (of_degree degree inputs.now)
        → located (of_degree degree inputs.now) heads.now links.now (record_at (of_degree degree inputs.now) k) ≡ k }
{
    let count = layout::record_count(degree, inputs, INPUTS);
    for k in 0..count {
        if !found_at(degree, inputs, heads, links, marks, k) {
            return false;
        }
    }
    true
}

// A quick look at rule 8: it is kept, or there is no answer.
pub fn inputs_kept(degree: Degree, alphabet: &[u8], inputs: &[u8]) -> bool
    ensures { result ≡ true → none ≡ input_check (of_degree degree alphabet.now) (of_degree degree inputs.now) }
{
    let count = layout::record_count(degree, inputs, INPUTS);
    if count == 0 || count > MOST || !digits::record_allowed(degree, inputs, 0) {
        return false;
    }
    let mut heads = [255; SLOTS];
    let mut links = [255; MOST];
    link_by(degree, inputs, &mut heads, &mut links);
    let mut marks = [0; MOST];
    mark_all_by(
        degree,
        Operation::Plus,
        alphabet,
        inputs,
        &heads,
        &links,
        &mut marks,
    ) && each_found(degree, inputs, &heads, &links, &marks)
}

// A quick look at 42: it is kept, or there is no answer.
pub fn differences_kept(degree: Degree, alphabet: &[u8], inputs: &[u8]) -> bool
    ensures { result ≡ true → none ≡ operation_check Minus (of_degree degree alphabet.now) (of_degree degree inputs.now) }
{
    if layout::record_count(degree, inputs, INPUTS) > MOST {
        return false;
    }
    let mut heads = [255; SLOTS];
    let mut links = [255; MOST];
    link_by(degree, inputs, &mut heads, &mut links);
    let mut marks = [0; MOST];
    mark_all_by(
        degree,
        Operation::Minus,
        alphabet,
        inputs,
        &heads,
        &links,
        &mut marks,
    )
}
