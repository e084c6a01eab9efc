// Elements as they stand in the sections of a table: records, the search among them, the base, and what an operation makes of two digits.
// Each section is given as its bytes, of a file or not.
#![tactic(auto)]

ghost use Rattle.std.specs.Prelude.{◌≡◌, ◌*◌, ◌+◌, ◌-◌, ◌≤◌, ◌<◌, length};
ghost use Rattle.lists.specs.Found.{below};
ghost use Rattle.lists.specs.Span.{span};
ghost use Rattle.ring.specs.Degree.{part_count};
ghost use Rattle.ring.specs.Element.{part};
ghost use Rattle.ring.specs.Padded.{width, padded};
ghost use Rattle.layout_rules.specs.Number.{signed_at};
ghost use Rattle.layout_rules.specs.Section.{element_size, of_degree};
ghost use Rattle.ring.specs.Tests.{Within};
ghost use Rattle.ring.specs.Operation.{combine};
ghost use Rattle.digit_rules.specs.Record.{element_at, record_at, element_count};
ghost use Rattle.digit_rules.specs.Digits.{index_in, BasePart, record_allowed, pair_index, partners};
ghost use Rattle.digit_rules.specs.BaseMatrix.{base_matrix};

use ring::{Degree, Operation};

// The section of input digits.
const INPUTS: usize = 2;

// The N parts whose first byte stands at a place, with zeros behind them.
fn parts_at<const N: usize>(bytes: &[u8], at: usize) -> [i64; 4]
    requires { (N ≤ width) × (at + 2 * N ≤ length bytes.now) }
    ensures parts { result ≡ padded (span (λ k. signed_at bytes.now (at + 2 * k)) 0 N) }
    ensures within { Within 32768 result }
{
    let mut parts = [0; 4];
    for k in 0..N {
        parts[k] = layout::signed(bytes, at + 2 * k);
    }
    parts
}

// The element whose first byte stands at a place.
pub fn element(degree: Degree, bytes: &[u8], at: usize) -> [i64; 4]
    requires { at + element_size degree ≤ length bytes.now }
    ensures element { result ≡ element_at (of_degree degree bytes.now) at }
    ensures within { Within 32768 result }
{
    match degree {
        Degree::Two => parts_at::<2>(bytes, at),
        Degree::Three => parts_at::<3>(bytes, at),
        Degree::Four => parts_at::<4>(bytes, at),
    }
}

// Record k of a section of elements.
pub fn record_at(degree: Degree, part: &[u8], k: usize) -> [i64; 4]
    requires { k < element_count (of_degree degree part.now) }
    ensures element { result ≡ record_at (of_degree degree part.now) k }
    ensures within { Within 32768 result }
{
    element(degree, part, k * layout::element_size(degree))
}

// The first of the first n records that equals an element.
pub fn find(degree: Degree, part: &[u8], n: usize, x: [i64; 4]) -> Option<usize>
    requires { n ≤ element_count (of_degree degree part.now) }
    ensures { result ≡ below n (index_in (of_degree degree part.now) n x) }
{
    for k in 0..n {
        if elements::equal(record_at(degree, part, k), x) {
            return Some(k);
        }
    }
    None
}

// The parts below the degree in the other order.
pub fn turned(degree: Degree, x: [i64; 4]) -> [i64; 4]
    ensures { result ≡ padded (span (λ k. part x (part_count degree - 1 - k)) 0 (part_count degree)) }
{
    match degree {
        Degree::Two => [x[1], x[0], 0, 0],
        Degree::Three => [x[2], x[1], x[0], 0],
        Degree::Four => [x[3], x[2], x[1], x[0]],
    }
}

// Multiplication by the base. The parts of ω to the power of the degree stand highest power first.
pub fn base_of(degree: Degree, base: &[u8]) -> [[i64; 4]; 4]
    requires { BasePart (of_degree degree base.now) }
    ensures { result ≡ base_matrix (of_degree degree base.now) }
{
    let omega = turned(degree, record_at(degree, base, 0));
    elements::base_matrix(degree, omega, record_at(degree, base, 1))
}

// Whether record k may stand in a section of digits: record 0 is zero, any other repeats none before it.
pub fn record_allowed(degree: Degree, part: &[u8], k: usize) -> bool
    requires { k < element_count (of_degree degree part.now) }
    ensures { result ≡ record_allowed (of_degree degree part.now) k }
{
    let x = record_at(degree, part, k);
    if k == 0 {
        elements::equal(x, [0, 0, 0, 0])
    } else {
        find(degree, part, k, x).is_none()
    }
}

// What the operation makes of alphabet digits i and j.
pub fn combined(
    degree: Degree,
    operation: Operation,
    alphabet: &[u8],
    i: usize,
    j: usize,
) -> [i64; 4]
    requires { (i < element_count (of_degree degree alphabet.now)) × (j < element_count (of_degree degree alphabet.now)) }
    ensures element { result ≡ combine operation (record_at (of_degree degree alphabet.now) i) (record_at (of_degree degree alphabet.now) j) }
    ensures within { Within 65536 result }
{
    let x = record_at(degree, alphabet, i);
    let y = record_at(degree, alphabet, j);
    match operation {
        Operation::Plus => elements::sum(x, y),
        Operation::Minus => elements::difference(x, y),
    }
}

// The input index of what the operation makes of alphabet digits i and j, or the count of input digits: no `Option`, since input_rows keeps
// the index as the definition has it, the count included.
pub fn pair_index(
    degree: Degree,
    operation: Operation,
    alphabet: &[u8],
    inputs: &[u8],
    i: usize,
    j: usize,
) -> usize
    requires { (i < element_count (of_degree degree alphabet.now)) × (j < element_count (of_degree degree alphabet.now)) }
    ensures { result ≡ pair_index operation (of_degree degree alphabet.now) (of_degree degree inputs.now) i j }
{
    let count = layout::record_count(degree, inputs, INPUTS);
    let x = combined(degree, operation, alphabet, i, j);
    find(degree, inputs, count, x).unwrap_or(count)
}

// The alphabet digits that digit i is taken with: those up to it in a sum, all of them in a difference.
pub fn partner_count(operation: Operation, n: usize, i: usize) -> usize
    requires { i < n }
    ensures { result ≡ partners operation n i }
{
    match operation {
        Operation::Plus => i + 1,
        Operation::Minus => n,
    }
}
