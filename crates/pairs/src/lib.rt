// Rule 14: the fitting pairs of leaves.
#![tactic(auto)]

ghost use Rattle.std.specs.Prelude.{◌≡◌, length, get_or, true, ◌+◌, ◌<◌, ◌≤◌, ◌^◌, min, pred, IfOk, IfErr, IfSome};
ghost use Rattle.ring.specs.Degree.{part_count};
ghost use Rattle.ring.specs.Tests.{RowsWithin};
ghost use Rattle.layout_rules.specs.Section.{of_degree};
ghost use Rattle.digit_rules.specs.BaseMatrix.{base_matrix};
ghost use Rattle.digit_rules.specs.Digits.{BasePart};
ghost use Rattle.digit_rules.specs.Record.{record_at, element_count};
ghost use Rattle.numeration.specs.LeafOf.{agree};
ghost use Rattle.numeration.specs.Elements.{elements};
ghost use Rattle.numeration.specs.PairTests.{pair_passes};
ghost use Rattle.numeration.specs.PairCount.{lower_count};
ghost use Rattle.leaf_rules.specs.Leaf.{leaf_count, code_of};
ghost use Rattle.prefix_rules.specs.Check.{leaf_check};
ghost use Rattle.pair_digits.specs.Slots.{Slotted};
ghost use Rattle.pair_sets.specs.Runs.{Judgement};
ghost use Rattle.table_rules.specs.Pairs.{in_alphabet};
ghost use Rattle.pairs.specs.Answer.{Searched};
ghost use Rattle.lists.specs.Span.{span};
ghost use Rattle.lists.specs.Scan.{first_failing};

use pair_digits::{EMPTY, SLOTS};
use pair_sets::PassedLeaves;
use ring::Degree;
use table_rules::Pair;

// Of an upper leaf that fails with none, how many lower leaves fit, and where their run ended.
#[derive(Clone, Copy)]
struct Run {
    fitting: usize,
    end: usize,
}

// The upper word without its first digit, and zeros behind it.
fn tail_window(upper: &[u8]) -> [u8; 8]
    ensures { result ≡ span (λ i. get_or upper.now i 0) 1 8 }
{
    [
        octets::byte_at(upper, 1),
        octets::byte_at(upper, 2),
        octets::byte_at(upper, 3),
        octets::byte_at(upper, 4),
        octets::byte_at(upper, 5),
        octets::byte_at(upper, 6),
        octets::byte_at(upper, 7),
        octets::byte_at(upper, 8),
    ]
}

// Whether the upper word without its first digit and the lower word agree as far as both reach.
fn fit(upper: &[u8], lower: &[u8]) -> bool
    ensures { result ≡ agree (λ i. get_or upper.now (i + 1) 0) (λ i. get_or lower.now i 0)
        (min (pred (length upper.now)) (length lower.now)) }
{
    for i in 0..lower.len().min(upper.len().saturating_sub(1)) {
        if upper[i + 1] != lower[i] {
            return false;
        }
    }
    true
}

// The run of the lower leaves that fit, or the lowest of them that gives no alphabet digit. Those that fit are neighbours, from the leaf of the
// upper word's tail on, which may be the guessed one.
fn bad_lower(
    degree: Degree,
    base: &[[i64; 4]; 4],
    alphabet: &[u8],
    slots: Option<&[u8; SLOTS]>,
    inputs: &[u8],
    leaves: &[u8],
    words: &[u8],
    upper: usize,
    guess: usize,
) -> Result<Run, usize>
    requires table { RowsWithin (2 ^ 21) base.now × (0 < element_count (of_degree degree inputs.now))
        × ((leaf_check (of_degree degree leaves.now) words.now (element_count (of_degree degree inputs.now))).number ≡ 0) }
    requires upper { upper < leaf_count (of_degree degree leaves.now) }
    requires slots { IfSome slots (λ known. Slotted (of_degree degree alphabet.now) known.now) }
    ensures run { let code = code_of (of_degree degree leaves.now) words.now in let count = leaf_count (of_degree degree leaves.now) in
        IfOk result (λ run. (run.fitting ≡ lower_count code upper) × (count ≡ first_failing (pair_passes (elements (part_count degree) base.now)
        (record_at (of_degree degree inputs.now)) code (in_alphabet (of_degree degree alphabet.now)) upper) 0 count)) }
    ensures bad { let code = code_of (of_degree degree leaves.now) words.now in let count = leaf_count (of_degree degree leaves.now) in
        IfErr result (λ lower. (lower < count) × (lower ≡ first_failing (pair_passes (elements (part_count degree) base.now)
        (record_at (of_degree degree inputs.now)) code (in_alphabet (of_degree degree alphabet.now)) upper) 0 count)) }
{
    let count = leaves::leaf_count(degree, leaves);
    let top = leaves::word(degree, leaves, words, upper);
    let part = pair_digits::upper_part_by(degree, base, inputs, leaves, words, upper);
    let lowest = look_up::look_up_from(degree, leaves, words, tail_window(top), guess);
    let start = lowest.leaf;
    for lower in start..count {
        if !fit(top, leaves::word(degree, leaves, words, lower)) {
            return Ok(Run {
                fitting: lower - start,
                end: lower,
            });
        }
        if !pair_digits::gives_digit_by(degree, alphabet, slots, part, leaves, lower) {
            return Err(lower);
        }
    }
    Ok(Run {
        fitting: count - start,
        end: count,
    })
}

// The number of fitting pairs, or the lowest upper leaf that fails with some lower leaf, and the lowest such lower leaf. Those that have `passed`
// are known not to.
fn bad_pair(
    degree: Degree,
    base: &[u8],
    alphabet: &[u8],
    inputs: &[u8],
    leaves: &[u8],
    words: &[u8],
    passed: PassedLeaves,
) -> Result<usize, Pair>
    requires table { BasePart (of_degree degree base.now) × (0 < element_count (of_degree degree inputs.now))
        × ((leaf_check (of_degree degree leaves.now) words.now (element_count (of_degree degree inputs.now))).number ≡ 0) }
    requires passed { Judgement (base_matrix (of_degree degree base.now)) (of_degree degree alphabet.now) (of_degree degree inputs.now)
        (of_degree degree leaves.now) words.now passed }
    requires count { leaf_count (of_degree degree leaves.now) ≤ 4096 }
    ensures { Searched (of_degree degree base.now) (of_degree degree alphabet.now) (of_degree degree inputs.now) (of_degree degree leaves.now)
        words.now result }
{
    let matrix = digits::base_of(degree, base);
    let mut slots = [EMPTY; SLOTS];
    let known = pair_digits::slot_digits(degree, alphabet, &mut slots);
    let slots = if known { Some(&slots) } else { None };
    let count = leaves::leaf_count(degree, leaves);
    let mut pairs = passed.pairs;
    let mut guess = 0;
    for upper in passed.uppers..count {
        match bad_lower(
            degree, &matrix, alphabet, slots, inputs, leaves, words, upper, guess,
        ) {
            Ok(run) => {
                pairs += run.fitting;
                guess = run.end;
            }
            Err(lower) => return Err(Pair { upper, lower }),
        }
    }
    Ok(pairs)
}

// The same with no leaf known: the scan is only made where the quick look leaves some out, from the first of them on.
pub fn search(
    degree: Degree,
    base: &[u8],
    alphabet: &[u8],
    inputs: &[u8],
    leaves: &[u8],
    words: &[u8],
) -> Result<usize, Pair>
    requires table { BasePart (of_degree degree base.now) × (0 < element_count (of_degree degree inputs.now))
        × ((leaf_check (of_degree degree leaves.now) words.now (element_count (of_degree degree inputs.now))).number ≡ 0) }
    requires count { leaf_count (of_degree degree leaves.now) ≤ 4096 }
    ensures { Searched (of_degree degree base.now) (of_degree degree alphabet.now) (of_degree degree inputs.now) (of_degree degree leaves.now)
        words.now result }
{
    let count = leaves::leaf_count(degree, leaves);
    let passed = pair_sets::passed(degree, base, alphabet, inputs, leaves, words);
    if count <= passed.uppers {
        return Ok(passed.pairs);
    }
    bad_pair(degree, base, alphabet, inputs, leaves, words, passed)
}
