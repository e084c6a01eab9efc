// The answer array of a call for C: signed 64-bit words, 0 and the facts, or whose fault it is (1 author, 2 rows, 3 editor), its number and
// its place.
#![tactic(auto)]

ghost use Rattle.std.specs.Prelude.{◌≡◌, [], ◌∷◌, ◌≤◌, length, pos};
ghost use Rattle.lists.specs.Overwrite.{overwrite};
ghost use Rattle.midpoint.specs.Midpoint.{parts};
ghost use Rattle.answer_rules.specs.Word.{word_of};
ghost use Rattle.answer_rules.specs.Fault.{fault_words};
ghost use Rattle.answer_rules.specs.Answer.{element_words};

use faults::Fault;
use midpoint::Element;
use ring::Degree;

// The signed word with a number's 64 bits.
pub fn word(n: usize) -> i64
    ensures { result ≡ word_of n }
{
    (n as u64).cast_signed()
}

// Writes words at the start of an answer.
pub fn put(answer: &mut [i64], words: &[i64])
    requires { length words.now ≤ length answer.old }
    ensures { answer.new ≡ overwrite answer.old 0 words.now }
{
    answer[..words.len()].copy_from_slice(words);
}

// Writes a word and then two numbers, which are a fault's or two facts.
fn put_three(answer: &mut [i64], head: i64, n: usize, m: usize)
    requires { 8 ≤ length answer.old }
    ensures { answer.new ≡ overwrite answer.old 0 (head ∷ word_of n ∷ word_of m ∷ []) }
{
    put(answer, &[head, word(n), word(m)]);
}

// Writes whose fault it is, its number and its place; what the call returns.
fn put_fault(answer: &mut [i64], whose: i64, number: usize, place: usize) -> u64
    requires { 8 ≤ length answer.old }
    ensures status { result ≡ 1 }
    ensures answer { answer.new ≡ overwrite answer.old 0 (whose ∷ word_of number ∷ word_of place ∷ []) }
{
    put_three(answer, whose, number, place);
    1
}

pub fn refuse(answer: &mut [i64], fault: Fault) -> u64
    requires { 8 ≤ length answer.old }
    ensures status { result ≡ 1 }
    ensures answer { answer.new ≡ overwrite answer.old 0 (fault_words fault) }
{
    match fault {
        Fault::Author { number, place } => put_fault(answer, 1, number, place),
        Fault::Rows { number, place } => put_fault(answer, 2, number, place),
        Fault::Editor { number, place } => put_fault(answer, 3, number, place),
    }
}

// Writes a number as a fact; what the call returns.
pub fn put_number(answer: &mut [i64], n: usize) -> u64
    requires { 8 ≤ length answer.old }
    ensures status { result ≡ 0 }
    ensures answer { answer.new ≡ overwrite answer.old 0 (pos 0 ∷ word_of n ∷ []) }
{
    put(answer, &[0, word(n)]);
    0
}

// Writes two numbers as facts; what the call returns.
pub fn put_numbers(answer: &mut [i64], n: usize, m: usize) -> u64
    requires { 8 ≤ length answer.old }
    ensures status { result ≡ 0 }
    ensures answer { answer.new ≡ overwrite answer.old 0 (pos 0 ∷ word_of n ∷ word_of m ∷ []) }
{
    put_three(answer, 0, n, m);
    0
}

// Writes the parts of an element as facts, as many as the degree says; what the call returns.
pub fn put_element(degree: Degree, answer: &mut [i64], x: Element) -> u64
    requires { 8 ≤ length answer.old }
    ensures status { result ≡ 0 }
    ensures answer { answer.new ≡ overwrite answer.old 0 (pos 0 ∷ element_words degree (parts x)) }
{
    let words = [0, x.a as i64, x.b as i64, x.c as i64, x.d as i64];
    let end = layout::part_count(degree) + 1;
    put(answer, &words[..end]);
    0
}

// Writes three numbers and then the parts of an element as facts, as many as the degree says; what the call returns.
pub fn put_numbers_element(
    degree: Degree,
    answer: &mut [i64],
    n: usize,
    m: usize,
    k: usize,
    x: Element,
) -> u64
    requires { 8 ≤ length answer.old }
    ensures status { result ≡ 0 }
    ensures answer { answer.new
        ≡ overwrite answer.old 0 (pos 0 ∷ word_of n ∷ word_of m ∷ word_of k ∷ element_words degree (parts x)) }
{
    let words = [
        0,
        word(n),
        word(m),
        word(k),
        x.a as i64,
        x.b as i64,
        x.c as i64,
        x.d as i64,
    ];
    let end = layout::part_count(degree) + 4;
    put(answer, &words[..end]);
    0
}
