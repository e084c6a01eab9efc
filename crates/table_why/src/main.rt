// The program `why`: a table on standard input; on standard output the line of `check`, the rule that the table breaks and what stands at
// its place, of rule 14 the two leaves, a row that holds them and how the digit comes out. It only moves bytes; `why_lines` makes the lines.
#![tactic(auto)]

ghost use Rattle.std.specs.Prelude.{◌≡◌, ◌≤◌, ◌<◌, length};
ghost use Rattle.layout_rules.specs.Directory.{directory_check};
ghost use Rattle.layout_rules.specs.Section.{of_degree};
ghost use Rattle.digit_rules.specs.Record.{element_count};
ghost use Rattle.ring.specs.Tests.{Within};

use bad_row_rules::BadRow;
use faults::Fault;
use midpoint::Element;
use ring::{Degree, Operation};
use std::io;

// The sections behind the base.
const ALPHABET: usize = 1;

const INPUTS: usize = 2;

const LEAVES: usize = 3;

const WORDS: usize = 4;

// A rule by its number, 0 where none is broken.
fn rule(rt: &impl Print, number: usize) -> io::Result<()> {
    rt.write_all(why_lines::rule_line(number))
}

// Where something starts and how long it is.
fn extent(rt: &impl Print, name: &[u8], k: usize, start: usize, size: usize) -> io::Result<()>
    requires { length name.now ≤ 40 }
{
    rt.write_all(why_lines::extent_line(name, k, start, size).as_bytes())
}

// Where it has to start, and the length of what it stands in.
fn due(rt: &impl Print, start: usize, name: &[u8], size: usize) -> io::Result<()>
    requires { length name.now ≤ 40 }
{
    rt.write_all(why_lines::due_line(start, name, size).as_bytes())
}

// Rule 1.
fn size(rt: &impl Print, n: usize) -> io::Result<()> {
    rt.write_all(why_lines::file_line(n).as_bytes())
}

// Where a section has to start: past the directory, or where the one before it ends.
fn due_start(file: &[u8], section: usize) -> usize
    requires { (section < 5) × (20 ≤ length file.now) }
{
    if section == 0 {
        20
    } else {
        layout::section_end(file, section - 1)
    }
}

// Rule 2: a pair of the directory, and where it has to start.
fn pair(rt: &impl Print, file: &[u8], place: usize) -> io::Result<()> {
    if file.len() < 20 || 4 < place {
        return Ok(());
    }
    let start = layout::section_start(file, place);
    extent(
        rt,
        b"  pair ",
        place,
        start,
        layout::section_length(file, place),
    )?;
    due(
        rt,
        due_start(file, place),
        b", and the file has ",
        file.len(),
    )
}

// Rule 3.
fn section(rt: &impl Print, file: &[u8], place: usize) -> io::Result<()> {
    if file.len() < 20 || 4 < place {
        return Ok(());
    }
    let start = layout::section_start(file, place);
    extent(
        rt,
        b"  section ",
        place,
        start,
        layout::section_length(file, place),
    )
}

// The element at a place that a name and a number tell.
fn element(rt: &impl Print, name: &[u8], k: usize, x: [i64; 4]) -> io::Result<()>
    requires { (length name.now ≤ 40) × Within 32768 x }
{
    rt.write_all(why_lines::element_line(name, k, x).as_bytes())
}

// Rule 4.
fn number(rt: &impl Print, file: &[u8], place: usize) -> io::Result<()> {
    if file.len() < 2 || file.len() - 2 < place {
        return Ok(());
    }
    element(
        rt,
        b"  the number at file offset ",
        place,
        [layout::signed(file, place), 0, 0, 0],
    )
}

// A record of a section of elements: zero where there is none.
fn digit_at(degree: Degree, part: &[u8], k: usize) -> [i64; 4]
    ensures { Within 32768 result }
{
    if k < layout::record_count(degree, part, INPUTS) {
        digits::record_at(degree, part, k)
    } else {
        [0, 0, 0, 0]
    }
}

// Rule 7, and rule 8 where a record breaks it.
fn record(
    rt: &impl Print,
    degree: Degree,
    part: &[u8],
    place: usize,
    name: &[u8],
) -> io::Result<()> {
    element(rt, b"  record ", place, digit_at(degree, part, place))?;
    shown_parts::digits(rt, degree, name, part)
}

// The first of the alphabet digits up to digit i whose sum with it is no input digit.
fn partner(degree: Degree, alphabet: &[u8], inputs: &[u8], i: usize) -> Option<usize>
    requires { i < element_count (of_degree degree alphabet.now) }
{
    let count = layout::record_count(degree, inputs, INPUTS);
    (0..=i).find(|&j| {
        digits::pair_index(degree, Operation::Plus, alphabet, inputs, i, j) >= count
    })
}

// Rule 8 where a sum is missing: the two digits.
fn sum_missing(rt: &impl Print, degree: Degree, alphabet: &[u8], inputs: &[u8]) -> io::Result<()> {
    for i in 0..layout::record_count(degree, alphabet, ALPHABET) {
        if let Some(j) = partner(degree, alphabet, inputs, i) {
            element(rt, b"  alphabet record ", i, digit_at(degree, alphabet, i))?;
            element(rt, b"  alphabet record ", j, digit_at(degree, alphabet, j))?;
            return shown_parts::digits(
                rt,
                degree,
                b"  their sum isn't among the input digits:",
                inputs,
            );
        }
    }
    Ok(())
}

// Rule 8.
fn input(
    rt: &impl Print,
    degree: Degree,
    alphabet: &[u8],
    inputs: &[u8],
    place: usize,
) -> io::Result<()> {
    if place < layout::record_count(degree, inputs, INPUTS) {
        return record(rt, degree, inputs, place, b"  input digits:");
    }
    sum_missing(rt, degree, alphabet, inputs)
}

// Rule 9: a leaf's word in section 4, and where it has to start.
fn word(
    rt: &impl Print,
    degree: Degree,
    leaves: &[u8],
    words: &[u8],
    place: usize,
) -> io::Result<()> {
    if place >= leaves::leaf_count(degree, leaves) {
        return Ok(());
    }
    let start = leaves::word_start(degree, leaves, place);
    extent(
        rt,
        b"  leaf ",
        place,
        start,
        leaves::word_length(degree, leaves, place),
    )?;
    let before = if place == 0 {
        0
    } else {
        leaves::word_start(degree, leaves, place - 1)
            + leaves::word_length(degree, leaves, place - 1)
    };
    due(rt, before, b", and section 4 has ", words.len())
}

// Rule 10.
fn byte(
    rt: &impl Print,
    degree: Degree,
    inputs: &[u8],
    words: &[u8],
    place: usize,
) -> io::Result<()> {
    if place < words.len() {
        rt.write_all(why_lines::byte_line(place, usize::from(words[place])).as_bytes())?;
    }
    shown_parts::digits(rt, degree, b"  input digits:", inputs)
}

// A leaf with its word and its weight.
fn leaf(
    rt: &impl Print,
    degree: Degree,
    inputs: &[u8],
    leaves: &[u8],
    words: &[u8],
    name: &[u8],
    k: usize,
) -> io::Result<()>
    requires { length name.now ≤ 40 }
{
    let word = listing::word_shown(degree, leaves, words, k);
    let weight = leaves::weight(degree, leaves, k);
    rt.write_all(why_lines::leaf_line(degree, inputs, name, k, word, weight).as_bytes())
}

// Rule 11: the two leaves, and the digits in the order that the words have to keep.
fn neighbours(
    rt: &impl Print,
    degree: Degree,
    inputs: &[u8],
    leaves: &[u8],
    words: &[u8],
    place: usize,
) -> io::Result<()> {
    if 0 < place {
        leaf(rt, degree, inputs, leaves, words, b"  leaf ", place - 1)?;
    }
    leaf(rt, degree, inputs, leaves, words, b"  leaf ", place)?;
    shown_parts::digits(rt, degree, b"  input digits:", inputs)
}

// Rules 5 to 8.
fn at_digits(rt: &impl Print, file: &[u8], number: usize, place: usize) -> io::Result<()>
    requires { (directory_check file.now).number ≡ 0 }
{
    let base = reader::section(file, 0);
    let degree = layout::degree_of(base.len());
    let alphabet = reader::section(file, ALPHABET);
    match number {
        5 => shown_parts::ring(rt, degree, base),
        6 => shown_parts::base(rt, degree, base),
        7 => record(rt, degree, alphabet, place, b"  alphabet:"),
        _ => input(rt, degree, alphabet, reader::section(file, INPUTS), place),
    }
}

// Rules 9 to 13.
fn at_leaves(rt: &impl Print, file: &[u8], number: usize, place: usize) -> io::Result<()>
    requires { (directory_check file.now).number ≡ 0 }
{
    let degree = layout::degree_of(reader::section(file, 0).len());
    let inputs = reader::section(file, INPUTS);
    let leaves = reader::section(file, LEAVES);
    let words = reader::section(file, WORDS);
    match number {
        9 => word(rt, degree, leaves, words, place),
        10 => byte(rt, degree, inputs, words, place),
        11 => neighbours(rt, degree, inputs, leaves, words, place),
        13 => leaf(rt, degree, inputs, leaves, words, b"  leaf ", place),
        _ => Ok(()),
    }
}

// Rules 1 to 13. The sections are read where the directory is as it should be.
fn refused(rt: &impl Print, file: &[u8], broken: usize, place: usize) -> io::Result<()> {
    rule(rt, broken)?;
    match broken {
        1 => size(rt, file.len()),
        2 => pair(rt, file, place),
        3 => section(rt, file, place),
        4 => number(rt, file, place),
        _ => {
            let Ok(()) = directory::directory(file) else {
                return Ok(());
            };
            if broken < 9 {
                at_digits(rt, file, broken, place)
            } else {
                at_leaves(rt, file, broken, place)
            }
        }
    }
}

// Rule 14: the digit of two leaves, as the rule has it and with the product worked out.
fn sum(
    rt: &impl Print,
    degree: Degree,
    base: &[u8],
    first: [i64; 4],
    lower: [i64; 4],
    upper: [i64; 4],
) -> io::Result<()>
    requires { Within 32768 first × Within 32768 lower × Within 32768 upper }
{
    if listing::is_limited(degree, base) {
        rt.write_all(why_lines::sum_line(
            first,
            lower,
            digit_at(degree, base, 1),
            upper,
        ).as_bytes())?;
        let product = elements::times_base(degree, digits::base_of(degree, base), upper);
        rt.write_all(why_lines::product_line(first, lower, product).as_bytes())?;
    }
    Ok(())
}

// The digit that comes out, and the alphabet, which lacks it.
fn outside(rt: &impl Print, degree: Degree, alphabet: &[u8], digit: Element) -> io::Result<()> {
    let parts = [
        i64::from(digit.a),
        i64::from(digit.b),
        i64::from(digit.c),
        i64::from(digit.d),
    ];
    rt.write_all(why_lines::digit_lines(parts).as_bytes())?;
    shown_parts::digits(rt, degree, b"", alphabet)
}

// The row, as far as its string tells it.
fn string_shown(
    rt: &impl Print,
    degree: Degree,
    inputs: &[u8],
    string: &[u8],
    bytes: usize,
) -> io::Result<()>
    requires { length string.now ≤ 9 }
{
    if bytes <= string.len() {
        rt.write_all(why_lines::row_line(degree, inputs, &string[..bytes]).as_bytes())?;
    }
    Ok(())
}

// Rule 14: the two leaves, a row that holds them, and the digit there.
fn row(rt: &impl Print, file: &[u8], shown: BadRow, string: &[u8]) -> io::Result<()>
    requires { ((directory_check file.now).number ≡ 0) × (length string.now ≤ 9) }
{
    let base = reader::section(file, 0);
    let degree = layout::degree_of(base.len());
    let inputs = reader::section(file, INPUTS);
    let leaves = reader::section(file, LEAVES);
    let words = reader::section(file, WORDS);
    shown_parts::ring(rt, degree, base)?;
    leaf(
        rt,
        degree,
        inputs,
        leaves,
        words,
        b"  U is leaf ",
        shown.upper,
    )?;
    leaf(
        rt,
        degree,
        inputs,
        leaves,
        words,
        b"  L is leaf ",
        shown.lower,
    )?;
    string_shown(rt, degree, inputs, string, shown.bytes)?;
    let first = digit_at(degree, inputs, usize::from(octets::byte_at(string, 0)));
    let lower = leaves::weight(degree, leaves, shown.lower);
    sum(
        rt,
        degree,
        base,
        first,
        lower,
        leaves::weight(degree, leaves, shown.upper),
    )?;
    outside(rt, degree, reader::section(file, ALPHABET), shown.digit)
}

// What is shown of a table that rule 14 refuses; its directory is as it should be.
fn bad(rt: &impl Print, file: &[u8], shown: BadRow, string: &[u8; 9]) -> io::Result<()> {
    rule(rt, 14)?;
    match directory::directory(file) {
        Ok(()) => row(rt, file, shown, string),
        Err(_) => Ok(()),
    }
}

fn why(rt: &impl Print, file: &[u8]) -> io::Result<()> {
    shown_parts::verdict(rt, file)?;
    let mut string = [0u8; 9];
    match bad_row::bad_row(file, &mut string) {
        Ok(Some(shown)) => bad(rt, file, shown, &string),
        Ok(None) => rule(rt, 0),
        Err(
            Fault::Author { number, place }
            | Fault::Rows { number, place }
            | Fault::Editor { number, place },
        ) => refused(rt, file, number, place),
    }
}

fn main(rt: HostRuntime) -> io::Result<()> {
    // one byte more than a file may have: a longer input is refused by its size
    let mut file = [0u8; 65536];
    let n = table_input::read_full(&mut rt.stdin(), &mut file)?;
    why(&rt, &file[..n])
}
