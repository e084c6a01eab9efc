// The program `show`: a table on standard input, for people on standard output: the line of `check`, then as much as can be read. It only
// moves bytes; `line`, `listing` and `leaf_lines` make the lines, some of which `shown_parts` writes.
#![tactic(auto)]

ghost use Rattle.std.specs.Prelude.{◌≡◌, ◌≤◌};
ghost use Rattle.layout_rules.specs.Directory.{directory_check};

use leaf_lines::Columns;
use ring::Degree;
use std::io;

// The sections of input digits and of leaves.
const INPUTS: usize = 2;

const LEAVES: usize = 3;

// The line of one leaf.
fn leaf(
    rt: &impl Print,
    degree: Degree,
    inputs: &[u8],
    leaves: &[u8],
    words: &[u8],
    leaf: usize,
    columns: Columns,
) -> io::Result<()>
    requires { (columns.count ≤ 8) × (columns.digits ≤ 31) × (columns.weights ≤ 31) }
{
    let word = listing::word_shown(degree, leaves, words, leaf);
    let weight = leaves::weight(degree, leaves, leaf);
    let line = leaf_lines::leaf_line(degree, inputs, word, leaf, weight, columns);
    rt.write_all(line.as_bytes())
}

// The leaves, in columns that fit all of them.
fn leaves(
    rt: &impl Print,
    degree: Degree,
    inputs: &[u8],
    leaves: &[u8],
    words: &[u8],
) -> io::Result<()> {
    rt.write_all(b"leaves:\n")?;
    let columns = Columns {
        count: listing::columns(degree, leaves, words),
        digits: listing::width(degree, inputs, INPUTS),
        weights: listing::width(degree, leaves, LEAVES),
    };
    for k in 0..leaves::leaf_count(degree, leaves) {
        leaf(rt, degree, inputs, leaves, words, k, columns)?;
    }
    Ok(())
}

// The sections of a file whose directory is as it should be.
fn sections(rt: &impl Print, file: &[u8]) -> io::Result<()>
    requires { (directory_check file.now).number ≡ 0 }
{
    let part = reader::section(file, 0);
    let degree = layout::degree_of(part.len());
    shown_parts::base(rt, degree, part)?;
    shown_parts::digits(rt, degree, b"alphabet:", reader::section(file, 1))?;
    shown_parts::digits(rt, degree, b"input digits:", reader::section(file, INPUTS))?;
    leaves(
        rt,
        degree,
        reader::section(file, INPUTS),
        reader::section(file, LEAVES),
        reader::section(file, 4),
    )
}

fn show(rt: &impl Print, file: &[u8]) -> io::Result<()> {
    shown_parts::verdict(rt, file)?;
    match directory::directory(file) {
        Ok(()) => sections(rt, file),
        Err(_) => Ok(()),
    }
}

fn main(rt: HostRuntime) -> io::Result<()> {
    // one byte more than a file may have: a longer input is refused by its size
    let mut file = [0u8; 65536];
    let n = table_input::read_full(&mut rt.stdin(), &mut file)?;
    show(&rt, &file[..n])
}
