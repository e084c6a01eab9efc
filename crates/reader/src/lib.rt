// The reader of a table: rules 1 to 13 of document 01, and the facts that addition, edit and value go by.
#![tactic(auto)]

ghost use Rattle.std.specs.Prelude.{◌≡◌, ◌<◌};
ghost use Rattle.faults.specs.Passed.{passed};
ghost use Rattle.faults.specs.Answer.{outcome_of};
ghost use Rattle.layout_rules.specs.Directory.{directory_check};
ghost use Rattle.layout_rules.specs.Section.{bytes_of};
ghost use Rattle.reader_rules.specs.TableFacts.{part_facts, table_facts};
ghost use Rattle.reader_rules.specs.Check.{layout_check, digit_check_of, leaf_check_of, table_check, read_outcome};

use faults::{Fault, Refusal};
use reader_rules::{Part, Table};

// A section as that part of the file.
pub fn section(file: &[u8], number: usize) -> &[u8]
    requires { ((directory_check file.now).number ≡ 0) × (number < 5) }
    ensures { result.now ≡ bytes_of file.now number }
{
    let start = layout::section_start(file, number);
    let end = layout::section_end(file, number);
    &file[start..end]
}

// Rules 1 to 4.
fn layout_rules(file: &[u8]) -> Result<(), Refusal>
    ensures { result ≡ passed (layout_check file.now) }
{
    directory::directory(file)?;
    directory::lengths(layout::section_lengths(file))?;
    limits::limits(file)
}

// Rules 5 to 8, each section handed on as its part of the file.
fn digit_rules(file: &[u8]) -> Result<(), Refusal>
    requires { (layout_check file.now).number ≡ 0 }
    ensures { result ≡ passed (digit_check_of file.now) }
{
    let degree = layout::degree_in(file);
    digit_check::digits(degree, section(file, 0), section(file, 1), section(file, 2))
}

// Rules 9 to 13.
fn leaf_rules(file: &[u8]) -> Result<(), Refusal>
    requires { (layout_check file.now).number ≡ 0 }
    ensures { result ≡ passed (leaf_check_of file.now) }
{
    let degree = layout::degree_in(file);
    let inputs = layout::record_count(degree, section(file, 2), 2);
    prefix_code::prefix_code(degree, section(file, 3), section(file, 4), inputs)
}

// Rules 1 to 13.
pub fn rules(file: &[u8]) -> Result<(), Refusal>
    ensures { result ≡ passed (table_check file.now) }
{
    layout_rules(file)?;
    digit_rules(file)?;
    leaf_rules(file)
}

fn section_facts(file: &[u8], number: usize) -> Part
    requires { ((layout_check file.now).number ≡ 0) × (number < 5) }
    ensures { result ≡ part_facts file.now number }
{
    let degree = layout::degree_in(file);
    Part {
        start: layout::section_start(file, number),
        end: layout::section_end(file, number),
        count: layout::record_count(degree, section(file, number), number),
    }
}

// The facts of a table that passes.
fn table_facts(file: &[u8]) -> Table
    requires { (layout_check file.now).number ≡ 0 }
    ensures { result ≡ table_facts file.now }
{
    let degree = layout::degree_in(file);
    let base = section_facts(file, 0);
    let alphabet = section_facts(file, 1);
    let inputs = section_facts(file, 2);
    let leaves = section_facts(file, 3);
    let words = section_facts(file, 4);
    Table {
        base,
        alphabet,
        inputs,
        leaves,
        words,
        depth: leaves::depth(degree, section(file, 3)),
    }
}

// The table's facts, or the author's fault.
pub fn read(file: &[u8]) -> Result<Table, Fault>
    ensures { outcome_of result ≡ read_outcome file.now }
{
    if let Err(found) = rules(file) {
        return Err(found.by_author());
    }
    Ok(table_facts(file))
}
