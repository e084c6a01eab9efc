// Rules 1 to 3 of document 01, callable apart: `directory` is rules 1 and 2, `lengths` rule 3.
#![tactic(auto)]

ghost use Rattle.std.specs.Prelude.{◌≡◌, ◌≤◌, ◌<◌, length};
ghost use Rattle.faults.specs.Passed.{passed};
ghost use Rattle.layout_rules.specs.Directory.{expected_start, pair_allowed, directory_check};
ghost use Rattle.layout_rules.specs.Length.{least_records, most_records, length_allowed, length_check};

use faults::Refusal;
use ring::Degree;

// The least and the most records of each section.
const LEAST: [usize; 5] = [2, 2, 1, 1, 1];

const MOST: [usize; 5] = [2, 16, 136, 4000, 32000];

// Where a section must start: past the directory, or where the section before it ends.
fn expected_start(file: &[u8], section: usize) -> usize
    requires { (section < 5) × (20 ≤ length file.now) }
    ensures { result ≡ expected_start file.now section }
{
    if section == 0 {
        20
    } else {
        layout::section_end(file, section - 1)
    }
}

fn pair_allowed(file: &[u8], section: usize) -> bool
    requires { (section < 5) × (20 ≤ length file.now) }
    ensures { result ≡ pair_allowed file.now section }
{
    let end = layout::section_end(file, section);
    layout::section_start(file, section) == expected_start(file, section)
        && end <= file.len()
        && (section < 4 || end == file.len())
}

// Rules 1 and 2: the file's size and its directory.
pub fn directory(file: &[u8]) -> Result<(), Refusal>
    ensures { result ≡ passed (directory_check file.now) }
{
    if file.len() < 20 || 65535 < file.len() {
        return Err(Refusal {
            number: 1,
            place: 0,
        });
    }
    for pair in 0..5 {
        if !pair_allowed(file, pair) {
            return Err(Refusal {
                number: 2,
                place: pair,
            });
        }
    }
    Ok(())
}

fn least_records(section: usize) -> usize
    requires { section < 5 }
    ensures { result ≡ least_records section }
{
    LEAST[section]
}

fn most_records(section: usize) -> usize
    requires { section < 5 }
    ensures { result ≡ most_records section }
{
    MOST[section]
}

fn length_allowed(degree: Degree, section: usize, n: usize) -> bool
    requires { section < 5 }
    ensures { result ≡ length_allowed degree section n }
{
    let size = layout::size_of_record(degree, section);
    let least = least_records(section) * size;
    let most = most_records(section) * size;
    n % size == 0 && least <= n && n <= most
}

// Rule 3: the lengths of the five sections, from a file or not. The first tells the degree that the others are judged by.
pub fn lengths(given: [usize; 5]) -> Result<(), Refusal>
    ensures { result ≡ passed (length_check given) }
{
    let degree = layout::degree_of(given[0]);
    for (section, length) in given.iter().enumerate() {
        if !length_allowed(degree, section, *length) {
            return Err(Refusal {
                number: 3,
                place: section,
            });
        }
    }
    Ok(())
}
