// The table file of document 01, as far as its layout goes: 16-bit numbers, and the five sections as the directory gives them. The rules
// stand apart: 1 to 3 in `directory`, 4 in `limits`.
#![tactic(auto)]

ghost use Rattle.std.specs.Prelude.{◌≡◌, ◌+◌, ◌≤◌, ◌<◌, length, nat_abs};
ghost use Rattle.ring.specs.declared.Degree.TheVariants.{Two, Three, Four};
ghost use Rattle.ring.specs.Degree.{part_count};
ghost use Rattle.layout_rules.specs.Number.{unsigned_at, signed_at};
ghost use Rattle.layout_rules.specs.Section.{
  degree_of,
  element_size,
  record_size,
  of_degree,
  record_count,
  section_start,
  section_length,
  section_end,
  degree_in,
  section_lengths,
};

use ring::Degree;

// The bytes of a record of each section, by degree. The base section is two elements.
const TWO: [usize; 5] = [4, 4, 4, 8, 1];

const THREE: [usize; 5] = [6, 6, 6, 10, 1];

const FOUR: [usize; 5] = [8, 8, 8, 12, 1];

// The degree that the base section's length tells; of a length that rule 3 refuses, two.
pub fn degree_of(length: usize) -> Degree
    ensures { result ≡ degree_of length }
{
    match length {
        12 => Degree::Three,
        16 => Degree::Four,
        _ => Degree::Two,
    }
}

// How many parts an element has, and how many bytes.
pub fn part_count(degree: Degree) -> usize
    ensures count { result ≡ part_count degree }
    ensures within { result ≤ 4 }
{
    match degree {
        Degree::Two => 2,
        Degree::Three => 3,
        Degree::Four => 4,
    }
}

pub fn element_size(degree: Degree) -> usize
    ensures { result ≡ element_size degree }
{
    2 * part_count(degree)
}

// The unsigned 16-bit number at a place.
pub fn unsigned(bytes: &[u8], at: usize) -> usize
    requires { at + 1 < length bytes.now }
    ensures number { result ≡ unsigned_at bytes.now at }
    ensures within { result < 65536 }
{
    usize::from(bytes[at]) + 256 * usize::from(bytes[at + 1])
}

// The signed 16-bit number at a place.
pub fn signed(bytes: &[u8], at: usize) -> i64
    requires { at + 1 < length bytes.now }
    ensures number { result ≡ signed_at bytes.now at }
    ensures within { nat_abs result ≤ 32768 }
{
    ((unsigned(bytes, at) + 32768) % 65536) as i64 - 32768
}

// Where a section starts, its length and where it ends, as its pair of the directory says.
pub fn section_start(file: &[u8], section: usize) -> usize
    requires { (section < 5) × (20 ≤ length file.now) }
    ensures start { result ≡ section_start file.now section }
    ensures within { result < 65536 }
{
    unsigned(file, 4 * section)
}

pub fn section_length(file: &[u8], section: usize) -> usize
    requires { (section < 5) × (20 ≤ length file.now) }
    ensures size { result ≡ section_length file.now section }
    ensures within { result < 65536 }
{
    unsigned(file, 4 * section + 2)
}

pub fn section_end(file: &[u8], section: usize) -> usize
    requires { (section < 5) × (20 ≤ length file.now) }
    ensures { result ≡ section_end file.now section }
{
    section_start(file, section) + section_length(file, section)
}

// The five lengths that the directory names.
pub fn section_lengths(file: &[u8]) -> [usize; 5]
    requires { 20 ≤ length file.now }
    ensures { result ≡ section_lengths file.now }
{
    [
        section_length(file, 0),
        section_length(file, 1),
        section_length(file, 2),
        section_length(file, 3),
        section_length(file, 4),
    ]
}

// The degree of a file, of any bytes: its directory needn't be whole.
pub fn degree_in(file: &[u8]) -> Degree
    ensures { result ≡ degree_in file.now }
{
    degree_of(usize::from(octets::byte_at(file, 2)) + 256 * usize::from(octets::byte_at(file, 3)))
}

pub fn size_of_record(degree: Degree, section: usize) -> usize
    requires { section < 5 }
    ensures { result ≡ record_size degree section }
{
    match degree {
        Degree::Two => TWO[section],
        Degree::Three => THREE[section],
        Degree::Four => FOUR[section],
    }
}

// How many records a section's part has. Each degree divides by sizes of its own, which are constants where the section is.
pub fn record_count(degree: Degree, part: &[u8], section: usize) -> usize
    requires { section < 5 }
    ensures { result ≡ record_count section (of_degree degree part.now) }
{
    let bytes = part.len();
    match degree {
        Degree::Two => bytes / TWO[section],
        Degree::Three => bytes / THREE[section],
        Degree::Four => bytes / FOUR[section],
    }
}
