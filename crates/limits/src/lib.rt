// Rule 4 of document 01: the numbers of a table are inside their size limits.
#![tactic(auto)]

ghost use Rattle.std.specs.Prelude.{◌≡◌, true, ℕ, ◌+◌, ◌*◌, ◌≤◌, ◌<◌, ◌^◌, length, nat_abs};
ghost use Rattle.ring.specs.declared.Degree.TheVariants.{Two};
ghost use Rattle.ring.specs.Degree.{part_count, base_limit};
ghost use Rattle.faults.specs.Check.{none};
ghost use Rattle.layout_rules.specs.Section.{element_size, record_size, of_degree, degree_in};
ghost use Rattle.faults.specs.Passed.{passed};
ghost use Rattle.lists.specs.Scan.{first_failing, every};
ghost use Rattle.lists.specs.Found.{below};
ghost use Rattle.layout_rules.specs.Number.{signed_at};
ghost use Rattle.layout_rules.specs.Directory.{directory_check};
ghost use Rattle.layout_rules.specs.Limit.{size_limit, number_place, number_count, number_allowed, limit_check_in, limit_check_of, limit_check};

use faults::Refusal;
use ring::Degree;

// Of each section with elements: the size limit of their parts. That of section 0 goes by the degree.
const LIMITS: [usize; 4] = [64, 64, 128, 1024];

fn base_limit(degree: Degree) -> usize
    ensures { result ≡ base_limit degree }
{
    match degree {
        Degree::Two | Degree::Three => 64,
        Degree::Four => 32,
    }
}

fn size_limit(degree: Degree, section: usize) -> usize
    requires { section < 4 }
    ensures { result ≡ size_limit degree section }
{
    if section == 0 {
        return base_limit(degree);
    }
    LIMITS[section]
}

// Where the m-th number with a limit stands in records of this size: an element ends its record.
fn number_place(degree: Degree, size: usize, m: usize) -> usize
    requires { (element_size degree ≤ size) × (number_place degree size m < 2 ^ 63) }
    ensures { result ≡ number_place degree size m }
{
    let parts = layout::part_count(degree);
    m / parts * size + (size - 2 * parts) + 2 * (m % parts)
}

// How many numbers with a limit a section has, in records of this size.
fn number_count(degree: Degree, part: &[u8], size: usize) -> usize
    requires { element_size degree ≤ size }
    ensures { result ≡ number_count degree size (length part.now) }
{
    part.len() / size * layout::part_count(degree)
}

// The first number of a section that is outside its limit.
fn first_outside(
    degree: Degree,
    part: &[u8],
    size: usize,
    limit: usize,
    count: usize,
) -> Option<usize>
    requires { (element_size degree ≤ size) × (count ≡ number_count degree size (length part.now)) }
    ensures { result ≡ below count (first_failing (number_allowed size limit (of_degree degree part.now)) 0 count) }
{
    for m in 0..count {
        let number = layout::signed(part, number_place(degree, size, m));
        if (limit as u64) < number.unsigned_abs() {
            return Some(m);
        }
    }
    None
}

// The number at a place, raised so that it is 65,536 or more where it is outside the limit.
fn raised(bytes: &[u8], at: usize, limit: u32) -> u32
    requires { (at + 1 < length bytes.now) × (limit ≤ 1024) }
    ensures { result < 65536 → nat_abs (signed_at bytes.now at) ≤ limit }
{
    (u32::from(bytes[at]) + 256 * u32::from(bytes[at + 1]) + limit) % 65536 + (65535 - 2 * limit)
}

// A number that is at least each of two, without a branch.
fn at_least(a: u32, b: u32) -> u32
    ensures one { a ≤ result }
    ensures other { b ≤ result }
{
    a | b
}

// The same for the parts of an element: below 65,536 only where none is outside.
fn raised_parts(degree: Degree, bytes: &[u8], at: usize, limit: u32) -> u32
    requires { (at + element_size degree ≤ length bytes.now) × (limit ≤ 1024) }
    ensures { result < 65536 → (k : ℕ) → k < part_count degree → nat_abs (signed_at bytes.now (at + 2 * k)) ≤ limit }
{
    let two = at_least(raised(bytes, at, limit), raised(bytes, at + 2, limit));
    match degree {
        Degree::Two => two,
        Degree::Three => at_least(two, raised(bytes, at + 4, limit)),
        Degree::Four => at_least(
            two,
            at_least(raised(bytes, at + 4, limit), raised(bytes, at + 6, limit)),
        ),
    }
}

// A quick look at all numbers of a section: none is outside its limit, or there is no answer.
fn none_outside(degree: Degree, part: &[u8], size: usize, limit: usize) -> bool
    requires { (element_size degree ≤ size) × (limit ≤ 1024) }
    ensures { result ≡ true → every (number_allowed size limit (of_degree degree part.now)) 0 (number_count degree size (length part.now)) ≡ true }
{
    let bound = limit as u32;
    let element = layout::element_size(degree);
    let count = part.len() / size;
    let mut most = 0;
    for k in 0..count {
        let at = k * size + (size - element);
        most = at_least(most, raised_parts(degree, part, at, bound));
    }
    most < 65536
}

// Rule 4 in one section, handed on as its part of the file; `start` is where the part starts in the file.
pub fn limits_in(degree: Degree, part: &[u8], start: usize, section: usize) -> Result<(), Refusal>
    requires { (section < 4) × (start ≤ 65535) }
    ensures { result ≡ passed (limit_check_in (of_degree degree part.now) start section) }
{
    let size = layout::size_of_record(degree, section);
    let limit = size_limit(degree, section);
    if none_outside(degree, part, size, limit) {
        return Ok(());
    }
    let count = number_count(degree, part, size);
    match first_outside(degree, part, size, limit, count) {
        Some(m) => Err(Refusal {
            number: 4,
            place: start + number_place(degree, size, m),
        }),
        None => Ok(()),
    }
}

// Rule 4 in one section of a file of degree two: it is kept, or there is no answer.
fn section_at_two(file: &[u8], section: usize, size: usize, limit: usize) -> bool
    requires file { (directory_check file.now).number ≡ 0 }
    requires section { (section < 4) × (size ≡ record_size Two section) × (limit ≡ size_limit Two section) }
    ensures { result ≡ true → degree_in file.now ≡ Two → none ≡ limit_check_of file.now section }
{
    let start = layout::section_start(file, section);
    let end = layout::section_end(file, section);
    none_outside(Degree::Two, &file[start..end], size, limit)
}

// The same in the four sections that have elements. With sizes and limits as constants the compiler's loops take several records at a time.
fn sections_at_two(file: &[u8]) -> bool
    requires { (directory_check file.now).number ≡ 0 }
    ensures { result ≡ true → degree_in file.now ≡ Two → none ≡ limit_check file.now }
{
    section_at_two(file, 0, 4, 64)
        && section_at_two(file, 1, 4, 64)
        && section_at_two(file, 2, 4, 128)
        && section_at_two(file, 3, 8, 1024)
}

// A quick look at rule 4, for degree two: it is kept, or there is no answer.
fn limits_kept(degree: Degree, file: &[u8]) -> bool
    requires { ((directory_check file.now).number ≡ 0) × (degree ≡ degree_in file.now) }
    ensures { result ≡ true → none ≡ limit_check file.now }
{
    match degree {
        Degree::Two => sections_at_two(file),
        Degree::Three | Degree::Four => false,
    }
}

// Rule 4 in the four sections that have elements, of a file that passes rules 1 and 2.
pub fn limits(file: &[u8]) -> Result<(), Refusal>
    requires { (directory_check file.now).number ≡ 0 }
    ensures { result ≡ passed (limit_check file.now) }
{
    let degree = layout::degree_in(file);
    if limits_kept(degree, file) {
        return Ok(());
    }
    for section in 0..4 {
        let start = layout::section_start(file, section);
        let end = layout::section_end(file, section);
        limits_in(degree, &file[start..end], start, section)?;
    }
    Ok(())
}
