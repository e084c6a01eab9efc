// What rules 5 and 6 ask of a base: at degree two in the words of document 01, and the determinant of its matrix at every degree.
#![tactic(auto)]

ghost use Rattle.std.specs.Prelude.{◌≡◌, ◌≤◌, ◌<◌, ◌^◌, leb, pos, nat_abs};
ghost use Rattle.ring.specs.Base.{base_trace, base_norm, discriminant};
ghost use Rattle.ring.specs.Degree.{part_count};
ghost use Rattle.ring.specs.Padded.{corner};
ghost use Rattle.ring.specs.Determinant.{determinant, minor};
ghost use Rattle.ring.specs.Tests.{Within, BaseLimits, LimitedBy, row_limits, RowsLimited, ColumnsWithin, expanding, perfect_square};
ghost use Rattle.base_tests.specs.Minors.{minors, minor_limits, with_last, with_lower};

use ring::Degree;

// T of document 01.
pub fn base_trace(s: i64, u: i64, v: i64) -> i64
    requires { (nat_abs s ≤ 64) × (nat_abs u ≤ 64) × (nat_abs v ≤ 64) }
    ensures { result ≡ base_trace s u v }
{
    2 * u + s * v
}

// N of document 01.
pub fn base_norm(s: i64, t: i64, u: i64, v: i64) -> i64
    requires { BaseLimits s t u v }
    ensures { result ≡ base_norm s t u v }
{
    u * u + s * u * v - t * v * v
}

// |N| ≥ 2 and |T| < |N + 1|.
pub fn is_expanding(s: i64, t: i64, u: i64, v: i64) -> bool
    requires { BaseLimits s t u v }
    ensures { result ≡ expanding s t u v }
{
    let norm = base_norm(s, t, u, v);
    let trace = base_trace(s, u, v);
    2 <= magnitude::size(norm) && magnitude::size(trace) < magnitude::size(norm + 1)
}

// A `while`, since where it ends is what is looked for: a range would need an end that is never reached.
fn is_square(n: u64) -> bool
    requires { n ≤ 2 ^ 31 }
    ensures { result ≡ perfect_square (pos n) }
{
    let mut root: u64 = 0;
    while root * root < n {
        root += 1;
    }
    root * root == n
}

// Whether s² + 4t is a square.
pub fn has_square_discriminant(s: i64, t: i64) -> bool
    requires { (nat_abs s ≤ 64) × (nat_abs t ≤ 64) }
    ensures { result ≡ perfect_square (discriminant s t) }
{
    let d = s * s + 4 * t;
    d >= 0 && is_square(d as u64)
}

// Two rows by their columns p and q.
fn cross(first: [i64; 4], second: [i64; 4], p: usize, q: usize) -> i64
    requires { Within (2 ^ 21) first × Within (2 ^ 21) second × (p < 4) × (q < 4) }
    ensures { result ≡ minor first second p q }
{
    first[p] * second[q] - first[q] * second[p]
}

// Two rows by each two columns.
fn minors_of(first: [i64; 4], second: [i64; 4]) -> [i64; 6]
    requires { LimitedBy row_limits first × LimitedBy row_limits second }
    ensures minors { result ≡ minors first second }
    ensures within { LimitedBy minor_limits result }
{
    [
        cross(first, second, 0, 1),
        cross(first, second, 0, 2),
        cross(first, second, 0, 3),
        cross(first, second, 1, 2),
        cross(first, second, 1, 3),
        cross(first, second, 2, 3),
    ]
}

// Of three rows, by the entries of the last. Each product, here and of four rows, has one entry of each column, so that all fits: at
// most 24 · 64 · 4,160 · 270,400 · 1,149,984.
fn with_last(upper: [i64; 6], last: [i64; 4]) -> i64
    requires { LimitedBy minor_limits upper × LimitedBy row_limits last }
    ensures sum { result ≡ with_last upper last }
    ensures within { nat_abs result ≤ 2 ^ 61 }
{
    upper[0] * last[2] - upper[1] * last[1] + upper[3] * last[0]
}

// Of four rows, by two columns of the upper two and the other columns of the lower two.
fn with_lower(upper: [i64; 6], lower: [i64; 6]) -> i64
    requires { LimitedBy minor_limits upper × LimitedBy minor_limits lower }
    ensures sum { result ≡ with_lower upper lower }
    ensures within { nat_abs result ≤ 2 ^ 61 }
{
    upper[0] * lower[5] - upper[1] * lower[4] + upper[2] * lower[3] + upper[3] * lower[2]
        - upper[4] * lower[1]
        + upper[5] * lower[0]
}

fn determinant_of_three(rows: [[i64; 4]; 4]) -> i64
    requires { RowsLimited rows }
    ensures determinant { result ≡ determinant 3 (corner 3 rows) }
    ensures within { nat_abs result ≤ 2 ^ 61 }
{
    with_last(minors_of(rows[0], rows[1]), rows[2])
}

fn determinant_of_four(rows: [[i64; 4]; 4]) -> i64
    requires { RowsLimited rows }
    ensures determinant { result ≡ determinant 4 (corner 4 rows) }
    ensures within { nat_abs result ≤ 2 ^ 61 }
{
    with_lower(minors_of(rows[0], rows[1]), minors_of(rows[2], rows[3]))
}

// The determinant of the base's matrix.
pub fn determinant(degree: Degree, rows: [[i64; 4]; 4]) -> i64
    requires { ColumnsWithin degree rows }
    ensures determinant { result ≡ determinant (part_count degree) (corner (part_count degree) rows) }
    ensures within { nat_abs result ≤ 2 ^ 61 }
{
    match degree {
        Degree::Two => cross(rows[0], rows[1], 0, 1),
        Degree::Three => determinant_of_three(rows),
        Degree::Four => determinant_of_four(rows),
    }
}

// Whether the determinant is −1, 0 or 1.
pub fn is_unit_or_zero(degree: Degree, rows: [[i64; 4]; 4]) -> bool
    requires { ColumnsWithin degree rows }
    ensures { result ≡ leb (nat_abs (determinant (part_count degree) (corner (part_count degree) rows))) 1 }
{
    magnitude::size(determinant(degree, rows)) <= 1
}
