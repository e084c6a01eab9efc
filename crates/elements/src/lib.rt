// Elements of every degree as four 64-bit parts, those above the degree zero, and multiplication by the base.
#![tactic(auto)]

ghost use Rattle.std.specs.Prelude.{◌≡◌, map, ◌*◌, ◌+◌, ◌-◌, ◌≤◌, ◌<◌, ◌^◌, take, nat_abs};
ghost use Rattle.ring.specs.Element.{part, plus, minus};
ghost use Rattle.ring.specs.Degree.{part_count};
ghost use Rattle.ring.specs.Tests.{Within, same, RowsWithin, BaseSizes, ColumnsWithin};
ghost use Rattle.ring.specs.Matrix.{dot};
ghost use Rattle.ring.specs.Padded.{width, padded, padded_rows, padded_times, padded_matrix};
ghost use Rattle.ring.specs.Product.{scale, times_omega, columns};

use ring::Degree;

// One part of matrix times element, by the first N entries of the row.
fn dot<const N: usize>(row: [i64; 4], x: [i64; 4]) -> i64
    requires { (N ≤ width) × Within (2 ^ 21) row × Within (2 ^ 32) x }
    ensures product { result ≡ dot (take N row) x }
    ensures within { nat_abs result ≤ N * 2 ^ 53 }
{
    let mut all = 0;
    for k in 0..N {
        all += row[k] * x[k];
    }
    all
}

// Matrix times element, by the first N rows and columns.
fn times<const N: usize>(base: [[i64; 4]; 4], x: [i64; 4]) -> [i64; 4]
    requires { (N ≤ width) × RowsWithin (2 ^ 21) base × Within (2 ^ 32) x }
    ensures { result ≡ padded_times N base x }
{
    let mut all = [0; 4];
    for i in 0..N {
        all[i] = dot::<N>(base[i], x);
    }
    all
}

// Multiplication by the base: its matrix times an element.
pub fn times_base(degree: Degree, base: [[i64; 4]; 4], x: [i64; 4]) -> [i64; 4]
    requires { RowsWithin (2 ^ 21) base × Within (2 ^ 32) x }
    ensures product { result ≡ padded_times (part_count degree) base x }
    ensures within { Within (2 ^ 55) result }
{
    match degree {
        Degree::Two => times::<2>(base, x),
        Degree::Three => times::<3>(base, x),
        Degree::Four => times::<4>(base, x),
    }
}

pub fn sum(x: [i64; 4], y: [i64; 4]) -> [i64; 4]
    requires { Within (2 ^ 61) x × Within (2 ^ 61) y }
    ensures { result ≡ plus x y }
{
    [x[0] + y[0], x[1] + y[1], x[2] + y[2], x[3] + y[3]]
}

pub fn difference(x: [i64; 4], y: [i64; 4]) -> [i64; 4]
    requires { Within (2 ^ 61) x × Within (2 ^ 61) y }
    ensures { result ≡ minus x y }
{
    [x[0] - y[0], x[1] - y[1], x[2] - y[2], x[3] - y[3]]
}

// The highest part is compared first: a slot (slots::slot_of) tells only two bits of a fourth part, so that multiples of ω³ share slots and
// differ there alone.
pub fn equal(x: [i64; 4], y: [i64; 4]) -> bool
    ensures { result ≡ same x y }
{
    [x[3], x[2], x[1], x[0]] == [y[3], y[2], y[1], y[0]]
}

// The parts below the degree.
fn cut(degree: Degree, x: [i64; 4]) -> [i64; 4]
    ensures { result ≡ padded (take (part_count degree) x) }
{
    match degree {
        Degree::Two => [x[0], x[1], 0, 0],
        Degree::Three => [x[0], x[1], x[2], 0],
        Degree::Four => x,
    }
}

// The part at the highest power of ω below the degree.
fn top_part(degree: Degree, x: [i64; 4]) -> i64
    ensures { result ≡ part x (part_count degree - 1) }
{
    match degree {
        Degree::Two => x[1],
        Degree::Three => x[2],
        Degree::Four => x[3],
    }
}

fn scaled(k: i64, x: [i64; 4]) -> [i64; 4]
    requires { (nat_abs k ≤ 2 ^ 21) × Within 64 x }
    ensures { result ≡ scale k x }
{
    [k * x[0], k * x[1], k * x[2], k * x[3]]
}

// ω times an element: every part one power up, and what passes the top comes back as so many of ω to the power of the degree.
fn times_omega(degree: Degree, omega: [i64; 4], x: [i64; 4]) -> [i64; 4]
    requires { Within 64 omega × Within (2 ^ 21) x }
    ensures { result ≡ padded (times_omega (take (part_count degree) omega) (take (part_count degree) x)) }
{
    cut(
        degree,
        sum([0, x[0], x[1], x[2]], scaled(top_part(degree, x), omega)),
    )
}

// β, ω·β, ω²·β and ω³·β.
fn columns_of(degree: Degree, omega: [i64; 4], beta: [i64; 4]) -> [[i64; 4]; 4]
    requires { BaseSizes degree omega beta }
    ensures { result ≡ padded_rows (columns (take (part_count degree) omega) width (take (part_count degree) beta)) }
{
    let first = cut(degree, beta);
    let second = times_omega(degree, omega, first);
    let third = times_omega(degree, omega, second);
    [first, second, third, times_omega(degree, omega, third)]
}

// Row i of four columns, those above the degree left out.
fn row_of(degree: Degree, four: [[i64; 4]; 4], i: usize) -> [i64; 4]
    requires { i < width }
    ensures { result ≡ padded (take (part_count degree) (map (λ column. part column i) four)) }
{
    cut(degree, [four[0][i], four[1][i], four[2][i], four[3][i]])
}

// The matrix of multiplication by β, whose parts are given, as are those of ω to the power of the degree.
pub fn base_matrix(degree: Degree, omega: [i64; 4], beta: [i64; 4]) -> [[i64; 4]; 4]
    requires { BaseSizes degree omega beta }
    ensures matrix { result ≡ padded_matrix (take (part_count degree) omega) (take (part_count degree) beta) }
    ensures columns { ColumnsWithin degree result }
    ensures within { RowsWithin (2 ^ 21) result }
{
    let four = columns_of(degree, omega, beta);
    [
        row_of(degree, four, 0),
        row_of(degree, four, 1),
        row_of(degree, four, 2),
        row_of(degree, four, 3),
    ]
}
