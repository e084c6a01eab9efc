// Elements: products, expanding bases, midpoints.
ghost use Rattle.ring.specs.declared.Degree.TheVariants.{Two};
ghost use Rattle.ring.specs.Tests.{Within, BaseSizes};

use crate::output;
use midpoint::Element;
use ring::Degree;
use std::io;

// A part of a product of small numbers: it fits.
fn narrow(part: i64) -> i32 {
    i32::try_from(part).unwrap_or(0)
}

// The product of two elements of degree two, by the parts of ω², those of the first and those of the second.
fn product(omega: [i64; 4], beta: [i64; 4], x: [i64; 4]) -> Element
    requires { BaseSizes Two omega beta × Within 64 x }
{
    let degree = Degree::Two;
    let [a, b, c, d] = elements::times_base(degree, elements::base_matrix(degree, omega, beta), x);
    Element {
        a: narrow(a),
        b: narrow(b),
        c: narrow(c),
        d: narrow(d),
    }
}

// M1 and M2
pub fn products(rt: &impl Print) -> io::Result<()> {
    let degree = Degree::Two;
    printed::element(
        rt,
        "M1",
        degree,
        product([-1, 0, 0, 0], [-1, 1, 0, 0], [1, 1, 0, 0]),
    )?;
    printed::element(
        rt,
        "M2",
        degree,
        product([-1, -1, 0, 0], [1, 1, 0, 0], [1, 1, 0, 0]),
    )
}

// M3 to M6
pub fn bases(rt: &impl Print) -> io::Result<()> {
    output::verdict(rt, "M3", base_tests::is_expanding(0, -1, -1, 1))?;
    output::verdict(rt, "M4", base_tests::is_expanding(0, 2, 2, 1))?;
    output::verdict(rt, "M5", base_tests::is_expanding(0, 2, 0, 1))?;
    output::verdict(rt, "M6", base_tests::is_expanding(0, 2, 1, 1))
}

fn between(rt: &impl Print, a: i32, b: i32, c: i32, d: i32) -> io::Result<()> {
    let x = Element { a, b, c: 0, d: 0 };
    let y = Element {
        a: c,
        b: d,
        c: 0,
        d: 0,
    };
    let degree = Degree::Two;
    printed::element(rt, "midpoint", degree, midpoint::midpoint(x, y))
}

// Job 8: all four parts, the halves of 3, −3, 7 and −7.
pub fn midpoint_of_four(rt: &impl Print) -> io::Result<()> {
    let x = Element {
        a: 1,
        b: -1,
        c: 3,
        d: -3,
    };
    let y = Element {
        a: 2,
        b: -2,
        c: 4,
        d: -4,
    };
    let degree = Degree::Four;
    printed::element(rt, "midpoint", degree, midpoint::midpoint(x, y))
}

// Job 6: the halves of 3, 1 and 5, and of −3, −1 and −5, to the even neighbour; the least and the greatest parts.
pub fn midpoints(rt: &impl Print) -> io::Result<()> {
    between(rt, 1, -1, 2, -2)?;
    between(rt, 0, -1, 1, 0)?;
    between(rt, 2, -2, 3, -3)?;
    between(rt, 2147483647, -2147483648, 2147483647, -2147483648)?;
    between(rt, 2147483647, -2147483648, -2147483648, 2147483647)?;
    between(rt, 2147483647, -2147483648, 2147483646, -2147483647)
}
