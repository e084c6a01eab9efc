// The public element and the midpoint of two.
#![tactic(auto)]

ghost use Rattle.std.specs.Prelude.{◌≡◌, ◌≤◌, ◌^◌, nat_abs, ◌+ℤ◌};
ghost use Rattle.ring.specs.Tests.{Within};
ghost use Rattle.midpoint.specs.Halved.{halved};
ghost use Rattle.midpoint.specs.Midpoint.{parts, midpoint_of};

// An element a + b·ω + c·ω² + d·ω³ as callers see it; the parts above the degree are zero.
#[derive(Clone, Copy)]
pub struct Element {
    pub a: i32,
    pub b: i32,
    pub c: i32,
    pub d: i32,
}

// An element of parts that fit 32 bits, as callers see it.
pub fn shown(x: [i64; 4]) -> Element
    requires { Within 2147483647 x }
    ensures { parts result ≡ x }
{
    Element {
        a: x[0] as i32,
        b: x[1] as i32,
        c: x[2] as i32,
        d: x[3] as i32,
    }
}

// Half, to the even neighbour: two quarters rounded down make it without a branch.
fn half(sum: i64) -> i64
    requires { nat_abs sum ≤ 2 ^ 32 }
    ensures { result ≡ halved sum }
{
    ((sum + 1) >> 2) + ((sum + 2) >> 2)
}

// The sum is taken in 64 bits, where it can't overflow.
fn half_sum(x: i32, y: i32) -> i32
    ensures { result ≡ halved (x +ℤ y) }
{
    half(x as i64 + y as i64) as i32
}

// Each part is half the sum of the two parts; halves go to the even neighbour.
pub fn midpoint(x: Element, y: Element) -> Element
    ensures { parts result ≡ midpoint_of (parts x) (parts y) }
{
    Element {
        a: half_sum(x.a, y.a),
        b: half_sum(x.b, y.b),
        c: half_sum(x.c, y.c),
        d: half_sum(x.d, y.d),
    }
}
