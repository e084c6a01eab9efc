// The size of a whole number.
#![tactic(auto)]

ghost use Rattle.std.specs.Prelude.{◌≡◌, ◌<◌, ◌^◌, nat_abs};

// The absolute value.
pub fn size(z: i64) -> usize
    requires { nat_abs z < 2 ^ 63 }
    ensures { result ≡ nat_abs z }
{
    if z < 0 { (0 - z) as usize } else { z as usize }
}
