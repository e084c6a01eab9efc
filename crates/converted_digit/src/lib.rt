// Conversion at one place.
#![tactic(auto)]

ghost use Rattle.std.specs.Prelude.{◌≡◌, ◌^◌};
ghost use Rattle.ring.specs.Tests.{Within, RowsWithin};
ghost use Rattle.ring.specs.Degree.{part_count};
ghost use Rattle.numeration.specs.Conversion.{out_digit};
ghost use Rattle.numeration.specs.Elements.{elements};

use ring::Degree;

// An input digit, plus the weight from below, minus the base times the own weight.
pub fn out_digit(
    degree: Degree,
    base: [[i64; 4]; 4],
    input: [i64; 4],
    below: [i64; 4],
    own: [i64; 4],
) -> [i64; 4]
    requires { RowsWithin (2 ^ 21) base × Within 32768 input × Within 32768 below × Within 32768 own }
    ensures { result ≡ out_digit (elements (part_count degree) base) input below own }
{
    elements::difference(
        elements::sum(input, below),
        elements::times_base(degree, base, own),
    )
}
