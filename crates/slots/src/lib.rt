// A slot for each element, so that one among many is found at once.
#![tactic(auto)]

ghost use Rattle.std.specs.Prelude.{◌≡◌, ◌<◌, ◌^◌};
ghost use Rattle.ring.specs.Tests.{Within};
ghost use Rattle.slots.specs.Slot.{slot_of};

const SLOTS: usize = 256;

// The slot of an element. At degree two those of a square of 16 by 16 have different ones, at degree four those of 4 by 4 by 4 by 4.
pub fn slot_of(x: [i64; 4]) -> usize
    requires { Within (2 ^ 56) x }
    ensures slot { result ≡ slot_of x }
    ensures within { result < 256 }
{
    let place = x[0] + 16 * x[1] + 4 * x[2] + 64 * x[3] + 32768;
    if place < 0 {
        return 0;
    }
    place as usize % SLOTS
}
