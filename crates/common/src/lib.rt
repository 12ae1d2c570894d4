// What every layer uses and none owns: a share of a range.
//
// `specs/Pick` has the branch of all definitions, `specs/Compare` and `specs/Lists` the laws that go with no crate's subject.
#![tactic(auto)]

ghost use Rattle.std.specs.Prelude.{◌≡◌, ◌*◌, ◌/◌, ◌%◌, ◌^◌};

// How many of n things stand before one that is so far into a range of 2^shift, if they fill it evenly. A shift counts below 32.
pub fn share(far: u32, n: u32, shift: u32) -> usize
    ensures { result ≡ far * n / 2 ^ (shift % 32) }
{
    far as usize * n as usize >> (shift % 32)
}
