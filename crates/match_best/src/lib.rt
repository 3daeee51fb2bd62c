// The best rule so far, in the order in which rules are preferred: utilities by a number without a sign.
#![tactic(auto)]

ghost use Rattle.std.specs.Prelude.{◌≡◌};
ghost use Rattle.match_best.specs.Keys.{key_of};

/// A number above 0 that rises as the utility does which the field stands for.
pub fn key(field: u16) -> u32
    ensures { result ≡ key_of field }
{
    (field as u32 + 32768) % 65536 + 1
}
