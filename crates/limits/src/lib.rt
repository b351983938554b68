// The limits of rings and sequences.

#![tactic(auto)]

ghost use Rattle.std.specs.Prelude.{◌≡◌};
ghost use Rattle.limits.specs.Capacity.{is_capacity};

// Sequences lie below this; a start may be this number itself, and then there is none.
pub const SEQUENCE_END: u64 = 1 << 62;

// Whether a number is a power of two from 1 to 256: a table, since there are nine.
pub fn is_capacity(n: u64) -> bool
    ensures { result ≡ is_capacity n }
{
    match n {
        1 | 2 | 4 | 8 | 16 | 32 | 64 | 128 | 256 => true,
        _ => false,
    }
}
