ghost use Rattle.std.specs.Prelude.{◌≡◌, ◌<◌, ◌^◌};
ghost use Rattle.std.specs.Int.{IsPowerOfTwo};

/// Returns the exponent of a power of two.
pub fn exponent(power: u64) -> u32
    requires { IsPowerOfTwo power }
    ensures exact { 2 ^ result ≡ power }
    ensures fits { result < 64 }
{
    power.trailing_zeros()
}

/// Returns a power of two. The compiler sees that it is one, so a division by it becomes a shift.
#[inline]
pub fn power(exponent: u32) -> u64
    requires { exponent < 64 }
    ensures { result ≡ 2 ^ exponent }
{
    1 << exponent
}
