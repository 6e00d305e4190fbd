// The square root of a whole number.
ghost use Rattle.std.specs.Prelude.{◌≡◌, ℤ, pos, ◌*ℤ◌, ◌≤ℤ◌};
ghost use Rattle.emtp_fix.specs.Root.{isqrt};

/// The greatest whole number whose square is at most `x`.
pub fn isqrt(x: i128) -> i128
    requires { pos 0 ≤ℤ x }
    ensures sign { pos 0 ≤ℤ result }
    ensures square { (result *ℤ result) ≤ℤ x }
    ensures greatest { (r : ℤ) → (r *ℤ r) ≤ℤ x → r ≤ℤ result }
    ensures value { result ≡ isqrt x }
{
    x.isqrt()
}
