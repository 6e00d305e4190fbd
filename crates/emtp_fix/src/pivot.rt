// Rounded quotients by a pivot of which a shift and a word were made once, without a test.
ghost use Rattle.std.specs.Prelude.{◌≡◌, ◌*◌, ◌+◌, ◌/◌, ◌%◌, ◌^◌, ◌<◌, ◌≤◌, pos, unsigned_abs};
ghost use Rattle.emtp_fix.specs.Rounding.{near};
ghost use Rattle.emtp_fix.specs.declared.limit.TheConstants.{LARGEST_WIDE};

use crate::quotient::one_more;

/// A divisor that is used often, in whatever unit: from 4 on and below 2^60.
///
/// `shift` is that of a power of two that is at most a quarter of the divisor, and `word` 2^66 times that power, divided by
/// the divisor and rounded down. `lift` is 2^61 times the divisor and a half of it, and `even` 1 where the divisor is even.
#[derive(Clone, Copy)]
pub struct Pivot {
    value: u64,
    word: u64,
    lift: i128,
    even: u64,
    shift: u32,
    ghost lifts: { lift ≡ pos (2 ^ 61 * value + value / 2) },
    ghost parity: { even + value % 2 ≡ 1 },
    ghost small: { value < 2 ^ 60 },
    ghost few: { shift < 64 },
    ghost quarter: { 4 * 2 ^ shift ≤ value },
    ghost low: { word * value ≤ 2 ^ shift * 2 ^ 66 },
    ghost high: { 2 ^ shift * 2 ^ 66 ≤ word * value + value },
}

impl Pivot {
    /// The pivot of a divisor; None where it is below 4 or at least 2^60.
    pub fn new(value: u64) -> Option<Pivot> {
        let shift = 61u32.wrapping_sub(value.leading_zeros());
        if shift >= 58 {
            return None;
        }
        let unit = 1u64 << shift;
        if value >= 1 << 60 || value / 4 < unit {
            return None;
        }
        Some(Pivot {
            value,
            word: word_of_unit(unit, value),
            lift: i128::from(value) * (1 << 61) + i128::from(value / 2),
            even: 1 - value % 2,
            shift,
        })
    }

    /// `a / divisor`, rounded as by [`near`](crate::near), and an overflow word: 0 only where `overflow` is, `divisor` is
    /// that of this pivot, and the number is right.
    ///
    /// `a` is at most 1.6e38 in magnitude. Whatever the word is, the number is at most 2^62 in magnitude.
    #[inline(always)]
    pub fn overflowing_near(self, a: i128, divisor: u64, overflow: u64) -> (i64, u64)
        requires { unsigned_abs a ≤ LARGEST_WIDE }
        ensures value { result.1 ≡ 0 → result.0 ≡ near a (pos divisor) }
        ensures overflow { result.1 ≡ 0 → overflow ≡ 0 }
        ensures small { unsigned_abs result.0 ≤ 2 ^ 62 }
    {
        let (quotient, beyond) = self.overflowing_quotient(a);
        (
            quotient,
            overflow | beyond | divisor.wrapping_sub(self.value),
        )
    }

    #[inline(always)]
    fn overflowing_quotient(self, a: i128) -> (i64, u64)
        requires { unsigned_abs a ≤ LARGEST_WIDE }
        ensures value { result.1 ≡ 0 → result.0 ≡ near a (pos self.value) }
        ensures small { unsigned_abs result.0 ≤ 2 ^ 62 }
    {
        let below = if a < 0 { i128::from(self.even) } else { 0 };
        let y = (a + self.lift - below).cast_unsigned();
        let beyond = ((y >> self.shift) / (1 << 64)) as u64;
        (self.part(y) as i64 - (1 << 61), beyond)
    }

    /// `y / self.value`, where the upper bits of `y`, without the shift, fill 64.
    #[inline(always)]
    fn part(self, y: u128) -> u64
        ensures value { y / 2 ^ self.shift < 2 ^ 64 → (result * self.value ≤ y) × (y < result * self.value + self.value) }
        ensures small { result ≤ 2 ^ 62 }
    {
        let top = ((y >> self.shift) % (1 << 64)) as u64;
        let guess = (u128::from(top) * u128::from(self.word) / (1 << 66)) as u64;
        one_more(y, self.value, guess)
    }
}

fn word_of_unit(unit: u64, value: u64) -> u64
    requires unit { unit < 2 ^ 58 }
    requires quarter { 4 * unit ≤ value }
    requires some { 0 < unit }
    ensures low { result * value ≤ unit * 2 ^ 66 }
    ensures high { unit * 2 ^ 66 ≤ result * value + value }
{
    let word = u128::from(unit) * (1 << 66) / u128::from(value);
    if word < 1 << 64 {
        word as u64
    } else {
        u64::MAX
    }
}
