// Whole quotients: guessed by a reciprocal word and checked, else by long division.
ghost use Rattle.std.specs.Prelude.{true, ◌≡◌, ◌*◌, ◌+◌, ◌-◌, ◌/◌, ◌^◌, ◌<◌, ◌≤◌, IfNone, IfSome};

const KILO: u64 = crate::limit::KILO as u64;

const MICRO: u64 = crate::limit::MICRO as u64;

const NANO: u64 = crate::limit::NANO as u64;

const PICO: u64 = crate::limit::PICO as u64;

const ATTO: u64 = crate::limit::ATTO as u64;

/// What a number less its lower bits is multiplied by for a guess: 2^73 / 10^3, 2^83 / 10^6, 2^93 / 10^9, 2^103 / 10^12
/// and 2^123 / 10^18.
const PER_KILO: u64 = 9_444_732_965_739_290_427;

const PER_MICRO: u64 = 9_671_406_556_917_033_397;

const PER_NANO: u64 = 9_903_520_314_283_042_199;

const PER_PICO: u64 = 10_141_204_801_825_835_211;

const PER_ATTO: u64 = 10_633_823_966_279_326_983;

/// Whether `guess` is `x / b`.
pub(crate) fn is_quotient(x: u128, b: u128, guess: u128) -> bool
    requires b { b < 2 ^ 64 }
    requires guess { guess < 2 ^ 64 }
    ensures { result ≡ true → (guess * b ≤ x) × (x < guess * b + b) }
{
    let product = guess * b;
    product <= x && x - product < b
}

/// A guess of `x / b` by a reciprocal word. It is right where the quotient fits 64 bits and `word` is that of `b`.
pub(crate) fn guess(x: u128, b: u64, word: u64) -> u64 {
    let shift = b.leading_zeros() % 64;
    let divisor = b.wrapping_shl(shift);
    let shifted = x.wrapping_shl(shift);
    let low = (shifted % (1 << 64)) as u64;
    let product = u128::from(word)
        .wrapping_mul(shifted / (1 << 64))
        .wrapping_add(shifted);
    let first = ((product / (1 << 64)) as u64).wrapping_add(1);
    let left = low.wrapping_sub(first.wrapping_mul(divisor));
    let over = left > (product % (1 << 64)) as u64;
    let lower = if over { first.wrapping_sub(1) } else { first };
    let kept = if over {
        left.wrapping_add(divisor)
    } else {
        left
    };
    if kept >= divisor {
        lower.wrapping_add(1)
    } else {
        lower
    }
}

// The quotients by what the upper bits give. They branch on no sign and on no size but the outermost: those change from
// step to step, and a branch that is foretold wrongly costs more than the quotient. The upper bits are put together from
// both words, so that they are known to fill one, and one product of words gives the guess.

/// `x / 10^3`, where `x` is below 2^72: what its upper bits give, or one more.
fn kilo_near(x: u128) -> u64
    requires { x < 2 ^ 72 }
    ensures { result ≡ x / 10 ^ 3 }
{
    let top = (x / (1 << 64)) as u64 * (1 << 56) + (x % (1 << 64)) as u64 / (1 << 8);
    let guess = (u128::from(top) * u128::from(PER_KILO) / (1 << 65)) as u64;
    one_more(x, KILO, guess)
}

/// `x / 10^6`, where `x` is below 2^82: the same way.
fn micro_near(x: u128) -> u64
    requires { x < 2 ^ 82 }
    ensures { result ≡ x / 10 ^ 6 }
{
    let top = (x / (1 << 64)) as u64 * (1 << 46) + (x % (1 << 64)) as u64 / (1 << 18);
    let guess = (u128::from(top) * u128::from(PER_MICRO) / (1 << 65)) as u64;
    one_more(x, MICRO, guess)
}

/// `x / 10^9`, where `x` is below 2^92.
fn nano_near(x: u128) -> u64
    requires { x < 2 ^ 92 }
    ensures { result ≡ x / 10 ^ 9 }
{
    let top = (x / (1 << 64)) as u64 * (1 << 36) + (x % (1 << 64)) as u64 / (1 << 28);
    let guess = (u128::from(top) * u128::from(PER_NANO) / (1 << 65)) as u64;
    one_more(x, NANO, guess)
}

/// `x / 10^12`, where `x` is below 2^102.
fn pico_near(x: u128) -> u64
    requires { x < 2 ^ 102 }
    ensures { result ≡ x / 10 ^ 12 }
{
    let top = (x / (1 << 64)) as u64 * (1 << 26) + (x % (1 << 64)) as u64 / (1 << 38);
    let guess = (u128::from(top) * u128::from(PER_PICO) / (1 << 65)) as u64;
    one_more(x, PICO, guess)
}

/// `x / 10^18`, where `x` is below 2^118.
fn atto_near(x: u128) -> u64
    requires { x < 2 ^ 118 }
    ensures { result ≡ x / 10 ^ 18 }
{
    let top = (x / (1 << 64)) as u64 * (1 << 10) + (x % (1 << 64)) as u64 / (1 << 54);
    let guess = (u128::from(top) * u128::from(PER_ATTO) / (1 << 69)) as u64;
    one_more(x, ATTO, guess)
}

/// A quotient that is `guess` or one more; elsewhere `guess` or one more all the same.
#[inline(always)]
pub(crate) fn one_more(x: u128, b: u64, guess: u64) -> u64
    requires b { b < 2 ^ 60 }
    requires guess { guess < 2 ^ 63 }
    ensures value { guess * b ≤ x → x < guess * b + b + b → (result * b ≤ x) × (x < result * b + b) }
    ensures small { result ≤ guess + 1 }
{
    let left = ((x % (1 << 64)) as u64).wrapping_sub(guess.wrapping_mul(b));
    if left >= b { guess + 1 } else { guess }
}

// The same of any number: right below a limit, and at least small elsewhere. The limit is tested by whoever calls.

/// `x / 10^6`, where `x` is below 2^81.
#[inline(always)]
pub(crate) fn micro_or_any(x: u128) -> u64
    ensures value { x < 2 ^ 81 → result ≡ x / 10 ^ 6 }
    ensures small { result ≤ 2418 * 10 ^ 15 }
{
    let top = (x / (1 << 17) % (1 << 64)) as u64;
    let guess = (u128::from(top) * u128::from(PER_MICRO) / (1 << 66)) as u64;
    one_more(x, MICRO, guess)
}

/// `x / 10^12`, where `x` is below 2^101.
#[inline(always)]
pub(crate) fn pico_or_any(x: u128) -> u64
    ensures value { x < 2 ^ 101 → result ≡ x / 10 ^ 12 }
    ensures small { result ≤ 2536 * 10 ^ 15 }
{
    let top = (x / (1 << 37) % (1 << 64)) as u64;
    let guess = (u128::from(top) * u128::from(PER_PICO) / (1 << 66)) as u64;
    one_more(x, PICO, guess)
}

// Quotients of at most 4e18, so that what comes after them is in 64 bits.

/// The first numbers whose quotients by 10^6 and by 10^12 exceed 4e18.
const BEYOND_MICRO: u128 = 4_000_000_000_000_000_001_000_000;

const BEYOND_PICO: u128 = 4_000_000_000_000_000_001_000_000_000_000;

/// `x / 10^6`, where it is at most 4e18; else None.
pub(crate) fn narrow_micro_quotient(x: u128) -> Option<u64>
    ensures value { IfSome result (λ q. q ≡ x / 10 ^ 6) }
    ensures small { IfSome result (λ q. q ≤ 4 * 10 ^ 18) }
    ensures large { IfNone result (4 * 10 ^ 18 < x / 10 ^ 6) }
{
    if x < BEYOND_MICRO {
        Some(micro_near(x))
    } else {
        None
    }
}

/// `x / 10^12`, where it is at most 4e18; else None.
pub(crate) fn narrow_pico_quotient(x: u128) -> Option<u64>
    ensures value { IfSome result (λ q. q ≡ x / 10 ^ 12) }
    ensures small { IfSome result (λ q. q ≤ 4 * 10 ^ 18) }
    ensures large { IfNone result (4 * 10 ^ 18 < x / 10 ^ 12) }
{
    if x < BEYOND_PICO {
        Some(pico_near(x))
    } else {
        None
    }
}

// The quotients by long division. What is left after the powers of two are shifted out is written in
// digits of so many bits that a remainder by the power of five and one digit fill 64 bits.

/// `x / 10^3`.
pub(crate) fn kilo_quotient(x: u128) -> u128
    requires { x < 2 ^ 128 - 1 }
    ensures { result ≡ x / 10 ^ 3 }
{
    if x < 1 << 72 {
        u128::from(kilo_near(x))
    } else {
        kilo_far(x)
    }
}

/// The same by long division.
#[inline(never)]
fn kilo_far(x: u128) -> u128
    requires { x < 2 ^ 128 - 1 }
    ensures { result ≡ x / 10 ^ 3 }
{
    const FIVES: u64 = 125;
    const DIGIT: u128 = 1 << 56;
    let scaled = x / 8;
    let high = scaled / DIGIT;
    let top = (high / DIGIT) as u64;
    let middle = top % FIVES * DIGIT as u64 + (high % DIGIT) as u64;
    let low = middle % FIVES * DIGIT as u64 + (scaled % DIGIT) as u64;
    (u128::from(top / FIVES) * DIGIT + u128::from(middle / FIVES)) * DIGIT + u128::from(low / FIVES)
}

/// `x / 10^6`.
pub(crate) fn micro_quotient(x: u128) -> u128
    requires { x < 2 ^ 128 - 1 }
    ensures { result ≡ x / 10 ^ 6 }
{
    if x < 1 << 82 {
        u128::from(micro_near(x))
    } else {
        micro_far(x)
    }
}

/// The same by long division.
#[cold]
#[inline(never)]
fn micro_far(x: u128) -> u128
    requires { x < 2 ^ 128 - 1 }
    ensures { result ≡ x / 10 ^ 6 }
{
    const FIVES: u64 = 15_625;
    const DIGIT: u128 = 1 << 48;
    let scaled = x / 64;
    let high = scaled / DIGIT;
    let top = (high / DIGIT) as u64;
    let middle = top % FIVES * DIGIT as u64 + (high % DIGIT) as u64;
    let low = middle % FIVES * DIGIT as u64 + (scaled % DIGIT) as u64;
    (u128::from(top / FIVES) * DIGIT + u128::from(middle / FIVES)) * DIGIT + u128::from(low / FIVES)
}

/// `x / 10^9`.
pub(crate) fn nano_quotient(x: u128) -> u128
    requires { x < 2 ^ 128 - 1 }
    ensures { result ≡ x / 10 ^ 9 }
{
    if x < 1 << 92 {
        u128::from(nano_near(x))
    } else {
        nano_far(x)
    }
}

/// The same by long division.
#[cold]
#[inline(never)]
fn nano_far(x: u128) -> u128
    requires { x < 2 ^ 128 - 1 }
    ensures { result ≡ x / 10 ^ 9 }
{
    const FIVES: u64 = 1_953_125;
    const DIGIT: u128 = 1 << 40;
    let scaled = x / 512;
    let high = scaled / DIGIT;
    let top = (high / DIGIT) as u64;
    let middle = top % FIVES * DIGIT as u64 + (high % DIGIT) as u64;
    let low = middle % FIVES * DIGIT as u64 + (scaled % DIGIT) as u64;
    (u128::from(top / FIVES) * DIGIT + u128::from(middle / FIVES)) * DIGIT + u128::from(low / FIVES)
}

/// `x / 10^12`.
pub(crate) fn pico_quotient(x: u128) -> u128
    requires { x < 2 ^ 128 - 1 }
    ensures { result ≡ x / 10 ^ 12 }
{
    if x < 1 << 102 {
        u128::from(pico_near(x))
    } else {
        pico_far(x)
    }
}

/// The same by long division.
#[cold]
#[inline(never)]
fn pico_far(x: u128) -> u128
    requires { x < 2 ^ 128 - 1 }
    ensures { result ≡ x / 10 ^ 12 }
{
    const FIVES: u64 = 244_140_625;
    const DIGIT: u128 = 1 << 36;
    let scaled = x / 4096;
    let high = scaled / DIGIT;
    let top = (high / DIGIT) as u64;
    let middle = top % FIVES * DIGIT as u64 + (high % DIGIT) as u64;
    let low = middle % FIVES * DIGIT as u64 + (scaled % DIGIT) as u64;
    (u128::from(top / FIVES) * DIGIT + u128::from(middle / FIVES)) * DIGIT + u128::from(low / FIVES)
}

/// `x / 10^18`.
pub(crate) fn atto_quotient(x: u128) -> u128
    requires { x < 2 ^ 128 - 1 }
    ensures { result ≡ x / 10 ^ 18 }
{
    if x < 1 << 118 {
        u128::from(atto_near(x))
    } else {
        atto_far(x)
    }
}

/// The same by two quotients.
#[cold]
#[inline(never)]
fn atto_far(x: u128) -> u128
    requires { x < 2 ^ 128 - 1 }
    ensures { result ≡ x / 10 ^ 18 }
{
    micro_quotient(pico_quotient(x))
}
