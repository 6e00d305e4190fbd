//! Rounding, limits, roots and decimals at known values.
ghost use Rattle.std.specs.Prelude.{◌≡◌, ◌≤◌, ◌*ℤ◌, unsigned_abs};
ghost use Rattle.emtp_fix.specs.Limit.{in_range};
ghost use Rattle.emtp_fix.specs.Rounding.{near};
ghost use Rattle.emtp_fix.specs.declared.limit.TheConstants.{LARGEST_ENTRY, LARGEST_VALUE, PICO};

use emtp_fix::{
    LARGEST_VALUE, PICO, fit, in_range, isqrt, micro_sum, narrow_product, near, near_by,
    print_fixed, scaled, word_of,
};

const MOST: i128 = 160_000_000_000_000_000_000_000_000_000_000_000_000;

macro_rules! rows {
    ($($a:expr, $b:expr => $result:expr;)*) => {
        [$(($a, $b, $result)),*]
    };
}

/// Dividend, divisor and rounded quotient: small ones, those up to which the upper bits give the quotient by 10^6 and
/// beyond, and those of more than 64 bits.
const QUOTIENTS: [(i128, i128, i128); 10] = rows! {
    7, 2 => 4;
    -7, 2 => -4;
    499_999, 1_000_000 => 0;
    4_835_703_278_458_516_698_324_703, 1_000_000 => 4_835_703_278_458_516_698;
    -4_835_703_278_458_516_698_324_704, 1_000_000 => -4_835_703_278_458_516_698;
    14_507_109_835_375_550_095_500_000, 1_000_000 => 14_507_109_835_375_550_096;
    MOST, 1_000_000_000_000 => 160_000_000_000_000_000_000_000_000;
    -147_573_952_589_676_412_929_223_372_036_854_775_808, 18_446_744_073_709_551_615 => -8_000_000_000_000_000_001;
    MOST, 18_446_744_073_709_551_616 => 8_673_617_379_884_035_472;
    MOST, -MOST => -1;
};

#[test]
fn rounds_a_half_away_from_zero(rt: HostRuntime) {
    for (a, b, quotient) in QUOTIENTS {
        assert!(rt; divides(a, b, quotient), "{a} / {b}");
    }
}

/// By both calls, by the word of the divisor and by words that guess wrong.
fn divides(a: i128, b: i128, quotient: i128) -> bool {
    if b == 0 || a.unsigned_abs() > MOST as u128 || b.unsigned_abs() > MOST as u128 {
        return false;
    }
    near(a, b) == quotient
        && near_by(a, b, word_of(b)) == quotient
        && near_by(a, b, 0) == quotient
        && near_by(a, b, u64::MAX) == quotient
}

#[test]
fn scales_limits_and_roots(rt: HostRuntime) {
    assert!(rt;
        scaled(-3, PICO, 2) == -1_500_000_000_000
            && scaled(8_000_000_000_000_000_000, 20_000_000_000_000_000_000, 3) == MOST / 3
    );
    assert!(rt; fit(12, 10).is_none() && fit(-10, 10) == Some(-10));
    assert!(rt; in_range(LARGEST_VALUE as i128 + 1).is_none());
    assert!(rt; isqrt(15) == 3 && isqrt(10_000_000_000_000_000) == 100_000_000);
}

/// Two factors, and their product in units of 1e-12 where it is at most 4e18.
const NARROW: [(i64, i64, Option<i64>); 2] = rows! {
    -3, 500_000_000_000 => Some(-2);
    2_000_000_000_000_000_000, 2_000_000_000_001 => None;
};

fn narrows(a: i64, b: i64, product: Option<i64>) -> bool {
    const MOST: u64 = 2_000_000_000_000_000_000;
    a.unsigned_abs() <= MOST && b.unsigned_abs() <= MOST && narrow_product(a, b) == product
}

/// Two factors, and the sum of 1 and their product in units of 1e-6, where it is in range.
const SUMS: [(i64, i64, Option<i64>); 2] = rows! {
    -3, 500_000 => Some(-1);
    1_000_000_000_000, 1_000_000_000_000 => None;
};

fn sums(a: i64, b: i64, sum: Option<i64>) -> bool {
    const MOST: u64 = 2_000_000_000_000_000_000;
    a.unsigned_abs() <= MOST && b.unsigned_abs() <= MOST && micro_sum(a, b, 1) == sum
}

#[test]
fn narrows_products(rt: HostRuntime) {
    for (a, b, product) in NARROW {
        assert!(rt; narrows(a, b, product), "{a} * {b}");
    }
    for (a, b, sum) in SUMS {
        assert!(rt; sums(a, b, sum), "{a} * {b} + 1");
    }
}

/// A number, the places behind its point, and its text.
const DECIMALS: &[(i64, usize, &str)] = &[
    (-1_500, 3, "-1.5"),
    (42, 0, "42"),
    (i64::MIN, 18, "-9.223372036854775808"),
];

fn prints(x: i64, places: usize, text: &[u8]) -> bool {
    let mut out = [0u8; 40];
    let length = print_fixed(x, places.min(18), &mut out);
    &out[..length] == text
}

#[test]
fn prints_decimals(rt: HostRuntime) {
    for (x, places, text) in DECIMALS {
        let is = prints(*x, *places, text.as_bytes());
        assert!(rt; is, "{text}");
    }
}

/// The current of a conductance in pS at a voltage in nV, in nA, where it is in range.
fn current(conductance: i64, voltage: i64) -> Option<i64>
    requires conductance { unsigned_abs conductance ≤ LARGEST_ENTRY }
    requires voltage { unsigned_abs voltage ≤ LARGEST_VALUE }
    ensures { result ≡ in_range (near (conductance *ℤ voltage) PICO) }
{
    in_range(scaled(conductance as i128, voltage as i128, PICO))
}

#[test]
fn keeps_a_current_in_range(rt: HostRuntime) {
    assert!(rt; current(500_000_000_000, 3_000_000_000) == Some(1_500_000_000));
    assert!(rt; current(1_000_000_000_001, 1_000_000_000_000_000_000).is_none());
}
