// Whole numbers printed as decimals.
ghost use Rattle.std.specs.Prelude.{◌≡◌, ◌+◌, ◌^◌, ◌<◌, ◌≤◌, ◌++◌, length, take};
ghost use Rattle.emtp_fix.specs.Decimal.{fraction, fixed_text};

use itoa::Buffer;

/// Writes `x / 10^places` as a decimal, and answers its length: a `-` where x is below 0, the whole part without
/// leading zeros, and where the rest isn't 0 a point and its digits without trailing zeros.
///
/// `places` is at most 18. So 1,500 with three places is `1.5`. This project's own form.
#[tactic(auto, unfolding(crate::specs::Decimal::fixed_text))]
pub fn print_fixed(x: i64, places: usize, out: &mut [u8; 40]) -> usize
    requires { places ≤ 18 }
    ensures length { result ≤ 40 }
    ensures text { take result out.new ≡ fixed_text x places }
{
    let magnitude = x.unsigned_abs();
    let unit = power_of_ten(places);
    let start = if x < 0 { put(out, 0, b"-") } else { 0 };
    let mut buffer = Buffer::new();
    let whole = put(out, start, buffer.format(magnitude / unit).as_bytes());
    if magnitude % unit == 0 {
        return whole;
    }
    let point = put(out, whole, b".");
    put_fraction(out, point, magnitude % unit, places)
}

/// Writes bytes at a place, and answers the place after them.
fn put(out: &mut [u8], at: usize, bytes: &[u8]) -> usize
    requires { at + length bytes.now ≤ length out.old }
    ensures place { result ≡ at + length bytes.now }
    ensures text { take result out.new ≡ take at out.old ++ bytes.now }
{
    out[at..at + bytes.len()].copy_from_slice(bytes);
    at + bytes.len()
}

/// Writes the digits of `rest / 10^places` behind the point from a place on, without trailing zeros, and answers
/// the place after them.
fn put_fraction(out: &mut [u8], at: usize, rest: u64, places: usize) -> usize
    requires places { places ≤ 18 }
    requires rest { rest < 10 ^ places }
    requires room { at + places ≤ length out.old }
    ensures bound { result ≤ at + places }
    ensures text { take result out.new ≡ take at out.old ++ fraction places rest }
{
    let mut at = at;
    let mut left = rest;
    let mut places = places;
    let mut unit = power_of_ten(places);
    'digits: while left != 0 {
        places -= 1;
        unit /= 10;
        out[at] = b'0' + (left / unit) as u8;
        left %= unit;
        at += 1;
    }
    at
}

fn power_of_ten(places: usize) -> u64
    requires { places ≤ 18 }
    ensures value { result ≡ 10 ^ places }
    ensures positive { 0 < result }
{
    10u64.pow(places as u32)
}
