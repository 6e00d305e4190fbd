// What is true of decimals in the reader's own words. The function does nothing: its clauses are proved.
ghost use Rattle.std.specs.Prelude.{◌≡◌, ◌≢◌, ◌^◌, ◌<◌, ◌≤◌};
ghost use Rattle.emtp_fix.specs.Decimal.{fraction};
ghost use Rattle.emtp_fix.specs.held.Decimal.{written, last_digit};

/// The digits behind the point write the number that they were made of, and the last of them isn't a 0.
pub fn decimals_read_back(places: usize, rest: u64)
    requires places { places ≤ 18 }
    requires rest { rest < 10 ^ places }
    ensures value { written places (fraction places rest) ≡ rest }
    ensures last { last_digit 0 (fraction places rest) ≢ 48 }
{}
