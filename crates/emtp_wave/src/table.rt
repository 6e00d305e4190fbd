//! The table of the cosine.

ghost use Rattle.std.specs.Prelude.{◌≡◌, ◌^◌, ◌*◌, ◌≤◌, ◌<◌, ◌-ℤ◌, ◌*ℤ◌, pos, unsigned_abs, ℤ, List, IfOk};
ghost use Rattle.emtp_fix.specs.Rounding.{near};
ghost use Rattle.emtp_fix.specs.declared.limit.TheConstants.{ATTO, TURN};
ghost use Rattle.emtp_wave.specs.Cosine.{entry, near_entry, between, in_quarter, in_turn, reduced, cosine};
ghost use Rattle.emtp_wave.specs.held.Cosine.{table};

use crate::direction::{EAST, rounded, turned};
use emtp_fix::{ATTO, near, scaled};
use std::alloc::{AllocError, Global};
use std::marker::Model;

/// The number of entries: a quarter turn in hundredths of a degree, both ends included.
const ENTRIES: usize = 9_001;

/// A quarter turn, in 10^-18 turn.
const QUARTER: u64 = 250_000_000_000_000_000;

/// The cosines of a quarter turn, made once.
#[derive(Drop)]
pub struct CosTable {
    entries: Vec<i64>,
}

impl Model for CosTable {
    ghost use Rattle.std.specs.Prelude.{◌≡◌, List, ℤ};
    ghost use Rattle.emtp_wave.specs.held.Cosine.{table};

    ghost Value = { List ℤ };

    ghost view = { λ t. t.entries.items };

    ghost invariant = { λ t. t.entries.items ≡ table };
}

impl CosTable {
    /// Makes the table.
    pub fn open(alloc: Global) -> Result<CosTable, AllocError>
        ensures { IfOk result (λ t. t ≡ table) }
    {
        Ok(CosTable {
            entries: entries(alloc)?,
        })
    }

    /// The cosine in 10^-12 of a phase in 10^-18 turn: to 10^35 in magnitude.
    pub fn cosine(&self, phase: i128) -> i64
        requires { unsigned_abs phase ≤ 10 ^ 35 }
        ensures value { result ≡ cosine phase }
        ensures bound { unsigned_abs result ≤ 10 ^ 12 }
    {
        self.in_turn(reduced(phase))
    }

    fn in_turn(&self, p: u64) -> i64
        requires { p < TURN }
        ensures value { result ≡ in_turn p }
        ensures bound { unsigned_abs result ≤ 10 ^ 12 }
    {
        if p <= QUARTER {
            self.in_quarter(p)
        } else if p <= 2 * QUARTER {
            -self.in_quarter(2 * QUARTER - p)
        } else if p <= 3 * QUARTER {
            -self.in_quarter(p - 2 * QUARTER)
        } else {
            self.in_quarter(4 * QUARTER - p)
        }
    }

    fn in_quarter(&self, p: u64) -> i64
        requires { p ≤ 25 * 10 ^ 16 }
        ensures value { result ≡ in_quarter p }
        ensures bound { unsigned_abs result ≤ 10 ^ 12 }
    {
        // p * 36000 / 10^18, with the common factor taken out.
        const PER_HUNDREDTH: u64 = 250_000_000_000_000;
        let place = (9 * p / PER_HUNDREDTH) as usize;
        let way = 4000 * (9 * p % PER_HUNDREDTH);
        self.near_entry(place, way)
    }

    fn near_entry(&self, place: usize, way: u64) -> i64
        requires place { place ≤ 9000 }
        requires way { way < 10 ^ 18 }
        ensures value { result ≡ near_entry place way }
        ensures bound { unsigned_abs result ≤ 10 ^ 12 }
    {
        if place == ENTRIES - 1 {
            self.entry(place)
        } else {
            between(self.entry(place), self.entry(place + 1), way)
        }
    }

    fn entry(&self, place: usize) -> i64
        requires { place ≤ 9000 }
        ensures value { result ≡ entry place }
        ensures bound { unsigned_abs result ≤ 10 ^ 12 }
    {
        self.entries[place]
    }
}

fn entries(alloc: Global) -> Result<Vec<i64>, AllocError>
    ensures { IfOk result (λ entries. entries.items ≡ table) }
{
    let mut entries = Vec::with_capacity(alloc, ENTRIES)?;
    let mut direction = EAST;
    for _ in 0..ENTRIES {
        entries.push(rounded(&direction))?;
        direction = turned(&direction);
    }
    Ok(entries)
}

/// On the straight line from `a` to `b`, where `way` is in 10^-18.
fn between(a: i64, b: i64, way: u64) -> i64
    requires a { unsigned_abs a ≤ 10 ^ 12 }
    requires b { unsigned_abs b ≤ 10 ^ 12 }
    requires way { way < 10 ^ 18 }
    ensures value { result ≡ between a b way }
    ensures bound { unsigned_abs result ≤ 10 ^ 12 }
{
    a + part(b - a, way)
}

/// As much of a rise as the way makes.
fn part(rise: i64, way: u64) -> i64
    requires rise { unsigned_abs rise ≤ 2 * 10 ^ 12 }
    requires way { way < 10 ^ 18 }
    ensures { result ≡ near (pos way *ℤ rise) ATTO }
{
    scaled(i128::from(way), rise as i128, ATTO) as i64
}

/// A phase within its turn, without a division of 128 bits.
fn reduced(phase: i128) -> u64
    requires { unsigned_abs phase ≤ 10 ^ 35 }
    ensures value { result ≡ reduced phase }
    ensures bound { result < TURN }
{
    let left = phase - whole_turns(phase);
    if left < 0 {
        (left + ATTO) as u64
    } else {
        left as u64
    }
}

/// The whole turns that are nearest to a phase, in 10^-18 turn.
fn whole_turns(phase: i128) -> i128
    requires { unsigned_abs phase ≤ 10 ^ 35 }
    ensures value { result ≡ near phase (pos TURN) *ℤ pos TURN }
    ensures nearest { unsigned_abs (phase -ℤ result) ≤ 5 * 10 ^ 17 }
{
    near(phase, ATTO) * ATTO
}
