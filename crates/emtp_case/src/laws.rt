//! What a reader that judges card by card may conclude. The functions do nothing: their clauses are proved.

ghost use Rattle.std.specs.Prelude.{◌≡◌, ◌+◌, ◌++◌, ◌∷◌, [], ℕ, List, length, map, slice_index_or, pos};
ghost use Rattle.std.specs.List.{range_with_len};
ghost use Rattle.emtp_case.specs.Branch.{origin};
ghost use Rattle.emtp_case.specs.held.Branch.{HasLineNumbers, IsCharacteristic, IsSegment, IsTrio};
ghost use Rattle.emtp_case.specs.held.Case.{DefinesEach};
ghost use Rattle.emtp_case.specs.held.Control.{AreTimes, FollowsInTable, FollowsInTime, IsTable, var_of};
ghost use Rattle.emtp_case.specs.StepRecord.{StepRecord, latest, record_back};
ghost use Rattle.emtp_case.specs.declared.control.Block.{Block};
ghost use Rattle.emtp_case.specs.declared.source.Source.{Source};

use crate::branch::{Point, Trio};
use crate::case::Parts;
use crate::run_data::RunData;

/// Where the TACS sources, the blocks and the supplemental cards number their variables one after another from 6 on,
/// each variable is defined once.
pub fn defined_in_turn(parts: &Parts)
    ensures { (sources blocks extras : ℕ)
        → map (λ (s : Source). s.node) parts.now.tacs_sources ≡ range_with_len 6 sources
        → map (λ (b : Block). b.var) parts.now.blocks ≡ range_with_len (6 + sources) blocks
        → map var_of parts.now.extras ≡ range_with_len (6 + (sources + blocks)) extras
        → 6 + (sources + blocks + extras) ≡ length parts.now.vars → DefinesEach parts.now }
{}

/// One more point of a characteristic.
pub fn one_more_point(reactor: bool, dt: i64, points: &[Point], p: Point)
    requires points { IsCharacteristic reactor dt points.now }
    requires last { IsSegment reactor dt (slice_index_or (origin ∷ points.now) (length points.now) origin) p }
    ensures { IsCharacteristic reactor dt (points.now ++ p ∷ []) }
{}

/// One more point of a table.
pub fn one_more_in_table(points: &[Point], p: Point)
    requires points { IsTable points.now }
    requires next { FollowsInTable points.now p }
    ensures { IsTable (points.now ++ p ∷ []) }
{}

/// One more pair of times.
pub fn one_more_pair(points: &[Point], p: Point)
    requires points { AreTimes points.now }
    requires next { FollowsInTime points.now p }
    ensures { AreTimes (points.now ++ p ∷ []) }
{}

/// A three-phase line of two modes.
pub fn two_modes(run: &RunData, modes: &Trio)
    requires zero { HasLineNumbers run.now.dt (slice_index_or modes.now.zc 0 (pos 0))
        (slice_index_or modes.now.r 0 (pos 0)) (slice_index_or modes.now.delay 0 (pos 0)) }
    requires positive { HasLineNumbers run.now.dt (slice_index_or modes.now.zc 1 (pos 0))
        (slice_index_or modes.now.r 1 (pos 0)) (slice_index_or modes.now.delay 1 (pos 0)) }
    ensures { IsTrio run.now modes.now }
{}

/// The last of some records is the one before a record that follows them.
pub fn one_back()
    ensures { (r : StepRecord) (records : List StepRecord) → record_back (r ∷ records) 1 ≡ latest records }
{}
