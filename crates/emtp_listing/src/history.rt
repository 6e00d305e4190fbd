//! How many history values a case needs.

ghost use Rattle.std.specs.List.{sum_by};
ghost use Rattle.std.specs.Prelude.{◌≡◌};
ghost use Rattle.emtp_case.specs.held.Case.{IsCase};
ghost use Rattle.emtp_case.specs.held.Control.{IsExtra};
ghost use Rattle.emtp_case.specs.HistoryValues.{branch_history_values, extra_history_values, history_values_of, trio_history_values};
ghost use Rattle.emtp_case.specs.held.RunData.{IsTimeStep};
ghost use Rattle.emtp_case.specs.held.Sizes.{sizes_of};

use emtp_case::{Extra, Parts};

/// How many past values the lines and devices of a case need.
pub(crate) fn history_values(parts: &Parts) -> u64
    requires { IsCase parts.now }
    ensures { result ≡ history_values_of parts.now }
{
    branch_values(parts) + trio_values(parts) + extra_values(parts)
}

fn branch_values(parts: &Parts) -> u64
    requires { IsCase parts.now }
    ensures { result ≡ sum_by (branch_history_values parts.now.run.dt) parts.now.branches }
{
    let mut count = 0;
    for branch in parts.branches.as_slice() {
        count += branch.history_values(parts.run.dt);
    }
    count
}

fn trio_values(parts: &Parts) -> u64
    requires { IsCase parts.now }
    ensures { result ≡ sum_by (trio_history_values parts.now.run.dt) parts.now.trios }
{
    let mut count = 0;
    for trio in parts.trios.as_slice() {
        count += trio.history_values(parts.run.dt);
    }
    count
}

fn extra_values(parts: &Parts) -> u64
    requires { IsCase parts.now }
    ensures { result ≡ sum_by (extra_history_values parts.now.run.dt) parts.now.extras }
{
    let mut count = 0;
    for extra in parts.extras.as_slice() {
        count += values_of(parts, extra);
    }
    count
}

/// Those of a supplemental card.
fn values_of(parts: &Parts, extra: &Extra) -> u64
    requires run { IsTimeStep parts.now.run.dt }
    requires card { IsExtra (sizes_of parts.now) parts.now.points extra.now }
    ensures { result ≡ extra_history_values parts.now.run.dt extra.now }
{
    match extra {
        Extra::Device(device) => device.history_values(parts.run.dt),
        Extra::Formula(_) => 0,
    }
}
