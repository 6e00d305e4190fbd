//! The two-ports of all branches at a frequency, and which card is refused at it.

ghost use Rattle.std.specs.Option.{ForSome};
ghost use Rattle.std.specs.Prelude.{◌≡◌, ◌≤◌, All, Ok, length, IfOk, OnOk};
ghost use Rattle.emtp_fix.specs.Chain.{unless};
ghost use Rattle.emtp_admittance.specs.declared.limit.TheConstants.{MOST_PHASOR_NODES};
ghost use Rattle.emtp_admittance.specs.held.Admittances.{IsSmallPort};
ghost use Rattle.emtp_admittance.specs.held.Frequency.{IsFrequency};
ghost use Rattle.emtp_admittance.specs.held.Numbers.{HasPortNumbers};
ghost use Rattle.emtp_admittance.specs.Impedance.{port_of, port_or_none, ports_of};
ghost use Rattle.emtp_admittance.specs.Refusals.{branch_refused, judged_frequency, least_branch, least_refused};

use crate::admittance::{NO_PORT, TwoPort};
use crate::impedance::branch_port;
use crate::limit::MOST_PHASOR_NODES;
use crate::refusal::{Refusal, Refused, refused_in, sooner};
use crate::refusals::{control_cards, first_frequency, least_source, least_switch};
use emtp_case::{Branch, Case};
use emtp_wave::CosTable;

/// The two-port of a branch, and why it has none.
fn judged_port(table: &CosTable, freq: i64, b: &Branch) -> (TwoPort, Option<Refused>)
    requires freq { IsFrequency freq }
    requires numbers { HasPortNumbers b.now }
    ensures port { result.0 ≡ port_or_none (port_of freq b.now) }
    ensures small { IsSmallPort result.0 }
    ensures refused { result.1 ≡ branch_refused freq b.now }
{
    match branch_port(table, freq, b) {
        Ok(port) => (port, None),
        Err(reason) => (NO_PORT, refused_in(b.line(), Some(reason))),
    }
}

/// Puts the two-port of each branch in its place, and answers the first refused branch.
fn put_ports(table: &CosTable, case: &Case, freq: i64, out: &mut [TwoPort]) -> Option<Refused>
    requires freq { IsFrequency freq }
    requires out { length out.old ≡ length case.now.parts.branches }
    ensures refused { result ≡ least_branch case.now.parts freq }
    ensures ports { out.new ≡ ports_of case.now.parts freq }
    ensures small { All IsSmallPort out.new }
{
    let cards = case.parts.branches.as_slice();
    let mut best = None;
    for at in 0..cards.len() {
        let (port, refused) = judged_port(table, freq, &cards[at]);
        out[at] = port;
        best = sooner(best, refused);
    }
    best
}

/// The frequency of the steady state (micro-hertz) and the two-ports of all branches at it (pS, one a branch), or the
/// refusal that decides: at the given frequency (micro-hertz), or where none is given at that of the case's sources. Each
/// branch is looked at once, for both. This project's own.
#[tactic(auto, unfolding(crate::specs::Refusals::judged_frequency))]
pub fn judged_ports(
    table: &CosTable,
    case: &Case,
    given: Option<i64>,
    out: &mut [TwoPort],
) -> Result<i64, Refused>
    requires given { ForSome given IsFrequency }
    requires out { length out.old ≡ length case.now.parts.branches }
    ensures value { result ≡ judged_frequency case.now.parts given }
    ensures range { IfOk result IsFrequency }
    ensures few { OnOk result (length case.now.parts.nodes ≤ MOST_PHASOR_NODES) }
    ensures ports { IfOk result (λ found. out.new ≡ ports_of case.now.parts found) }
    ensures small { OnOk result (All IsSmallPort out.new) }
{
    if case.parts.nodes.len() > MOST_PHASOR_NODES {
        return Err(Refused {
            line: 1,
            reason: Refusal::Size,
        });
    }
    match given {
        Some(freq) => judged_at(table, case, freq, None, out),
        None => match first_frequency(case.parts.sources.as_slice()) {
            Some(freq) => judged_at(table, case, freq, Some(freq), out),
            None => Err(Refused {
                line: 1,
                reason: Refusal::NoSource,
            }),
        },
    }
}

/// The same at a frequency that the sources have, where they are asked for one.
fn judged_at(
    table: &CosTable,
    case: &Case,
    freq: i64,
    asked: Option<i64>,
    out: &mut [TwoPort],
) -> Result<i64, Refused>
    requires freq { IsFrequency freq }
    requires out { length out.old ≡ length case.now.parts.branches }
    ensures value { result ≡ unless (least_refused case.now.parts freq asked) (λ refused. refused) (Ok freq) }
    ensures range { IfOk result IsFrequency }
    ensures ports { IfOk result (λ found. out.new ≡ ports_of case.now.parts found) }
    ensures small { OnOk result (All IsSmallPort out.new) }
{
    let branch = put_ports(table, case, freq, out);
    let source = least_source(case, asked);
    match sooner(
        control_cards(case),
        sooner(least_switch(case), sooner(branch, source)),
    ) {
        Some(refused) => Err(refused),
        None => Ok(freq),
    }
}
