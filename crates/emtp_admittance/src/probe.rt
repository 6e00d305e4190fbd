//! Which cases can be scanned.

ghost use Rattle.std.specs.Prelude.{◌≡◌, ◌≤◌, length, IfOk, OnOk};
ghost use Rattle.emtp_admittance.specs.Probes.{branch_barred, card_barred, is_plain_cosine, is_probe, judged_probe, probe_by, probe_in, scanned_by};
ghost use Rattle.emtp_admittance.specs.held.Probes.{IsProbe};
ghost use Rattle.emtp_admittance.specs.Refusals.{least_refusal};
ghost use Rattle.emtp_admittance.specs.declared.limit.TheConstants.{MOST_PHASOR_NODES};

use crate::impedance::barring_reason;
use crate::limit::MOST_PHASOR_NODES;
use crate::refusal::{Refusal, Refused, least_refusal, refused_in, sooner};
use crate::refusals::{control_cards, least_switch};
use emtp_case::{Branch, Case, Shape, Source};

/// The one source of a scan: a cosine current source without phase. The impedance that it sees is the voltage of its node
/// over its amplitude.
#[derive(Clone, Copy, Debug, PartialEq, Eq)]
pub struct Probe {
    /// The node of the source.
    pub node: u32,
    /// Its amplitude in nA, above 0.
    pub amplitude: i64,
}

fn is_plain_cosine(shape: Shape) -> bool
    ensures { result ≡ is_plain_cosine shape }
{
    match shape {
        Shape::Cosine { phase, .. } => phase == 0,
        _ => false,
    }
}

fn is_probe(s: &Source) -> bool
    ensures { result ≡ is_probe s.now }
{
    s.current && is_plain_cosine(s.shape) && s.amplitude > 0
}

fn probe_by(s: &Source) -> Option<Probe>
    ensures { result ≡ probe_by s.now }
{
    if is_probe(s) {
        Some(Probe {
            node: s.node,
            amplitude: s.amplitude,
        })
    } else {
        None
    }
}

fn probe_in(sources: &[Source]) -> Option<Probe>
    ensures { result ≡ probe_in sources.now }
{
    if sources.len() == 1 {
        probe_by(&sources[0])
    } else {
        None
    }
}

fn branch_barred(branch: &Branch) -> Option<Refused>
    ensures { result ≡ branch_barred branch.now }
{
    refused_in(branch.line(), barring_reason(branch))
}

/// The first branch that no frequency makes good.
fn least_barred(case: &Case) -> Option<Refused>
    ensures { result ≡ least_refusal branch_barred case.now.parts.branches }
{
    least_refusal(case.parts.branches.as_slice(), |b| branch_barred(b))
}

fn card_barred(case: &Case) -> Option<Refused>
    ensures { result ≡ card_barred case.now.parts }
{
    sooner(
        control_cards(case),
        sooner(least_switch(case), least_barred(case)),
    )
}

fn scanned_by(case: &Case, probe: Option<Probe>) -> Result<Probe, Refused>
    ensures { result ≡ scanned_by case.now.parts probe }
{
    match probe {
        None => Err(Refused {
            line: 1,
            reason: Refusal::Probe,
        }),
        Some(probe) => match card_barred(case) {
            Some(refused) => Err(refused),
            None => Ok(probe),
        },
    }
}

/// The source of a scan, or the refusal that decides: first the size, then the source, then the card of the least line
/// that no frequency makes good. This project's own.
#[tactic(auto, unfolding(crate::specs::Probes::judged_probe))]
pub fn judged_probe(case: &Case) -> Result<Probe, Refused>
    ensures value { result ≡ judged_probe case.now.parts }
    ensures probe { IfOk result (IsProbe case.now.parts) }
    ensures few { OnOk result (length case.now.parts.nodes ≤ MOST_PHASOR_NODES) }
{
    if case.parts.nodes.len() > MOST_PHASOR_NODES {
        return Err(Refused {
            line: 1,
            reason: Refusal::Size,
        });
    }
    scanned_by(case, probe_in(case.parts.sources.as_slice()))
}
