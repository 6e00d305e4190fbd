//! Which card of a case is refused, whatever its branches.

ghost use Rattle.std.specs.Prelude.{◌≡◌};
ghost use Rattle.emtp_admittance.specs.Refusals.{control_cards, control_line, control_refused, first_frequency, frequency_in, is_cosine, kind_refused, least_source, least_switch, source_refused, switch_refused};

use crate::refusal::{Refusal, Refused, least_refusal, sooner};
use emtp_case::{Case, Extra, Shape, Source, Switch, SwitchKind};

fn is_cosine(asked: Option<i64>, shape: Shape) -> bool
    ensures { result ≡ is_cosine asked shape }
{
    match shape {
        Shape::Cosine { freq, .. } => match asked {
            Some(asked) => freq == asked,
            None => true,
        },
        _ => false,
    }
}

fn source_refused(asked: Option<i64>, s: &Source) -> Option<Refused>
    ensures { result ≡ source_refused asked s.now }
{
    if is_cosine(asked, s.shape) {
        None
    } else {
        Some(Refused {
            line: s.line,
            reason: Refusal::Source,
        })
    }
}

/// The first refused source.
pub(crate) fn least_source(case: &Case, asked: Option<i64>) -> Option<Refused>
    ensures { result ≡ least_source case.now.parts asked }
{
    least_refusal(case.parts.sources.as_slice(), |s| source_refused(asked, s))
}

fn kind_refused(line: u32, kind: SwitchKind) -> Option<Refused>
    ensures { result ≡ kind_refused line kind }
{
    match kind {
        SwitchKind::Time { .. } | SwitchKind::Measuring => None,
        SwitchKind::Valve { .. } | SwitchKind::Control { .. } => Some(Refused {
            line,
            reason: Refusal::Switch,
        }),
    }
}

fn switch_refused(s: &Switch) -> Option<Refused>
    ensures { result ≡ switch_refused s.now }
{
    kind_refused(s.line, s.kind)
}

/// The first refused switch.
pub(crate) fn least_switch(case: &Case) -> Option<Refused>
    ensures { result ≡ least_switch case.now.parts }
{
    least_refusal(case.parts.switches.as_slice(), |s| switch_refused(s))
}

fn control_refused(line: u32) -> Option<Refused>
    ensures { result ≡ control_refused line }
{
    Some(Refused {
        line,
        reason: Refusal::Control,
    })
}

fn extra_line(x: &Extra) -> u32
    ensures { result ≡ control_line x.now }
{
    match x {
        Extra::Device(x) => x.line,
        Extra::Formula(x) => x.line,
    }
}

/// The first card of the control, which no frequency makes good.
pub(crate) fn control_cards(case: &Case) -> Option<Refused>
    ensures { result ≡ control_cards case.now.parts }
{
    let source = least_refusal(
        case.parts.tacs_sources.as_slice(),
        |s| control_refused(s.line),
    );
    let block = least_refusal(case.parts.blocks.as_slice(), |b| control_refused(b.line));
    let extra = least_refusal(
        case.parts.extras.as_slice(),
        |x| control_refused(extra_line(x)),
    );
    sooner(source, sooner(block, extra))
}

fn frequency_in(shape: Shape) -> Option<i64>
    ensures { result ≡ frequency_in shape }
{
    match shape {
        Shape::Cosine { freq, .. } => { if freq == 0 { None } else { Some(freq) } }
        _ => None,
    }
}

/// The first frequency of a source that isn't 0.
pub(crate) fn first_frequency(sources: &[Source]) -> Option<i64>
    ensures { result ≡ first_frequency sources.now }
{
    for s in sources {
        if let Some(freq) = frequency_in(s.shape) {
            return Some(freq);
        }
    }
    None
}
