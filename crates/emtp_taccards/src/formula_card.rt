//! The cards of formulas.

ghost use Rattle.std.specs.Prelude.{◌≡◌, ◌≤◌, length, Err, Ok, IfErr, IfOk};
ghost use Rattle.emtp_expr.specs.Parsing.{expression_of};
ghost use Rattle.emtp_taccards.specs.FormulaCard.{equals_field, expression_by, expression_text, fields_of, formula_card};
ghost use Rattle.emtp_taccards.specs.held.FormulaCard.{IsParsed};

use crate::group::head;
use emtp_card::{Bad, Fault, Line, MAX_BYTES, Refused, Why, byte_at, columns, in_column};
use emtp_case::{Group, Name};
use emtp_expr::{ExprFault, Parsed, parse};
use emtp_netcards::{both, card_on};
use std::alloc::Global;

/// The card of a formula.
#[derive(Drop)]
pub struct FormulaCard {
    /// The number of its line, from 1.
    pub line: u32,
    /// The name of its variable.
    pub name: Name,
    /// When it is computed.
    pub group: Group,
    /// Its expression.
    pub parsed: Parsed,
}

/// Reads a formula.
pub(crate) fn formula(alloc: Global, line: &Line<'_>) -> Result<FormulaCard, Refused>
    requires { length line.now.bytes.now ≤ MAX_BYTES }
    ensures ok { IfOk result
        (λ card. formula_card line.now.number line.now.bytes.now (expression_of (expression_text line.now.bytes.now))
        ≡ Ok card) }
    ensures bad { (bad : Bad) → result ≡ Err (Refused.Bad bad)
        → formula_card line.now.number line.now.bytes.now
        (expression_of (expression_text line.now.bytes.now)) ≡ Err bad }
    ensures numbers { IfOk result (λ card. IsParsed card.parsed) }
{
    let parsed = match parse(alloc, expression_text(line.bytes)) {
        Ok(parsed) => Ok(parsed),
        Err(ExprFault::Column(column)) => Err(column),
        Err(ExprFault::NoMemory) => return Err(Refused::NoMemory),
    };
    match formula_of(line, parsed) {
        Ok(card) => Ok(card),
        Err(bad) => Err(Refused::Bad(bad)),
    }
}

/// Columns 12 to 80.
fn expression_text(line: &[u8]) -> &[u8]
    ensures text { result.now ≡ expression_text line.now }
    ensures short { length result.now ≤ 69 }
{
    columns(line, 12, 80)
}

/// The card of a formula whose expression was read, or refused in a column of its own.
#[tactic(auto, unfolding(crate::specs::FormulaCard::formula_card))]
fn formula_of(line: &Line<'_>, parsed: Result<Parsed, u32>) -> Result<FormulaCard, Bad>
    requires short { length line.now.bytes.now ≤ MAX_BYTES }
    requires column { IfErr parsed (λ column. column ≤ 70) }
    requires parsed { IfOk parsed IsParsed }
    ensures value { result ≡ formula_card line.now.number line.now.bytes.now parsed }
    ensures numbers { IfOk result (λ card. IsParsed card.parsed) }
{
    let head = card_on(line, fields(line.bytes))?;
    with_expression(line.number, head, parsed)
}

/// Group and name, which the sign = follows.
#[tactic(auto, unfolding(crate::specs::FormulaCard::fields_of))]
fn fields(line: &[u8]) -> Result<(Group, Name), Fault>
    ensures { result ≡ fields_of line.now }
{
    let (head, ()) = both(head(line), in_column(11, equals(line)))?;
    Ok(head)
}

fn equals(line: &[u8]) -> Result<(), Why>
    ensures { result ≡ equals_field line.now }
{
    if byte_at(line, 11) == b'=' {
        Ok(())
    } else {
        Err(Why::BadExpression)
    }
}

fn with_expression(
    number: u32,
    head: (Group, Name),
    parsed: Result<Parsed, u32>,
) -> Result<FormulaCard, Bad>
    requires column { IfErr parsed (λ column. column ≤ 70) }
    requires parsed { IfOk parsed IsParsed }
    ensures value { result ≡ expression_by number head parsed }
    ensures numbers { IfOk result (λ card. IsParsed card.parsed) }
{
    let (group, name) = head;
    match parsed {
        Ok(parsed) => Ok(FormulaCard {
            line: number,
            name,
            group,
            parsed,
        }),
        Err(column) => {
            let fault = Fault {
                column: 11 + column,
                why: Why::BadExpression,
            };
            Err(fault.on_line(number))
        }
    }
}
