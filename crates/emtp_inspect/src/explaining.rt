//! What words of a note mean.

ghost use Rattle.std.specs.Prelude.{◌≡◌, ◌∷◌, IfOk, Some, None, option_map};
ghost use Rattle.emtp_inspect.specs.Asking.{explained};
ghost use Rattle.emtp_run.specs.Words.{texts};

use emtp_causes::{put_end, put_field, put_item, put_misfit, unsolved};
use emtp_text::put;
use std::alloc::{AllocError, Global};

/// What words mean that name no case: behind `--misfit` why words are no command of `emtp`, else what words of a note mean:
/// `--unsolved REASON`, why a case has no steady state; `--item ROW NUMBER`, why an item of a table is refused;
/// `--field LINE NUMBER CAUSE`, how a line of a record differs; `--ended CAUSE STEP NAME`, what an early end means, of a steady
/// state with an empty STEP. Nothing where the words are none of these.
pub(crate) fn explained(alloc: Global, words: &[String]) -> Result<Option<Vec<u8>>, AllocError>
    ensures { IfOk result (λ found. option_map (λ text. text.items) found ≡ explained (texts words.now)) }
{
    match words {
        [] => Ok(None),
        [first, behind @ ..] => explained_behind(alloc, first.as_str(), behind),
    }
}

/// What words mean behind a first one.
fn explained_behind(
    alloc: Global,
    first: &str,
    behind: &[String],
) -> Result<Option<Vec<u8>>, AllocError>
    ensures { IfOk result (λ found. option_map (λ text. text.items) found ≡ explained (first.now ∷ texts behind.now)) }
{
    let mut text = Vec::new(alloc);
    match behind {
        words if first == "--misfit" => put_misfit(&mut text, words)?,
        [reason] if first == "--unsolved" => put(&mut text, unsolved(reason.as_bytes()))?,
        [row, number] if first == "--item" => {
            put_item(&mut text, row.as_bytes(), number.as_bytes())?
        }
        [cause, step, name] if first == "--ended" => {
            put_end(
                &mut text,
                cause.as_bytes(),
                step.as_bytes(),
                name.as_bytes(),
            )?
        }
        [line, number, cause] if first == "--field" => {
            put_field(
                &mut text,
                line.as_bytes(),
                number.as_bytes(),
                cause.as_bytes(),
            )?
        }
        _ => return Ok(None),
    }
    Ok(Some(text))
}
