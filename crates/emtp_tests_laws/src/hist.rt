//! The last values of one quantity.

ghost use Rattle.std.specs.Prelude.{◌≡◌, ℤ, ◌<◌, List, ◌∷◌};
ghost use Rattle.emtp_hist.specs.History.{value_before};
ghost use Rattle.emtp_hist.specs.held.History.{Remembers};

use emtp_hist::History;
use std::test::Fail;

/// Takes the newest value and answers the one of so many steps before.
fn delayed(history: &mut History, value: i64, steps: usize) -> i64
    requires { steps < history.old.depth }
    ensures depth { history.new.depth ≡ history.old.depth }
    ensures past { (pushes : List ℤ) → Remembers history.old pushes → Remembers history.new (value ∷ pushes) }
    ensures answer { (pushes : List ℤ) → Remembers history.old pushes → result ≡ value_before (value ∷ pushes) steps }
{
    history.push(value);
    history.back(steps)
}

/// What a quantity of depth 2 answers before its first value and after each of four.
fn answers(history: &mut History) -> [i64; 5]
    requires { history.old.depth ≡ 2 }
{
    [
        history.back(0),
        delayed(history, 10, 1),
        delayed(history, -20, 1),
        delayed(history, 30, 0),
        delayed(history, 40, 1),
    ]
}

#[test]
fn looks_back_over_the_last_pushes(rt: HostRuntime) -> Result<(), Fail> {
    let mut history = History::open(rt.alloc(), 2)?;
    let found = answers(&mut history);
    drop(history);
    assert_eq!(rt; found, [0, 0, 10, 30, 30]);
    Ok(())
}
