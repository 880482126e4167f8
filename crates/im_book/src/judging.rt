//! Preconditions, judged against placed transactions.

ghost use Rattle.std.specs.Prelude.{◌≡◌, ◌≤◌, ◌+◌, ◌*◌, ℕ, true, false, length, None, Some, IfErr, OnOk};
ghost use Rattle.im_versions.specs.Admits.{holds, first_refusal, refusal_of};
ghost use Rattle.im_versions.specs.Versions.{all_versions};
ghost use Rattle.im_index.specs.Runs.{HasDigits};

use crate::keyed::KeyedList;
use im_draft::preconditions::{Pre, Pres};
use im_index::steps::Steps;
use im_versions::refusals::PlaceError;
use std::sync::ledger::Ledger;

/// Judges preconditions against placed transactions, in the order given, up to the first that doesn't hold. Where their
/// index has them all, it counts the comparisons of keys: with b the number of binary digits of the number of versions,
/// at most b * (b + 1) for each precondition.
pub(crate) fn judge_each<L: Ledger>(
    placed: &KeyedList,
    pres: Pres,
    steps: &mut Steps<L>,
) -> Result<(), PlaceError>
    ensures admitted { OnOk result (first_refusal placed.now.transactions pres ≡ None) }
    ensures refused { IfErr result (λ why. first_refusal placed.now.transactions pres ≡ Some why) }
    ensures cost { placed.now.keyed ≡ length placed.now.transactions → (b : ℕ) → HasDigits b (length (all_versions placed.now.transactions))
        → steps.new ≤ steps.old + length pres * (b * (b + 1)) }
{
    for pre in pres.into_vec() {
        judge_one(placed, pre, steps)?;
    }
    Ok(())
}

// Judges a precondition. Its key is moved into the refusal.
fn judge_one<L: Ledger>(
    placed: &KeyedList,
    pre: Pre,
    steps: &mut Steps<L>,
) -> Result<(), PlaceError>
    ensures admitted { OnOk result (holds placed.now.transactions pre ≡ true) }
    ensures refused { IfErr result (λ why. (holds placed.now.transactions pre ≡ false) × (refusal_of placed.now.transactions pre ≡ why)) }
    ensures cost { placed.now.keyed ≡ length placed.now.transactions → (b : ℕ) → HasDigits b (length (all_versions placed.now.transactions))
        → steps.new ≤ steps.old + b * (b + 1) }
{
    match pre {
        Pre::Exists { key } => match placed.last(key.as_slice(), steps) {
            Some(last) if !last.deleted => Ok(()),
            _ => Err(PlaceError::Missing { key }),
        },
        Pre::Missing { key } => match placed.last(key.as_slice(), steps) {
            Some(last) if !last.deleted => Err(PlaceError::Exists { key, tx: last.tx }),
            _ => Ok(()),
        },
        Pre::Since { key, n } => match placed.last(key.as_slice(), steps) {
            Some(last) if n < last.tx => Err(PlaceError::Modified { key, tx: last.tx }),
            _ => Ok(()),
        },
    }
}
