//! Preconditions, judged against a book whose index of keys is brought up before.

ghost use Rattle.std.specs.Prelude.{◌≡◌, ◌<◌, ◌≤◌, ◌+◌, ◌*◌, ◌⊎◌, ℕ, [], None, Some, length, IfErr, OnOk};
ghost use Rattle.im_versions.specs.Admits.{place_refusal};
ghost use Rattle.im_versions.specs.Versions.{all_versions};
ghost use Rattle.im_index.specs.Runs.{HasDigits};

use im_book::book::Book;
use im_draft::preconditions::Pres;
use im_index::steps::Steps;
use im_versions::refusals::PlaceError;
use std::alloc::Global;
use std::marker::Brand;
use std::sync::ledger::{Blank, Ledger};

/// Judges preconditions against all transactions of a book. Where there are some, its index of keys is brought to the last
/// transaction before: each key that it lacks is copied, once in all. Then each precondition costs, with b the number of
/// binary digits of the number of versions, at most b * (b + 1) comparisons of keys.
///
/// # Errors
///
/// What `Book::judge` answers, and `Memory`. Whatever the answer is, the book's lists are as they were.
pub(crate) fn judge_over(alloc: Global, book: &mut Book, pres: Pres) -> Result<(), PlaceError>
    requires few { length book.old.transactions ≤ 1048576 }
    ensures same { (book.new.transactions ≡ book.old.transactions) × (book.new.headers ≡ book.old.headers) × (book.new.alhs ≡ book.old.alhs) }
    ensures admitted { OnOk result (place_refusal book.old.transactions pres ≡ None) }
    ensures refused { IfErr result (λ why. (why ≡ PlaceError.Memory) ⊎ (place_refusal book.old.transactions pres ≡ Some why)) }
    ensures room { OnOk result (length book.old.transactions < 1048576) }
    ensures keyed { OnOk result ((pres ≡ []) ⊎ (book.new.keyed ≡ length book.new.transactions)) }
{
    judge_for::<Brand>(alloc, book, pres, Blank::new(1))
}

// Judges preconditions, with a count that nobody reads.
fn judge_for<L: Ledger>(
    alloc: Global,
    book: &mut Book,
    pres: Pres,
    blank: Blank,
) -> Result<(), PlaceError>
    requires few { length book.old.transactions ≤ 1048576 }
    requires name { blank.name ≡ L.name }
    requires parts { blank.parts ≡ L.parts }
    requires some { 0 < blank.parts }
    ensures same { (book.new.transactions ≡ book.old.transactions) × (book.new.headers ≡ book.old.headers) × (book.new.alhs ≡ book.old.alhs) }
    ensures admitted { OnOk result (place_refusal book.old.transactions pres ≡ None) }
    ensures refused { IfErr result (λ why. (why ≡ PlaceError.Memory) ⊎ (place_refusal book.old.transactions pres ≡ Some why)) }
    ensures room { OnOk result (length book.old.transactions < 1048576) }
    ensures keyed { OnOk result ((pres ≡ []) ⊎ (book.new.keyed ≡ length book.new.transactions)) }
{
    judge_counted(alloc, book, pres, &mut Steps::<L>::new(blank))
}

// Judges preconditions, and counts the comparisons of their keys with those of the index.
fn judge_counted<L: Ledger>(
    alloc: Global,
    book: &mut Book,
    pres: Pres,
    steps: &mut Steps<L>,
) -> Result<(), PlaceError>
    requires few { length book.old.transactions ≤ 1048576 }
    ensures same { (book.new.transactions ≡ book.old.transactions) × (book.new.headers ≡ book.old.headers) × (book.new.alhs ≡ book.old.alhs) }
    ensures admitted { OnOk result (place_refusal book.old.transactions pres ≡ None) }
    ensures refused { IfErr result (λ why. (why ≡ PlaceError.Memory) ⊎ (place_refusal book.old.transactions pres ≡ Some why)) }
    ensures room { OnOk result (length book.old.transactions < 1048576) }
    ensures keyed { OnOk result ((pres ≡ []) ⊎ (book.new.keyed ≡ length book.new.transactions)) }
    ensures cost { (b : ℕ) → HasDigits b (length (all_versions book.old.transactions)) → steps.new ≤ steps.old + length pres * (b * (b + 1)) }
{
    if pres.as_slice().is_empty() {
        book.judge(pres)?;
        return Ok(());
    }
    book.catch_up(alloc)?;
    book.judge_steps(pres, steps)?;
    Ok(())
}
