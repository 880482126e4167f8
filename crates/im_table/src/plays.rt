// The rule, and what each step tells the pass that makes it.
use crate::items::Opening;
use crate::law::Law;
use crate::view::View;
use atomic_table::{Join, Play, Split, TableRule};
use std::marker::{Brand, PhantomData};

/// The rule of the words and of all views, under a law.
pub struct Ruled<L: Law> {
    law: PhantomData<L>,
}

impl<L: Law> TableRule<(), View, Opening> for Ruled<L> {
    ghost use Rattle.im_table.specs.References.{IsLawful};
    ghost use Rattle.im_table.specs.Rules.{HoldsRule};
    ghost use Rattle.im_table.specs.Views.{opener};

    ghost holds = { λ key. HoldsRule (IsLawful L.allows key.logs) key.found.items };

    ghost first = { λ key. opener key.found.items };
}

/// What a tip was opened with, for a step that tells of it. Each call picks it.
pub trait Origin {
    ghost use Rattle.std.specs.Prelude.{ℕ, List};
    ghost use Rattle.im_table.specs.declared.items.LogItem.{LogItem};

    // What was found.
    ghost found: { List LogItem };

    // The number of value logs.
    ghost logs: { ℕ };
}

impl Origin for Brand {
    ghost use Rattle.std.specs.Prelude.{[]};

    ghost found = { [] };

    ghost logs = { 0 };
}

/// A load of the word placed.
pub struct SeePlaced<L: Law, O: Origin> {
    law: PhantomData<L>,
    of: PhantomData<O>,
}

impl<L: Law, O: Origin> Play<(), View> for SeePlaced<L, O> {
    ghost use Rattle.std.specs.Prelude.{◌≡◌};
    ghost use Rattle.im_table.specs.References.{IsLawful};
    ghost use Rattle.im_table.specs.Rules.{SeesPlaced};

    ghost then = { λ s v n w. SeesPlaced (IsLawful L.allows O.logs) v.0 n w.0 × (w.1 ≡ v.1) };
}

/// A load of the word durable.
pub struct SeeDurable;

impl Play<(), View> for SeeDurable {
    ghost use Rattle.std.specs.Prelude.{◌≡◌};
    ghost use Rattle.im_table.specs.Rules.{Loads};
    ghost use Rattle.im_table.specs.Views.{looked_durable};

    ghost then = { λ s v n w. ((w.0 ≡ looked_durable v.0 n) × Loads v.0.roles.journal v.0.least.durable n) × (w.1 ≡ v.1) };
}

/// A load of the word linked.
pub struct SeeLinked;

impl Play<(), View> for SeeLinked {
    ghost use Rattle.std.specs.Prelude.{◌≡◌};
    ghost use Rattle.im_table.specs.Rules.{Loads};
    ghost use Rattle.im_table.specs.Views.{looked_linked};

    ghost then = { λ s v n w. ((w.0 ≡ looked_linked v.0 n) × Loads v.0.roles.tree v.0.least.linked n) × (w.1 ≡ v.1) };
}

/// A load of the word indexed.
pub struct SeeIndexed;

impl Play<(), View> for SeeIndexed {
    ghost use Rattle.std.specs.Prelude.{◌≡◌};
    ghost use Rattle.im_table.specs.Rules.{Loads};
    ghost use Rattle.im_table.specs.Views.{looked_indexed};

    ghost then = { λ s v n w. ((w.0 ≡ looked_indexed v.0 n) × Loads v.0.roles.index v.0.least.indexed n) × (w.1 ≡ v.1) };
}

/// A load of the word failed.
pub struct SeeFailed;

impl Play<(), View> for SeeFailed {
    ghost use Rattle.std.specs.Prelude.{◌≡◌};
    ghost use Rattle.im_table.specs.Rules.{Loads};
    ghost use Rattle.im_table.specs.Views.{looked_failed};

    ghost then = { λ s v n w. ((w.0 ≡ looked_failed v.0 n) × Loads v.0.roles.journal v.0.least.failed n) × (w.1 ≡ v.1) };
}

/// A load of the word placed, behind a join: it compares the two front parts and the numbers of the view.
pub struct Comparing;

impl Play<(), View> for Comparing {
    ghost use Rattle.std.specs.Prelude.{◌≡◌};
    ghost use Rattle.im_table.specs.Rules.{Compares};

    ghost then = { λ s v n w. Compares v.0 n w.0 × (w.1 ≡ v.1) };
}

/// Which transaction is placed. Each call picks it.
pub trait Added {
    ghost use Rattle.im_table.specs.declared.items.LogItem.{LogItem};

    ghost item: { LogItem };
}

impl Added for Brand {
    ghost use Rattle.im_table.specs.Known.{no_item};

    ghost item = { no_item };
}

/// A store of the word placed.
pub struct Adding<J: Added> {
    of: PhantomData<J>,
}

impl<J: Added> Play<(), View> for Adding<J> {
    ghost use Rattle.std.specs.Prelude.{◌≡◌};
    ghost use Rattle.im_table.specs.Views.{added};

    ghost then = { λ s v n w. (w.0 ≡ added v.0 J.item) × (w.1 ≡ v.1) };
}

/// A store of the word durable.
pub struct Settling;

impl Play<(), View> for Settling {
    ghost use Rattle.std.specs.Prelude.{◌≡◌};
    ghost use Rattle.im_table.specs.Views.{view_settled};

    ghost then = { λ s v n w. (w.0 ≡ view_settled v.0 n) × (w.1 ≡ v.1) };
}

/// A store of the word linked.
pub struct Linking;

impl Play<(), View> for Linking {
    ghost use Rattle.std.specs.Prelude.{◌≡◌};
    ghost use Rattle.im_table.specs.Views.{linked_to};

    ghost then = { λ s v n w. (w.0 ≡ linked_to v.0 n) × (w.1 ≡ v.1) };
}

/// A store of the word indexed.
pub struct Indexing;

impl Play<(), View> for Indexing {
    ghost use Rattle.std.specs.Prelude.{◌≡◌};
    ghost use Rattle.im_table.specs.Views.{indexed_to};

    ghost then = { λ s v n w. (w.0 ≡ indexed_to v.0 n) × (w.1 ≡ v.1) };
}

/// A store of the word failed.
pub struct Failing;

impl Play<(), View> for Failing {
    ghost use Rattle.std.specs.Prelude.{◌≡◌};
    ghost use Rattle.im_table.specs.Views.{failed_once};

    ghost then = { λ s v n w. (w.0 ≡ failed_once v.0) × (w.1 ≡ v.1) };
}

/// What is split off. Each call picks it.
pub trait Cut {
    ghost use Rattle.std.specs.Prelude.{ℕ};
    ghost use Rattle.im_table.specs.declared.roles.Roles.{Roles};

    ghost roles: { Roles };

    ghost weight: { ℕ };
}

impl Cut for Brand {
    ghost use Rattle.im_table.specs.Views.{no_roles};

    ghost roles = { no_roles };

    ghost weight = { 0 };
}

/// A pass is split in two.
pub struct Cutting<J: Cut> {
    of: PhantomData<J>,
}

impl<J: Cut> Split<View> for Cutting<J> {
    ghost use Rattle.im_table.specs.Views.{left_of, right_of};

    ghost left = { left_of J.roles J.weight };

    ghost right = { right_of J.roles J.weight };
}

/// A pass takes another in.
pub struct Joining;

impl Join<View> for Joining {
    ghost use Rattle.im_table.specs.Views.{together, spent};

    ghost both = { together };

    ghost spent = { spent };
}

/// A load of the word placed by the pass that has the role of the book: it tells what the whole weight tells.
pub struct Closing<L: Law, O: Origin> {
    law: PhantomData<L>,
    of: PhantomData<O>,
}

impl<L: Law, O: Origin> Play<(), View> for Closing<L, O> {
    ghost use Rattle.std.specs.Prelude.{◌≡◌};
    ghost use Rattle.im_table.specs.References.{IsLawful};
    ghost use Rattle.im_table.specs.Rules.{Closes};

    ghost then = { λ s v n w. Closes (IsLawful L.allows O.logs) O.found v.0 n w.0 × (w.1 ≡ v.1) };
}
