ghost use Rattle.std.specs.Prelude.{◌≡◌, List};
ghost use Rattle.im_draft.specs.Drafts.{AreEntries, Refuses};
ghost use Rattle.im_draft.specs.declared.drafts.Draft.{Draft};
ghost use Rattle.im_draft.specs.declared.refusals.PrepareError.{PrepareError};

/// Drafts that are the entries of a transaction are never refused.
pub fn refused_or_not()
    ensures { (drafts : List Draft) (e : PrepareError) → AreEntries drafts → Refuses drafts e → ⊥ }
{}

/// Drafts have one refusal at most.
pub fn one_refusal()
    ensures { (drafts : List Draft) (a b : PrepareError) → Refuses drafts a → Refuses drafts b → a ≡ b }
{}
