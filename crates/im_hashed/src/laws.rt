//! What holds of the definitions. The function does nothing, and its contract is the law.

ghost use Rattle.im_wire.specs.Fits.{IsHeader, IsEntryInRange, IsDualProof};
ghost use Rattle.im_model.specs.declared.headers.Header.{Header};
ghost use Rattle.im_model.specs.declared.entries.Entry.{Entry};
ghost use Rattle.im_proof.specs.declared.proofs.DualProof.{DualProof};
ghost use Rattle.im_model.specs.Entries.{EntryFits};
ghost use Rattle.im_pairs.specs.Ranges.{HeaderFits};
ghost use Rattle.im_carried.specs.Hashed.{DualFits};

/// What the types say of the parts of a message is what the strings that are hashed for them rest on.
pub fn what_is_shown_fits()
    ensures header { (header : Header) → IsHeader header → HeaderFits header }
    ensures entry { (entry : Entry) → IsEntryInRange entry → EntryFits entry }
    ensures dual { (dual : DualProof) → IsDualProof dual → DualFits dual }
{}
