ghost use Rattle.std.specs.Prelude.{◌≡◌, ◌≤◌, ◌⊎◌, length, All, IfErr, IfOk, OnOk};
ghost use Rattle.im_draft.specs.Drafts.{HaveDistinctKeys, IsFine, Refuses};
ghost use Rattle.im_draft.specs.declared.refusals.PrepareError.TheVariants.{Memory};
ghost use Rattle.im_octet.specs.Places.{place_in, PutsPlace};

use im_draft::drafts::Draft;
use im_draft::refusals::PrepareError;
use std::alloc::{AllocError, Global};
use std::collections::BTreeMap;

// Tests that no two keys are equal, and finds the first key that stood earlier. Each key is looked up among
// those before it.
pub(crate) fn check_distinct(alloc: Global, drafts: &[Draft]) -> Result<(), PrepareError>
    requires few { length drafts.now ≤ 1024 }
    requires each { All IsFine drafts.now }
    ensures ok { OnOk result (HaveDistinctKeys drafts.now) }
    ensures err { IfErr result (λ e. (e ≡ Memory) ⊎ Refuses drafts.now e) }
{
    let mut places = BTreeMap::new(alloc);
    for (place, draft) in drafts.iter().enumerate() {
        let j = place as u32;
        if let Some(i) = put(&mut places, draft.key.as_slice(), j)? {
            return Err(PrepareError::Twice { i, j });
        }
    }
    Ok(())
}

// Puts a key at place j, and gives the place at which it stood.
fn put<'d>(
    places: &mut BTreeMap<&'d [u8], u32>,
    key: &'d [u8],
    j: u32,
) -> Result<Option<u32>, AllocError>
    ensures earlier { IfOk result (λ earlier. earlier ≡ place_in places.old key.now) }
    ensures after { OnOk result (PutsPlace places.old places.new key.now j) }
{
    Ok(places.insert(key, j)?)
}
