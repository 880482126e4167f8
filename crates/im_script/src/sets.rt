ghost use Rattle.std.specs.Prelude.{IfOk};
ghost use Rattle.im_text.specs.Finds.{Finds};
ghost use Rattle.im_script.specs.Script.{AreAsked, AreFields};

use crate::fields::{first_field, read_field};
use crate::pres::read_pres;
use im_draft::drafts::Drafts;
use im_draft::preconditions::Pres;
use im_text::cuts::after;
use std::alloc::{AllocError, Global};

// The drafts of fields, each behind one space.
fn read_fields(alloc: Global, text: &[u8]) -> Result<Option<Drafts>, AllocError>
    ensures { IfOk result (λ drafts. Finds drafts (AreFields text.now)) }
{
    let mut drafts = Vec::new(alloc);
    let mut rest = text;
    while let Some(fields) = after(rest, b" ") {
        let (field, behind) = first_field(fields);
        let Some(draft) = read_field(alloc, field)? else {
            return Ok(None);
        };
        drafts.push(draft).map_err(AllocError::from)?;
        rest = behind;
    }
    if !rest.is_empty() {
        return Ok(None);
    }
    Ok(Some(Drafts::from_vec(drafts)))
}

// What a set asks for: preconditions as long as fields are, then drafts to the end.
pub(crate) fn read_asked(alloc: Global, text: &[u8]) -> Result<Option<(Pres, Drafts)>, AllocError>
    ensures { IfOk result (λ asked. Finds asked (λ a. AreAsked text.now a.0 a.1)) }
{
    let (pres, rest) = read_pres(alloc, text)?;
    let Some(drafts) = read_fields(alloc, rest)? else {
        return Ok(None);
    };
    Ok(Some((Pres::from_vec(pres), drafts)))
}
