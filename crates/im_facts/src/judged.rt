use crate::copies::Copies;
use crate::taken::Taken;

// A message that was judged, before anything is put in.
#[derive(Drop)]
pub(crate) struct Judged {
    // The answer to it.
    pub(crate) taken: Taken,
    // Copies of what it adds, where it is accepted and isn't old.
    pub(crate) copies: Option<Copies>,
}
