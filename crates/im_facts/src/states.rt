ghost use Rattle.std.specs.Prelude.{◌≡◌, IfSome, option_copied, option_map};
ghost use Rattle.im_model.specs.Headers.{alh};
ghost use Rattle.im_facts.specs.Copies.{followed};

use im_digest::{D32, Hash32};
use im_header::alh;
use im_model::headers::Header;

// A header that is kept as the state, and its Alh.
#[derive(Drop)]
pub(crate) struct State {
    pub(crate) header: Header,
    pub(crate) alh: D32,
}

// The header of a state, if there is one.
pub(crate) fn header_of(state: &Option<State>) -> Option<&Header>
    ensures { option_copied result ≡ option_map (λ kept. kept.header) state.now }
{
    match state {
        Some(kept) => Some(&kept.header),
        None => None,
    }
}

// The next state becomes the kept one, if there is a next one, and is hashed.
pub(crate) fn follow<H: Hash32>(hash: &H, state: &mut Option<State>, next: Option<Header>)
    requires { IfSome state.old (λ kept. kept.alh ≡ alh (H.digest hash.now) kept.header) }
    ensures header { option_map (λ kept. kept.header) state.new ≡ followed (option_map (λ kept. kept.header) state.old) next }
    ensures hashed { IfSome state.new (λ kept. kept.alh ≡ alh (H.digest hash.now) kept.header) }
{
    if let Some(header) = next {
        let alh = alh(hash, &header);
        *state = Some(State { header, alh });
    }
}
