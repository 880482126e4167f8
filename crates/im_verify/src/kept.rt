ghost use Rattle.std.specs.Prelude.{◌≡◌, ◌+◌, ℕ, Err, IfOk, IsTrue, ◌↔◌};
ghost use Rattle.im_facts.specs.Facts.{Known};
ghost use Rattle.im_facts.specs.Keeping.{IsLed, Knows};
ghost use Rattle.im_verify.specs.Judged.{StopsKept};
ghost use Rattle.im_verify.specs.Turns.{IsRejection, TakesKept};

use im_digest::Hash32;
use im_facts::clients::FactClient;
use im_facts::taken::Taken;
use im_octet::octets::Octets;
use std::alloc::{AllocError, Global};

/// Why kept lines weren't taken.
#[derive(Clone, Copy)]
pub(crate) enum KeptError {
    /// Memory ran out.
    Memory,
    /// The number, from 1, of the first kept line that is refused or forked.
    Line(u64),
}

impl From<AllocError> for KeptError {
    ghost use Rattle.im_verify.specs.declared.kept.KeptError.TheVariants.{Memory};

    ghost from_gives = { λ _ error. error ≡ Memory };

    fn from(_: AllocError) -> Self {
        KeptError::Memory
    }
}

// Whether a line was refused or forked.
fn is_rejected(taken: &Option<Taken>) -> bool
    ensures { IsTrue result ↔ IsRejection taken.now }
{
    matches!(
        taken,
        Some(Taken::Refused { .. }) | Some(Taken::Forked { .. })
    )
}

/// The client behind kept lines, from knowing nothing on, or the first of them that is refused or forked. It keeps places in
/// these lines.
pub(crate) fn take_kept<'h, 'l, H: Hash32>(
    alloc: Global,
    hash: &'h H,
    lines: &'l [Octets],
) -> Result<FactClient<'h, 'l, H>, KeptError>
    ensures ok { IfOk result (λ client. (known : Known) × Knows client.kept known × TakesKept (H.digest hash.now) lines.now known) }
    ensures led { IfOk result (λ client. IsLed (H.digest client.hash) client.kept) }
    ensures hash { IfOk result (λ client. client.hash ≡ hash.now) }
    ensures line { (k : ℕ) → result ≡ Err (KeptError.Line k) → (n : ℕ) × (k ≡ n + 1) × StopsKept (H.digest hash.now) lines.now n }
{
    let mut client = FactClient::new(alloc, hash);
    for (i, line) in lines.iter().enumerate() {
        let taken = match client.take_line(alloc, line.as_slice()) {
            Ok(taken) => taken,
            Err(error) => {
                drop(client);
                return Err(KeptError::from(error));
            }
        };
        if is_rejected(&taken) {
            drop(client);
            drop(taken);
            return Err(KeptError::Line(i as u64 + 1));
        }
        drop(taken);
    }
    Ok(client)
}
