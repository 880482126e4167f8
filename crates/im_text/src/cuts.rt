//! Cutting a text at a mark, behind a prefix and into lines: what readers of grammars share.

ghost use Rattle.std.specs.Prelude.{◌≡◌, ◌++◌, ◌<◌, List, ℕ, length, IfSome, IfNone};
ghost use Rattle.im_text.specs.Cuts.{Lacks, IsCut};
ghost use Rattle.im_text.specs.Lines.{IsFirstText};

/// The text before the first mark and that behind it, or `None` where there is no mark.
pub fn cut(text: &[u8], mark: u8) -> Option<(&[u8], &[u8])>
    ensures some { IfSome result (λ parts. IsCut mark text.now parts.0.now parts.1.now) }
    ensures none { IfNone result (Lacks mark text.now) }
{
    for (i, octet) in text.iter().enumerate() {
        if *octet == mark {
            return Some((&text[..i], &text[i + 1..]));
        }
    }
    None
}

/// What follows a prefix, or `None` where the text doesn't begin with it.
pub fn after<'t>(text: &'t [u8], prefix: &[u8]) -> Option<&'t [u8]>
    ensures some { IfSome result (λ rest. text.now ≡ prefix.now ++ rest.now) }
    ensures none { IfNone result ((rest : List ℕ) → text.now ≡ prefix.now ++ rest → ⊥) }
{
    if text.starts_with(prefix) {
        Some(&text[prefix.len()..])
    } else {
        None
    }
}

/// The text of the first line, without its LF, and what stands behind it. The last line may lack its LF.
pub fn first_line(octets: &[u8]) -> (&[u8], &[u8])
    requires { 0 < length octets.now }
    ensures first { IsFirstText octets.now result.0.now result.1.now }
    ensures shorter { length result.1.now < length octets.now }
{
    match cut(octets, b'\n') {
        Some(parts) => parts,
        None => (octets, &[]),
    }
}
