ghost use Rattle.im_forge.specs.Same.{IsCompared};

use im_octet::octets::Octets;

/// Whether two things that one digest was shown for are equal.
#[derive(Drop)]
pub enum Same {
    /// They are.
    Equal,
    /// They aren't: these are two unequal strings of one digest.
    Pair { x: Octets, y: Octets },
}

/// Whether two strings are equal; if not, both are handed back. It takes no memory.
pub fn compared(x: Octets, y: Octets) -> Same
    ensures { IsCompared x y result }
{
    if x.as_slice() == y.as_slice() {
        return Same::Equal;
    }
    Same::Pair { x, y }
}
