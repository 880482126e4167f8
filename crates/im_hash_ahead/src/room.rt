ghost use Rattle.std.specs.Prelude.{◌≡◌, []};

use std::alloc::Global;

/// A vector of nothing, with room for so many where memory is there.
pub(crate) fn room_for<T>(alloc: Global, count: usize) -> Vec<T>
    ensures { result.items ≡ [] }
{
    match Vec::with_capacity(alloc, count) {
        Ok(items) => items,
        Err(_) => Vec::new(alloc),
    }
}
