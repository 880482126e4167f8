use im_digest::D32;
use thiserror::Error;

/// Why a path isn't one from a leaf to a root: what was wanted, and what was found.
#[derive(Clone, Copy, Debug, PartialEq, Eq, Error)]
pub enum PathFault {
    /// The leaf's index, from 0, isn't below the tree's width.
    #[error("leaf {got} is no leaf of {width}")]
    Index { width: u32, got: u32 },
    /// The path has another number of terms than that of each path of the leaf.
    #[error("a path has {want} terms, and this one has {got}")]
    Length { want: u64, got: u64 },
    /// The path leads to another root.
    #[error("the path leads to the root {got:?} and not to {want:?}")]
    Root { want: D32, got: D32 },
}
