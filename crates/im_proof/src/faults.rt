use im_digest::D32;
use thiserror::Error;

/// Why a header isn't one that this store makes: what was found, and where it may differ what was wanted.
#[derive(Clone, Copy, Debug, PartialEq, Eq, Error)]
pub enum HeaderFault {
    /// The version isn't 1.
    #[error("version {got} isn't 1")]
    Version { got: u16 },
    /// The number of entries is 0, or above 1024.
    #[error("{got} entries are past the bound of {want}")]
    Entries { want: u32, got: u32 },
    /// The tree isn't below the transaction's number.
    #[error("a tree of {bl} isn't below transaction {id}")]
    Tree { id: u64, bl: u64 },
}

/// The first check of a dual proof that fails: what was wanted, and what was found.
#[derive(Clone, Copy, Debug, PartialEq, Eq, Error)]
pub enum DualFault {
    /// Of the source's header.
    #[error("the source's header: {fault}")]
    Source { fault: HeaderFault },
    /// Of the target's header.
    #[error("the target's header: {fault}")]
    Target { fault: HeaderFault },
    /// The source's number is above the target's.
    #[error("source {source} comes after target {target}")]
    Order { source: u64, target: u64 },
    /// The target's tree is smaller than the source's.
    #[error("the target's tree of {target} is smaller than the source's of {source}")]
    Shrink { source: u64, target: u64 },
    /// The path of the source has another number of terms than is due.
    #[error("an inclusion path has {want} terms, and this one has {got}")]
    InclusionLength { want: u64, got: u64 },
    /// The path of the source leads to another root than that of the target's tree.
    #[error("the inclusion path leads to another root")]
    InclusionRoot { want: D32, got: D32 },
    /// The consistency list has another number of terms than is due.
    #[error("a consistency list has {want} terms, and this one has {got}")]
    ConsistencyLength { want: u64, got: u64 },
    /// The consistency list gives another root than that of the source's tree.
    #[error("the consistency list leads to another old root")]
    ConsistencyOld { want: D32, got: D32 },
    /// The consistency list gives another root than that of the target's tree; or both trees have one size,
    /// and not one root.
    #[error("the consistency list leads to another new root")]
    ConsistencyNew { want: D32, got: D32 },
    /// The path of the last Alh in the target's tree has another number of terms than is due.
    #[error("a last path has {want} terms, and this one has {got}")]
    LastLength { want: u64, got: u64 },
    /// The path of the last Alh leads to another root than that of the target's tree.
    #[error("the last path leads to another root")]
    LastRoot { want: D32, got: D32 },
    /// The last Alh in the target's tree is told wrong, where its tree is empty or ends at the source.
    #[error("the tree is told to end at another Alh")]
    BlAlh { want: D32, got: D32 },
    /// There are more or fewer linear terms than are due.
    #[error("there are {want} linear terms, and here are {got}")]
    LinearLength { want: u64, got: u64 },
    /// The first linear term isn't the Alh that the chain starts at.
    #[error("the linear terms start at another transaction")]
    LinearStart { want: D32, got: D32 },
    /// The chain over the linear terms ends elsewhere than at the target's Alh.
    #[error("the linear terms lead to another transaction")]
    LinearEnd { want: D32, got: D32 },
    /// The advance has more or fewer terms than are due.
    #[error("an advance has {want} linear terms, and this one has {got}")]
    AdvanceLength { want: u64, got: u64 },
    /// The advance has more or fewer paths than are due.
    #[error("an advance has {want} paths, and this one has {got}")]
    AdvanceCount { want: u64, got: u64 },
    /// Of the path of transaction `number`.
    #[error("the path of transaction {number} has {want} terms, and this one has {got}")]
    AdvancePathLength { number: u64, want: u64, got: u64 },
    /// Of the path of transaction `number`.
    #[error("the path of transaction {number} leads to another root")]
    AdvancePathRoot { number: u64, want: D32, got: D32 },
    /// The chain over the terms of the advance ends elsewhere than at the source's Alh or the last of the tree.
    #[error("the advance leads to another transaction")]
    AdvanceEnd { want: D32, got: D32 },
}
