use crate::items::LogItem;
use crate::roles::Roles;
use std::collections::LinkedList;

/// The loads of one word.
pub struct Looks {
    /// How many were made.
    pub count: u64,
    /// What the last one gave, or 0.
    pub last: u64,
}

/// The loads of each word.
pub struct AllLooks {
    /// Of the word placed.
    pub placed: Looks,
    /// Of the word durable.
    pub durable: Looks,
    /// Of the word linked.
    pub linked: Looks,
    /// Of the word indexed.
    pub indexed: Looks,
    /// Of the word failed.
    pub failed: Looks,
}

/// The least numbers that a pass knows: each word is no less.
pub struct Least {
    /// How many transactions are durable at least.
    pub durable: u64,
    /// How many are linked at least.
    pub linked: u64,
    /// How many are indexed at least.
    pub indexed: u64,
    /// How many calls of the disk have failed at least.
    pub failed: u64,
}

/// What a pass knows and has done. It exists in contracts alone: no value of it is made.
pub struct View {
    /// The front part of the list that it has seen.
    pub seen: LinkedList<LogItem>,
    /// Another front part, which `join` has taken over and not compared yet. It is empty between calls.
    pub told: LinkedList<LogItem>,
    /// Numbers which `join` has taken over and not compared yet. They are 0 between calls.
    pub told_least: Least,
    /// The numbers of the transactions that it placed, and that passes joined into it had placed.
    pub own: LinkedList<u64>,
    /// The least numbers that it knows.
    pub least: Least,
    /// The words that it may move.
    pub roles: Roles,
    /// Its share of 1,048,576. A pass with none has placed, linked and told nothing.
    pub weight: u64,
    /// How many leaves it linked, with those joined into it.
    pub leaves: u64,
    /// How many failures it told, with those joined into it.
    pub faults: u64,
    /// The loads that it made.
    pub looks: AllLooks,
}
