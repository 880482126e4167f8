//! Keys that are looked for, and the comparisons of them with the keys of versions, each of which takes a step.

ghost use Rattle.std.specs.Prelude.{◌≡◌, ◌+◌};
ghost use Rattle.im_versions.specs.Versions.{begins_with, is_of};
ghost use Rattle.im_index.specs.Marks.{is_upto};

use crate::steps::Steps;
use im_versions::versions::Version;
use std::cmp::Ordering;
use std::marker::Model;
use std::sync::ledger::Ledger;

/// A key that is looked for, or what such keys begin with. Nothing lends its octets, so it can only be compared by the
/// calls of this type, and each of them takes one step. A clause sees the octets.
#[derive(Drop)]
pub(crate) struct Sought<'k> {
    octets: &'k [u8],
}

impl<'k> Model for Sought<'k> {
    ghost use Rattle.std.specs.Prelude.{ℕ, List};

    ghost Value = { List ℕ };

    ghost view = { λ s. s.octets.now };
}

// Whether a version stands at most at this key and number.
fn stands_upto(version: &Version, key: &[u8], n: u64) -> bool
    ensures { result ≡ is_upto key.now n version.now }
{
    match version.key.as_slice().cmp(key) {
        Ordering::Less => true,
        Ordering::Equal => version.tx <= n,
        Ordering::Greater => false,
    }
}

// Whether a version is one of this key.
fn has_key(version: &Version, key: &[u8]) -> bool
    ensures { result ≡ is_of key.now version.now }
{
    version.key.as_slice() == key
}

// Whether a version's key begins with a prefix.
fn has_prefix(version: &Version, prefix: &[u8]) -> bool
    ensures { result ≡ begins_with prefix.now version.now.key }
{
    version.key.as_slice().starts_with(prefix)
}

impl<'k> Sought<'k> {
    ghost use Rattle.std.specs.Prelude.{◌≡◌, ◌+◌};
    ghost use Rattle.im_versions.specs.Versions.{begins_with, is_of};
    ghost use Rattle.im_index.specs.Marks.{is_upto};

    /// These octets.
    pub(crate) fn new(octets: &'k [u8]) -> Self
        ensures { result ≡ octets.now }
    {
        Sought { octets }
    }

    /// Whether a version stands at most at this key and number: one step.
    pub(crate) fn is_upto<L: Ledger>(&self, version: &Version, n: u64, steps: &mut Steps<L>) -> bool
        ensures value { result ≡ is_upto self.now n version.now }
        ensures cost { steps.new ≡ steps.old + 1 }
    {
        steps.tick();
        stands_upto(version, self.octets, n)
    }

    /// Whether a version is one of this key: one step.
    pub(crate) fn is_of<L: Ledger>(&self, version: &Version, steps: &mut Steps<L>) -> bool
        ensures value { result ≡ is_of self.now version.now }
        ensures cost { steps.new ≡ steps.old + 1 }
    {
        steps.tick();
        has_key(version, self.octets)
    }

    /// Whether a version's key begins with this: one step.
    pub(crate) fn begins<L: Ledger>(&self, version: &Version, steps: &mut Steps<L>) -> bool
        ensures value { result ≡ begins_with self.now version.now.key }
        ensures cost { steps.new ≡ steps.old + 1 }
    {
        steps.tick();
        has_prefix(version, self.octets)
    }
}
