use std::alloc::{AllocError, Global};
use std::collections::BTreeMap;
use std::marker::Model;

/// The keys of a record's entries so far, all different, to find whether a key was used before. They are lent,
/// and not copied. A clause sees the list of them.
#[derive(Drop)]
pub struct Keys<'a> {
    order: Vec<&'a [u8]>,
    numbers: BTreeMap<&'a [u8], u64>,
}

impl<'a> Model for Keys<'a> {
    ghost use Rattle.std.specs.Prelude.{ℕ, List};
    ghost use Rattle.im_record.specs.Keys.{AreNumbered, lent};

    ghost Value = { List (List ℕ) };

    ghost view = { λ s. lent s.order.items };

    ghost invariant = { λ s. AreNumbered (lent s.order.items) s.numbers };
}

impl<'a> Keys<'a> {
    ghost use Rattle.std.specs.Prelude.{◌≡◌, [], ◌∷◌, ◌++◌, length, OnOk, OnErr};
    ghost use Rattle.im_format.specs.Damages.{index_of};
    ghost use Rattle.im_record.specs.Keys.{key_number};

    /// No keys. It takes no memory.
    pub fn new(alloc: Global) -> Self
        ensures { result ≡ [] }
    {
        Keys {
            order: Vec::new(alloc),
            numbers: BTreeMap::new(alloc),
        }
    }

    // The number of keys.
    pub(crate) fn len(&self) -> u64
        ensures { result ≡ length self.now }
    {
        self.order.len() as u64
    }

    // The number of a key, from 0, where it is among them.
    pub(crate) fn number_of(&self, key: &[u8]) -> Option<u64>
        ensures { result ≡ key_number self.now key.now }
    {
        self.numbers.get(key).copied()
    }

    // Adds a key that isn't among them. Where memory is short, none is added.
    pub(crate) fn add(&mut self, key: &'a [u8]) -> Result<(), AllocError>
        requires { index_of key.now self.old ≡ length self.old }
        ensures ok { OnOk result (self.new ≡ self.old ++ key.now ∷ []) }
        ensures err { OnErr result (self.new ≡ self.old) }
    {
        let number = self.order.len() as u64;
        self.order.reserve(1)?;
        match self.numbers.insert(key, number) {
            Ok(_) => {
                self.order.push_reserved(key);
                Ok(())
            }
            Err(error) => Err(AllocError::from(error)),
        }
    }
}
