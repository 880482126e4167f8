use im_octet::octets::Octets;
use im_sqlmodel::written::Written;
use std::alloc::{AllocError, Global};
use std::collections::BTreeMap;
use std::marker::Model;

/// What a statement writes so far, one value or a deletion for each key. A clause sees the list of it, by rising key.
#[derive(Drop)]
pub(crate) struct Writes {
    entries: BTreeMap<Vec<u8>, Option<Octets>>,
}

impl Model for Writes {
    ghost use Rattle.std.specs.Prelude.{List, map};
    ghost use Rattle.im_sqlmodel.specs.declared.written.Written.{Written};

    ghost Value = { List Written };

    ghost view = { λ w. map (λ e. record { key = e.0.items; value = e.1 }) w.entries.entries };
}

impl Writes {
    ghost use Rattle.std.specs.Prelude.{◌≡◌, [], length, IfOk, OnOk, OnErr};
    ghost use Rattle.std.specs.Option.{option_copied};
    ghost use Rattle.im_sqlmodel.specs.Writes.{put_written, put_all};
    ghost use Rattle.im_sql.specs.Writing.{written_at};

    /// Nothing so far. It takes no memory.
    pub(crate) fn new(alloc: Global) -> Self
        ensures { result ≡ [] }
    {
        Writes {
            entries: BTreeMap::new(alloc),
        }
    }

    /// The number of keys.
    pub(crate) fn len(&self) -> usize
        ensures { result ≡ length self.now }
    {
        self.entries.len()
    }

    /// What is written at a key: nothing, or its value, or that it is deleted.
    pub(crate) fn get(&self, key: &[u8]) -> Option<&Option<Octets>>
        ensures { option_copied result ≡ written_at self.now key.now }
    {
        self.entries.get(key)
    }

    /// Puts it at its key, in the place of what was written there. Where memory is short, nothing is put.
    pub(crate) fn put(&mut self, written: Written) -> Result<(), AllocError>
        ensures ok { OnOk result (self.new ≡ put_written written self.old) }
        ensures err { OnErr result (self.new ≡ self.old) }
    {
        let Written { key, value } = written;
        self.entries.insert(key.into_vec(), value)?;
        Ok(())
    }

    /// Puts them one after the other. Where memory is short, a part of them may be put.
    pub(crate) fn put_all(&mut self, written: Vec<Written>) -> Result<(), AllocError>
        ensures { OnOk result (self.new ≡ put_all written.items self.old) }
    {
        for one in written {
            self.put(one)?;
        }
        Ok(())
    }

    /// Gives what is written, by rising key. The keys and the values are moved. Its only error is want of memory.
    pub(crate) fn into_list(self, alloc: Global) -> Result<Vec<Written>, AllocError>
        ensures { IfOk result (λ written. written.items ≡ self) }
    {
        let Writes { entries } = self;
        let mut written = Vec::with_capacity(alloc, entries.len())?;
        for (key, value) in entries {
            written.push(Written {
                key: Octets::from_vec(key),
                value,
            })?;
        }
        Ok(written)
    }
}
