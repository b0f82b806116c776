//! The names of the transactions that were opened.
ghost use Rattle.std.specs.Prelude.{◌≡◌, ◌<◌, [], length, slice_get, OnOk};
ghost use Rattle.std.specs.Option.{option_copied};
ghost use Rattle.upi_base.specs.Lists.{joined};

use std::alloc::Global;
use std::marker::Model;
use upi_base::{NoMemory, TxnId};

/// The names of the transactions that were opened, in their order. Contracts see them, and for how
/// many more there is room.
#[derive(Drop)]
pub(crate) struct Opened {
    list: Vec<TxnId>,
}

impl Model for Opened {
    ghost use Rattle.std.specs.Prelude.{◌-◌, vec_len, vec_capacity};
    ghost use Rattle.core_shards.specs.Tables.{Names};

    ghost Value = { Names };

    ghost view = { λ o. record { names = o.list.items; spare = vec_capacity o.list - vec_len o.list } };
}

impl Opened {
    /// No name. It takes no memory.
    pub(crate) fn new(alloc: Global) -> Opened
        ensures { result.names ≡ [] }
    {
        Opened {
            list: Vec::new(alloc),
        }
    }

    /// Makes room for a name more. It fails only for want of memory, and changes nothing but room.
    pub(crate) fn reserve(&mut self) -> Result<(), NoMemory>
        ensures ok { OnOk result (0 < self.new.spare) }
        ensures same { self.new.names ≡ self.old.names }
    {
        self.list.reserve(1)?;
        Ok(())
    }

    /// Adds a name, if there is one, behind the others. It takes no memory.
    pub(crate) fn add(&mut self, name: Option<&TxnId>)
        requires { 0 < self.old.spare }
        ensures { self.new.names ≡ joined self.old.names (option_copied name.entry) }
    {
        if let Some(name) = name {
            self.list.push_reserved(name.copy());
        }
    }

    /// How many names there are.
    pub(crate) fn len(&self) -> usize
        ensures { result ≡ length self.now.names }
    {
        self.list.len()
    }

    /// The name at a place, the first at 0, if there are so many.
    pub(crate) fn get(&self, place: usize) -> Option<&TxnId>
        ensures { option_copied result ≡ slice_get self.now.names place }
    {
        self.list.get(place)
    }
}
