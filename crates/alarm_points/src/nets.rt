// The names of a netlist's nets, looked up where they stand.
ghost use Rattle.std.specs.Prelude.{◌≡◌, ◌<◌, [], length, position, IfSome, OnOk};
ghost use Rattle.std.specs.Str.{bytes_eq};
ghost use Rattle.fm_base.specs.Index.{with_name};

use indexmap::IndexSet;
use room::{NoRoom, insert};
use std::alloc::Global;
use std::marker::Model;

/// Names, each once, in order of first appearance, none of which is copied. The number of a name is its place.
#[derive(Drop)]
pub(crate) struct NetNames<'n> {
    names: IndexSet<&'n [u8]>,
}

impl<'n> Model for NetNames<'n> {
    ghost use Rattle.std.specs.Prelude.{List, map};
    ghost use Rattle.fm_base.specs.Names.{Name};

    ghost Value = { List Name };

    ghost view = { λ n. map (λ name. name.now) n.names.keys };
}

impl<'n> NetNames<'n> {
    /// No names yet.
    pub(crate) fn new(alloc: Global) -> Self
        ensures { result ≡ [] }
    {
        NetNames {
            names: IndexSet::new(alloc),
        }
    }

    /// The number of a name, if it is there.
    pub(crate) fn number(&self, name: &[u8]) -> Option<usize>
        ensures value { result ≡ position (bytes_eq name.now) self.now }
        ensures within { IfSome result (λ n. n < length self.now) }
    {
        self.names.get_index_of(name)
    }

    /// Adds a name at the end where it isn't there yet.
    pub(crate) fn insert(&mut self, name: &'n [u8]) -> Result<(), NoRoom>
        ensures { OnOk result (self.new ≡ with_name self.old name.now) }
    {
        insert(&mut self.names, name)?;
        Ok(())
    }
}
