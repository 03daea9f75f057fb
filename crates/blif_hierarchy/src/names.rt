// Names that stand in a file, each once.
ghost use Rattle.std.specs.Prelude.{◌≡◌, [], not, IfOk, OnErr, OnOk, map};
ghost use Rattle.fm_base.specs.Names.{is_one_of};
ghost use Rattle.fm_base.specs.Index.{with_name};

use indexmap::IndexSet;
use room::{NoRoom, insert};
use std::alloc::Global;
use std::marker::Model;

/// Names of a file, each once, in order of first appearance. No byte is copied.
#[derive(Drop)]
pub struct NameSet<'a> {
    names: IndexSet<&'a [u8]>,
}

impl<'a> Model for NameSet<'a> {
    ghost use Rattle.std.specs.Prelude.{List, map};
    ghost use Rattle.fm_base.specs.Names.{Name};

    ghost Value = { List Name };

    ghost view = { λ s. map (λ name. name.now) s.names.keys };
}

impl<'a> NameSet<'a> {
    /// No names yet.
    pub fn new(alloc: Global) -> Self
        ensures { result ≡ [] }
    {
        NameSet {
            names: IndexSet::new(alloc),
        }
    }

    /// The names in their order.
    pub fn names(&self) -> &[&'a [u8]]
        ensures { map (λ name. name.now) result.now ≡ self.now }
    {
        self.names.as_slice()
    }

    /// Whether a name is there.
    #[tactic(auto, using(crate::proofs::Bindings::name_steps))]
    pub fn contains(&self, name: &[u8]) -> bool
        ensures { result ≡ is_one_of self.now name.now }
    {
        self.names.contains(name)
    }

    /// Adds a name at the end where it isn't there yet, and answers whether it was added.
    pub fn insert(&mut self, name: &'a [u8]) -> Result<bool, NoRoom>
        ensures names { OnOk result (self.new ≡ with_name self.old name.now) }
        ensures added { IfOk result (λ added. added ≡ not (is_one_of self.old name.now)) }
        ensures err { OnErr result (self.new ≡ self.old) }
    {
        if self.contains(name) {
            return Ok(false);
        }
        insert(&mut self.names, name)?;
        Ok(true)
    }
}
