// The nets near another one: those of the same frame from which its value comes.
ghost use Rattle.std.specs.Prelude.{◌≡◌, ◌<◌, ◌≤◌, length, All};
ghost use Rattle.circuit.specs.Circuit.{Circuit};
ghost use Rattle.circuit.specs.Sound.{IsNet};
ghost use Rattle.region_search.specs.Going.{ArePlaced};

use crate::search::TablePlace;
use crate::truth::place_of;
use crate::watch::Watchers;
use circuit::parts::NetId;

/// The most nets near another one, itself among them.
pub(crate) const MOST: usize = 24;

/// A net and those near it, the nearest first.
#[derive(Clone, Copy)]
pub(crate) struct Near {
    pub(crate) nets: [NetId; 24],
    /// How many they are; behind these are nets anyhow.
    pub(crate) count: usize,
    pub ghost few: { count ≤ 24 },
}

impl Near {
    // One net more, where there is room for it and it isn't there.
    fn add(&mut self, net: NetId)
        ensures { (c : Circuit) → All (IsNet c) self.old.nets → IsNet c net → All (IsNet c) self.new.nets }
    {
        if self.count == MOST {
            return;
        }
        if place_of(&self.nets[..self.count], net).is_some() {
            return;
        }
        self.nets[self.count] = net;
        self.count += 1;
    }

    // Some nets more.
    fn add_all(&mut self, nets: &[NetId])
        ensures { (c : Circuit) → All (IsNet c) self.old.nets → All (IsNet c) nets.now → All (IsNet c) self.new.nets }
    {
        for net in nets {
            self.add(*net);
        }
    }

    // The nets that the table of a net reads, if it has one, and it reads few.
    fn add_reads(&mut self, watchers: &Watchers, tables: &[TablePlace], net: NetId)
        requires placed { ArePlaced watchers.now tables.now }
        requires nets { All (IsNet watchers.now.circuit) self.old.nets }
        requires net { IsNet watchers.now.circuit net }
        ensures { All (IsNet watchers.now.circuit) self.new.nets }
    {
        let Some(place) = watchers.table_of(net) else {
            return;
        };
        let table = tables[place];
        if table.count > 6 {
            return;
        }
        self.add_all(&table.reads[..table.count]);
    }

    // The nets that the tables of these read, and those that their tables read, and so on.
    fn widen(&mut self, watchers: &Watchers, tables: &[TablePlace])
        requires placed { ArePlaced watchers.now tables.now }
        requires nets { All (IsNet watchers.now.circuit) self.old.nets }
        ensures { All (IsNet watchers.now.circuit) self.new.nets }
    {
        for at in 0..MOST {
            if at == self.count {
                return;
            }
            let next = self.nets[at];
            self.add_reads(watchers, tables, next);
        }
    }
}

/// A net and those near it, in the order in which its table reads them, then those that their tables read, and so on.
pub(crate) fn nets_near(watchers: &Watchers, tables: &[TablePlace], net: NetId) -> Near
    requires placed { ArePlaced watchers.now tables.now }
    requires net { IsNet watchers.now.circuit net }
    ensures { All (IsNet watchers.now.circuit) result.nets }
{
    let mut near = Near {
        nets: [net; 24],
        count: 1,
    };
    near.widen(watchers, tables);
    near
}
