// The doors of tables of names.
ghost use Rattle.std.specs.Prelude.{◌≡◌, ◌<◌, not, true, slice_get, IfOk, OnErr, OnOk, Some};
ghost use Rattle.indexmap.specs.IndexSet.{IsUnchanged as IsUnchangedSet, contains, index_set_len, insert_index, insert_key, Updates as UpdatesSet};

use crate::edge::{NoRoom, ask_set};
use indexmap::IndexSet;
use std::hash::Hash;

/// Adds a key at the end where it isn't there yet, and answers whether it was added.
pub fn insert<T: Eq + Hash + Drop>(set: &mut IndexSet<T>, key: T) -> Result<bool, NoRoom>
    ensures keys { OnOk result (set.new.keys ≡ insert_key T.eq set.old.keys key) }
    ensures updates { OnOk result (UpdatesSet T.eq set.old set.new key true) }
    ensures added { IfOk result (λ added. added ≡ not (contains T.eq set.old key)) }
    ensures err { OnErr result (IsUnchangedSet set.old set.new) }
{
    ask_set(set)?;
    Ok(set.insert(key).unwrap())
}

/// Adds a key as `insert` does, and answers its place with whether it was added.
pub fn insert_full<T: Eq + Hash + Drop>(
    set: &mut IndexSet<T>,
    key: T,
) -> Result<(usize, bool), NoRoom>
    ensures added { IfOk result (λ r. r.1 ≡ not (contains T.eq set.old key)) }
    ensures updates { OnOk result (UpdatesSet T.eq set.old set.new key true) }
    ensures keys { IfOk result (λ r. set.new.keys ≡ insert_key T.eq set.old.keys key) }
    ensures index { IfOk result (λ r. r.0 ≡ insert_index T.eq set.old key) }
    ensures within { IfOk result (λ r. r.0 < index_set_len set.new) }
    ensures stored { IfOk result (λ r. (k : T) × (slice_get set.new.keys r.0 ≡ Some k) × (T.eq key k ≡ true)) }
    ensures err { OnErr result (IsUnchangedSet set.old set.new) }
{
    ask_set(set)?;
    Ok(set.insert_full(key).unwrap())
}
