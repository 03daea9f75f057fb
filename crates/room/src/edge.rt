// THE EDGE: want of memory, and the calls of the kit that have told of it. Only this file makes a `NoRoom`, and each of its calls of
// `refused` stands in the arm of an `Err` that the kit's call has answered. No clause can say so, since the kit says nothing of why an
// `Err` comes; each clause says all that the kit does.
ghost use Rattle.std.specs.Prelude.{◌≡◌, ◌≢◌, ◌≤◌, ◌<◌, ◌+◌, true, false, List, ℕ, [], length, map, replicate, None, string_bytes, IfErr, IfOk, OnErr, OnOk, IsOk};
ghost use Rattle.std.specs.Borrow.{Bor};
ghost use Rattle.std.specs.Iterator.{Drains, IsFinite};
ghost use Rattle.std.specs.Iterator.Runs.{WholeRun};
ghost use Rattle.std.specs.Vec.{vec_len, vec_capacity};
ghost use Rattle.indexmap.specs.IndexSet.{IsUnchanged as IsUnchangedSet, spare as set_spare};
ghost use Rattle.indexmap.specs.IndexMap.{IsUnchanged, spare};
ghost use Rattle.csv.specs.Reading.{ReadRecord, Ready, is_flexible, reader_trim, took_first};
ghost use Rattle.csv.specs.Records.{fields_of};
ghost use Rattle.csv.specs.declared.reader.Trim.TheVariants as trim;
ghost use Rattle.clap.specs.Built.{AddsArg, AddsSubcommand, MeetsSubcommandOf};
ghost use Rattle.clap.specs.Faults.{fault_of, is_simple_and_free};
ghost use Rattle.clap.specs.Kinds.{FailsBy};
ghost use Rattle.clap.specs.Simple.{HasMatchesOf, app_of};
ghost use Rattle.clap.specs.Values.{kind_of};
ghost use Rattle.clap.specs.declared.builder.command.Command.TheViews.{out-Command};
ghost use Rattle.clap.specs.declared.error.kind.ErrorKind.TheVariants.{OutOfMemory};
ghost use Rattle.atomic_table.specs.Table.{opening};
ghost use Rattle.room.specs.Refused.{WasRefused, WasRefused-prop};

use atomic_table::{Seat, Table, TableRule};
use clap::error::ErrorKind;
use clap::{Arg, ArgMatches, Command, Error};
use csv::{ByteRecord, Reader};
use indexmap::{IndexMap, IndexSet};
use std::alloc::Global;
use std::convert::AsStr;
use std::hash::Hash;

/// The allocator has refused a request. Only the edge makes one.
#[derive(Clone, Copy, Debug, PartialEq, Eq)]
pub struct NoRoom {
    sealed: (),
    pub ghost why: { WasRefused } by { WasRefused-prop },
}

impl NoRoom {
    fn refused() -> NoRoom {
        NoRoom { sealed: () }
    }
}

/// The kit's `Vec::reserve`.
pub fn reserve<T>(v: &mut Vec<T>, more: usize) -> Result<(), NoRoom>
    ensures items { v.new.items ≡ v.old.items }
    ensures len { vec_len v.new ≡ vec_len v.old }
    ensures ok { OnOk result (vec_len v.new + more ≤ vec_capacity v.new) }
    ensures capacity { vec_capacity v.old ≤ vec_capacity v.new }
    ensures full { OnErr result (vec_capacity v.old < vec_len v.old + more) }
{
    match v.reserve(more) {
        Ok(()) => Ok(()),
        Err(_) => Err(NoRoom::refused()),
    }
}

// Sets in order of insertion.
pub(crate) fn ask_set<T: Eq + Hash>(set: &mut IndexSet<T>) -> Result<(), NoRoom>
    ensures same { IsUnchangedSet set.old set.new }
    ensures ok { OnOk result (1 ≤ set_spare set.new) }
    ensures succeeds { 1 ≤ set_spare set.old → IsOk result }
{
    match set.reserve(1) {
        Ok(()) => Ok(()),
        Err(_) => Err(NoRoom::refused()),
    }
}

// Maps in order of insertion.
pub(crate) fn ask_map<K: Eq + Hash, V>(map: &mut IndexMap<K, V>) -> Result<(), NoRoom>
    ensures same { IsUnchanged map.old map.new }
    ensures ok { OnOk result (1 ≤ spare map.new) }
    ensures succeeds { 1 ≤ spare map.old → IsOk result }
{
    match map.reserve(1) {
        Ok(()) => Ok(()),
        Err(_) => Err(NoRoom::refused()),
    }
}

/// The kit's `read_byte_record`, over bytes. There a flexible reader that trims nothing fails for want of memory alone: they cannot
/// fail, a row may have any number of fields, and a field any bytes.
pub fn read_byte_record<'a>(
    reader: &mut Reader<&'a [u8]>,
    row: &mut ByteRecord,
) -> Result<bool, NoRoom>
    requires flexible { is_flexible reader.old ≡ true }
    requires trim { reader_trim reader.old ≡ trim.None }
    ensures flexible { OnOk result (is_flexible reader.new ≡ true) }
    ensures ready { OnOk result (took_first reader.new ≡ true) }
    ensures reads { IfOk result (λ found. Ready reader.old → ReadRecord (λ (rest : Bor (List ℕ)). Some rest.now) reader.old reader.new found (fields_of row.new)) }
{
    match reader.read_byte_record(row) {
        Ok(found) => Ok(found),
        Err(_) => Err(NoRoom::refused()),
    }
}

/// The kit's `collect`, into a vector.
pub fn collect<T: Drop, I: Iterator<Item = T>>(items: I, alloc: Global) -> Result<Vec<T>, NoRoom>
    requires can { I.can_next items }
    requires finite { IsFinite (I.remaining items) }
    ensures ran { IfOk result (λ v. (xs : List T) × Drains I.next_gives items xs × (v.items ≡ xs)) }
    ensures runs { IfOk result (λ v. WholeRun I.next_gives items (λ p. (v.items ≡ p.items) × (vec_len v ≡ length p.items))) }
{
    match items.collect(alloc) {
        Ok(v) => Ok(v),
        Err(_) => Err(NoRoom::refused()),
    }
}

/// The kit's `Vec::from_array`.
pub fn from_array<T: Drop, const N: usize>(alloc: Global, items: [T; N]) -> Result<Vec<T>, NoRoom>
    ensures items { IfOk result (λ v. v.items ≡ items) }
    ensures len { IfOk result (λ v. vec_len v ≡ N) }
{
    match Vec::from_array(alloc, items) {
        Ok(v) => Ok(v),
        Err(_) => Err(NoRoom::refused()),
    }
}

/// The kit's `String::from_str`.
pub fn from_str(alloc: Global, text: &str) -> Result<String, NoRoom>
    ensures ok { IfOk result (λ t. string_bytes t ≡ text.now) }
{
    match String::from_str(alloc, text) {
        Ok(t) => Ok(t),
        Err(_) => Err(NoRoom::refused()),
    }
}

/// The kit's `Command::arg`.
pub fn arg<'a>(command: Command<'a>, arg: Arg<'a>) -> Result<Command<'a>, NoRoom>
    ensures { IfOk result (λ r. AddsArg command.entry arg.entry r) }
{
    match command.arg(arg) {
        Ok(command) => Ok(command),
        Err(_) => Err(NoRoom::refused()),
    }
}

/// The kit's `Command::subcommand`.
pub fn subcommand<'a>(command: Command<'a>, subcommand: Command<'a>) -> Result<Command<'a>, NoRoom>
    ensures { IfOk result (λ r. AddsSubcommand command.entry subcommand.entry r) }
{
    match command.subcommand(subcommand) {
        Ok(command) => Ok(command),
        Err(_) => Err(NoRoom::refused()),
    }
}

/// The kit's `Command::try_get_matches_from`, with want of memory apart from its other errors.
pub fn try_get_matches_from<'a, S: AsStr>(
    command: Command<'a>,
    words: &'a [S],
) -> Result<Result<ArgMatches<'a>, Error>, NoRoom>
    ensures subcommand { IfOk result (λ met. IfOk met (λ m. (out-Command command.entry).has_globals ≡ false → MeetsSubcommandOf command.entry m)) }
    ensures matches { IfOk result (λ met. IfOk met (HasMatchesOf (app_of command.entry) (map S.text words.entry.now))) }
    ensures kinds { IfOk result (λ met. is_simple_and_free (app_of command.entry) ≡ true → FailsBy (fault_of (app_of command.entry) (map S.text words.entry.now)) met) }
    ensures other { IfOk result (λ met. IfErr met (λ e. kind_of e ≢ OutOfMemory)) }
{
    match command.try_get_matches_from(words) {
        Ok(matches) => Ok(Ok(matches)),
        Err(error) => {
            if error.kind() == ErrorKind::OutOfMemory {
                drop(error);
                Err(NoRoom::refused())
            } else {
                Ok(Err(error))
            }
        }
    }
}

/// The kit's `Table::vacant`.
pub fn vacant<T, V, K, P: TableRule<Option<T>, V, K>>(
    alloc: Global,
    words: &[u64],
    count: usize,
    about: &K,
) -> Result<(Table<Option<T>, V, K, P, Global>, Seat<Option<T>, V>), NoRoom>
    requires { P.holds about.now (opening words.now (replicate count None) (P.first about.now)) }
    ensures { IfOk result (λ t. (t.0.shared.table_id.words ≡ length words.now) × (t.0.shared.table_id.slots ≡ count) × (t.1.table_id ≡ t.0.shared.table_id) × (t.1.id ≡ 0) × (t.1.me ≡ (P.first about.now, [])) × (t.0.shared.key ≡ about.now)) }
{
    match Table::vacant(alloc, words, count, about) {
        Ok(made) => Ok(made),
        Err(_) => Err(NoRoom::refused()),
    }
}
