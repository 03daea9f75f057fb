// Tables of any number of inputs, by their rows.
ghost use Rattle.std.specs.Prelude.{◌≡◌, ◌<◌, ◌||◌, ℕ, List, Bool, not, map};
ghost use Rattle.std.specs.List.{list_any};
ghost use Rattle.circuit.specs.declared.parts.Driver.TheVariants.{Table as FromTable};
ghost use Rattle.circuit.specs.Table.{lit_matches, row_matches, table_value};
ghost use Rattle.circuit.specs.Value.{driven, driver_at, table_gives};
ghost use Rattle.circuit.specs.Sound.{IsNet};

use crate::word::Word;
use circuit::netlist::Netlist;
use circuit::parts::{Driver, Lit, NetId, Row, Table};

/// Where the word of each net is read.
pub trait NetWords<W: Word> {
    // the bit of a lane in the word of a net
    ghost read: { Self → ℕ → ℕ → Bool };

    /// The word of the net of this number.
    fn word_of(&self, net: u32) -> W
        ensures { (k : ℕ) → k < W.lanes → W.lane_bit result k ≡ read self.now k net };
}

fn inverse<W: Word>(a: W) -> W
    ensures { (k : ℕ) → k < W.lanes → W.lane_bit result k ≡ not (W.lane_bit a k) }
{
    a.xor(W::all(true))
}

fn or<W: Word>(a: W, b: W) -> W
    ensures { (k : ℕ) → k < W.lanes → W.lane_bit result k ≡ (W.lane_bit a k || W.lane_bit b k) }
{
    a.xor(b).xor(a.and(b))
}

fn lit_word<W: Word>(lit: Lit, word: W) -> W
    ensures { (k : ℕ) → k < W.lanes → W.lane_bit result k ≡ lit_matches lit (W.lane_bit word k) }
{
    match lit {
        Lit::Zero => inverse(word),
        Lit::One => word,
        Lit::Any => W::all(true),
    }
}

fn row_word<W: Word, N: NetWords<W>>(row: &[Lit], ins: &[NetId], nets: &N) -> W
    ensures { (k : ℕ) → k < W.lanes → W.lane_bit result k ≡ row_matches row.now (map (λ m. N.read nets.now k m.0) ins.now) }
{
    let mut every = W::all(true);
    let mut i = 0;
    'lits: while i < row.len() && i < ins.len() {
        every = every.and(lit_word(row[i], nets.word_of(ins[i].0)));
        i += 1;
    }
    every
}

fn rows_word<W: Word, N: NetWords<W>>(rows: &[Row], ins: &[NetId], nets: &N) -> W
    ensures { (k : ℕ) → k < W.lanes → W.lane_bit result k ≡ list_any (λ row. row_matches row (map (λ m. N.read nets.now k m.0) ins.now)) rows.now }
{
    let mut some = W::all(false);
    for row in rows {
        some = or(some, row_word(row.as_slice(), ins, nets));
    }
    some
}

fn table_word<W: Word, N: NetWords<W>>(table: &Table, nets: &N) -> W
    ensures { (k : ℕ) → k < W.lanes → W.lane_bit result k ≡ table_value table.now (map (λ m. N.read nets.now k m.0) table.now.ins) }
{
    let some = rows_word(table.rows.as_slice(), table.ins.as_slice(), nets);
    if table.on { some } else { inverse(some) }
}

/// What the table of a net gives, by its rows.
pub fn net_word<W: Word, N: NetWords<W>>(netlist: &Netlist, net: NetId, nets: &N) -> W
    requires net { IsNet netlist.now net }
    requires table { (k : ℕ) × (driver_at netlist.now net.0 ≡ FromTable k) }
    ensures { (k : ℕ) (state inputs : List Bool) → k < W.lanes
        → W.lane_bit result k ≡ driven state inputs (table_gives netlist.now (N.read nets.now k)) (driver_at netlist.now net.0) }
{
    match netlist.driver(net) {
        Driver::Table(k) => table_word(netlist.table(k), nets),
        _ => W::all(false),
    }
}
