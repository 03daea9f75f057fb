// The table, as each layer tells it.
ghost use Rattle.std.specs.Prelude.{◌≡◌, ◌<◌};
ghost use Rattle.circuit.specs.Order.{IsOrder};

use crate::hand::{ROWS, Row, rows};
use crate::plain::plain_bits;
use crate::single::single_bits;
use crate::toggle::toggle_netlist;
use crate::words::{four_words_bits, row_of, word_bits};
use circuit::netlist::Netlist;
use circuit::parts::Fault;
use fm_base::Steps;
use netlist_levels::{Order, levels};
use room::{NoRoom, push};
use std::alloc::Global;
use std::marker::Brand;
use std::sync::ledger::{Blank, Ledger};

/// The bits of all nets in all cycles: of each row by the definition and by a simulation of one circuit, and of each lane of a word
/// and of four words.
#[derive(Clone, Copy)]
struct Told {
    plain: [u32; ROWS],
    single: [u32; ROWS],
    word: [u32; 64],
    four_words: [[u32; 64]; 4],
}

fn faults_of(alloc: Global, row: &Row) -> Result<Vec<Fault>, NoRoom> {
    let mut faults = Vec::new(alloc);
    for fault in &row.faults {
        if let Some(fault) = fault {
            push(&mut faults, *fault)?;
        }
    }
    Ok(faults)
}

fn plain_table(alloc: Global, net: &Netlist, rows: &[Row; ROWS]) -> Result<[u32; ROWS], NoRoom> {
    let mut table = [0; ROWS];
    for k in 0..ROWS {
        let faults = faults_of(alloc, &rows[k])?;
        table[k] = plain_bits(alloc, net, faults.as_slice())?;
    }
    Ok(table)
}

fn single_table(
    alloc: Global,
    net: &Netlist,
    order: &Order,
    rows: &[Row; ROWS],
) -> Result<[u32; ROWS], NoRoom>
    requires { IsOrder net.now order.now }
{
    let mut table = [0; ROWS];
    for k in 0..ROWS {
        let faults = faults_of(alloc, &rows[k])?;
        table[k] = single_bits(alloc, net, order, faults.as_slice())?;
    }
    Ok(table)
}

fn told_by_all<L: Ledger>(
    alloc: Global,
    net: &Netlist,
    order: &Order,
    rows: &[Row; ROWS],
    steps: &mut Steps<L>,
) -> Result<Told, NoRoom>
    requires { IsOrder net.now order.now }
{
    Ok(Told {
        plain: plain_table(alloc, net, rows)?,
        single: single_table(alloc, net, order, rows)?,
        word: word_bits(alloc, net, order, rows, steps)?,
        four_words: four_words_bits(alloc, net, order, rows, steps)?,
    })
}

fn told_of<L: Ledger>(
    alloc: Global,
    net: &Netlist,
    rows: &[Row; ROWS],
    steps: &mut Steps<L>,
) -> Option<Told> {
    let Ok(order) = levels(alloc, net) else {
        return None;
    };
    let told = told_by_all(alloc, net, &order, rows, steps).ok();
    drop(order);
    told
}

// None where the circuit has no order, or memory ran out.
fn told_of_toggle<L: Ledger>(alloc: Global, rows: &[Row; ROWS], blank: Blank) -> Option<Told>
    requires name { blank.name ≡ L.name }
    requires parts { blank.parts ≡ L.parts }
    requires some { 0 < blank.parts }
{
    let mut steps: Steps<L> = Steps::fresh(blank);
    let Ok(net) = toggle_netlist(alloc) else {
        return None;
    };
    let told = told_of(alloc, &net, rows, &mut steps);
    drop(net);
    told
}

// What the table says of the lanes of a word.
fn lanes_of(rows: &[Row; ROWS], word: u32) -> [u32; 64]
    requires { word < 4 }
{
    let mut bits = [0; 64];
    for lane in 0..64 {
        bits[lane as usize] = row_of(rows, word, lane).bits;
    }
    bits
}

#[test]
fn a_latch_goes_on_from_what_it_took(rt: HostRuntime) {
    let rows = rows();
    let told = told_of_toggle::<Brand>(rt.alloc(), &rows, Blank::new(1)).expect(
        &rt,
        "an order, and memory",
    );
    for k in 0..ROWS {
        assert_eq!(rt; told.plain[k], rows[k].bits, "row {k} by the definition");
        assert_eq!(rt; told.single[k], rows[k].bits, "row {k} by a simulation");
    }
    assert_eq!(rt; told.word, lanes_of(&rows, 0), "in a word");
    for word in 0..4 {
        assert_eq!(rt;
            told.four_words[word as usize],
            lanes_of(&rows, word),
            "in word {word} of four"
        );
    }
}
