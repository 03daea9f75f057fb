// The circuit in memory.
ghost use Rattle.std.specs.Prelude.{◌≡◌, ◌∷◌, [], IfOk};
ghost use Rattle.test_simulators.specs.Toggle.{toggle, unequal};

use circuit::netlist::Netlist;
use circuit::parts::{
    Driver, Drivers, Latch, Latches, Lit, Name, Names, NetId, NetIds, Row, Rows, Table, Tables,
};
use fm_base::Seq;
use room::{NoRoom, from_array, from_slice};
use std::alloc::Global;

fn name_of(alloc: Global, name: &[u8]) -> Result<Name, NoRoom>
    ensures { IfOk result (λ made. made ≡ name.now) }
{
    Ok(Seq::from_vec(from_slice(alloc, name)?))
}

fn names_of(alloc: Global) -> Result<Names, NoRoom>
    ensures { IfOk result (λ names. names ≡ toggle.names) }
{
    let names = [
        name_of(alloc, b"e")?,
        name_of(alloc, b"y")?,
        name_of(alloc, b"q")?,
    ];
    Ok(Seq::from_vec(from_array(alloc, names)?))
}

fn drivers_of(alloc: Global) -> Result<Drivers, NoRoom>
    ensures { IfOk result (λ drivers. drivers ≡ toggle.drivers) }
{
    let drivers = [Driver::Input(0), Driver::Table(0), Driver::Latch(0)];
    Ok(Seq::from_vec(from_array(alloc, drivers)?))
}

fn row_of(alloc: Global, e: Lit, q: Lit) -> Result<Row, NoRoom>
    ensures { IfOk result (λ row. row ≡ e ∷ q ∷ []) }
{
    Ok(Seq::from_vec(from_array(alloc, [e, q])?))
}

fn rows_of(alloc: Global) -> Result<Rows, NoRoom>
    ensures { IfOk result (λ rows. rows ≡ unequal) }
{
    let first = row_of(alloc, Lit::One, Lit::Zero)?;
    let second = row_of(alloc, Lit::Zero, Lit::One)?;
    Ok(Seq::from_vec(from_array(alloc, [first, second])?))
}

fn tables_of(alloc: Global) -> Result<Tables, NoRoom>
    ensures { IfOk result (λ tables. tables ≡ toggle.tables) }
{
    let ins = Seq::from_vec(from_array(alloc, [NetId(0), NetId(2)])?);
    let table = Table {
        ins,
        rows: rows_of(alloc)?,
        on: true,
    };
    Ok(Seq::from_vec(from_array(alloc, [table])?))
}

fn latches_of(alloc: Global) -> Result<Latches, NoRoom>
    ensures { IfOk result (λ latches. latches ≡ toggle.latches) }
{
    let latch = Latch {
        from: NetId(1),
        to: NetId(2),
        start: false,
    };
    Ok(Seq::from_vec(from_array(alloc, [latch])?))
}

fn inputs_of(alloc: Global) -> Result<NetIds, NoRoom>
    ensures { IfOk result (λ nets. nets ≡ toggle.inputs) }
{
    Ok(Seq::from_vec(from_array(alloc, [NetId(0)])?))
}

fn outputs_of(alloc: Global) -> Result<NetIds, NoRoom>
    ensures { IfOk result (λ nets. nets ≡ toggle.outputs) }
{
    Ok(Seq::from_vec(from_array(alloc, [NetId(1), NetId(2)])?))
}

/// The nets e, y and q by their numbers.
pub fn toggle_netlist(alloc: Global) -> Result<Netlist, NoRoom>
    ensures { IfOk result (λ made. made ≡ toggle) }
{
    let names = names_of(alloc)?;
    let drivers = drivers_of(alloc)?;
    let tables = tables_of(alloc)?;
    let latches = latches_of(alloc)?;
    let inputs = inputs_of(alloc)?;
    let outputs = outputs_of(alloc)?;
    Ok(Netlist {
        names,
        drivers,
        tables,
        latches,
        inputs,
        outputs,
    })
}
