// The header of a workload file: which column has the bits of which input.
ghost use Rattle.std.specs.Prelude.{◌≡◌, ◌+◌, ◌<◌, ◌≤◌, ◌^◌, length, map, slice_index_or, [], IfOk, List};
ghost use Rattle.fm_base.specs.Names.{distinct, is_one_of};
ghost use Rattle.workload.specs.Built.{AreColumns, AreColumnPlaces, LaysOut};
ghost use Rattle.workload.specs.WorkloadSteps.{input_names};

use crate::file::{WorkloadFault, WorkloadKind, refusal};
use circuit::netlist::Netlist;
use csv_rows::Row;
use fm_base::{NameIndex, Refusal};
use room::{NoRoom, push};
use std::alloc::Global;

/// How the rows of a workload file are laid out.
#[derive(Drop)]
pub(crate) struct Layout {
    /// The number of fields.
    pub(crate) width: usize,
    /// The place of each input's bit in a row, in the order of the inputs.
    pub(crate) places: Vec<usize>,
}

// The names of the inputs.
fn inputs_of(alloc: Global, net: &Netlist) -> Result<NameIndex, NoRoom>
    ensures { IfOk result (λ names. names ≡ distinct (input_names net.now)) }
{
    let mut names = NameIndex::new(alloc);
    let inputs = net.inputs();
    for input in inputs {
        names.insert(net.name(*input))?;
    }
    Ok(names)
}

// The columns, where each is an input and none stands twice.
fn columns_of(alloc: Global, inputs: &NameIndex, header: &Row) -> Result<Option<NameIndex>, NoRoom>
    ensures { IfOk result (AreColumns inputs.now header.now) }
{
    let mut columns = NameIndex::new(alloc);
    for k in 2..header.len() {
        let name = header.field(k);
        if !inputs.contains(name) {
            return Ok(None);
        }
        if !columns.insert(name)? {
            return Ok(None);
        }
    }
    Ok(Some(columns))
}

// The place of each input's column in a row, where each input has one.
fn places_of(
    alloc: Global,
    net: &Netlist,
    columns: &NameIndex,
) -> Result<Option<Vec<usize>>, NoRoom>
    requires { length columns.now + 2 < 2 ^ 64 }
    ensures { IfOk result (AreColumnPlaces columns.now (input_names net.now)) }
{
    let mut places = Vec::new(alloc);
    let inputs = net.inputs();
    for input in inputs {
        let Some(column) = columns.number(net.name(*input)) else {
            return Ok(None);
        };
        push(&mut places, column + 2)?;
    }
    Ok(Some(places))
}

impl Layout {
    /// The layout that a header gives, or the header's first fault.
    pub(crate) fn new(
        alloc: Global,
        net: &Netlist,
        header: &Row,
    ) -> Result<Layout, Refusal<WorkloadFault>>
        ensures { LaysOut net.now header.now result }
    {
        if !header.has_word(b"workload", 0) || !header.has_word(b"kind", 1) {
            return Err(refusal(1, WorkloadKind::BadCsv));
        }
        let width = header.len();
        let inputs = inputs_of(alloc, net)?;
        let columns = columns_of(alloc, &inputs, header);
        drop(inputs);
        let Some(columns) = columns? else {
            return Err(refusal(1, WorkloadKind::BadColumn));
        };
        let places = places_of(alloc, net, &columns);
        drop(columns);
        let Some(places) = places? else {
            return Err(refusal(1, WorkloadKind::MissingInput));
        };
        Ok(Layout { width, places })
    }
}
