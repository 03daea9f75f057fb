// The value of a net by its definition: slow, and what faster programs are tested against.
ghost use Rattle.std.specs.Prelude.{◌≡◌, IfOk};
ghost use Rattle.circuit.specs.Value.{cycle_of, val};
ghost use Rattle.circuit.specs.Sound.{IsNet};

use crate::meaning::{bit, value_of_table, value_under};
use crate::netlist::Netlist;
use crate::parts::{Driver, Fault, NetId};
use room::{NoRoom, push};
use std::alloc::Global;

/// The value of a net in a cycle, asked back through at most `depth` tables; where this is one more than there are tables,
/// it is the net's value. The time grows with the number of ways back, of which there may be exponentially many.
pub fn value_within(
    alloc: Global,
    netlist: &Netlist,
    faults: &[Fault],
    cycle: u32,
    state: &[bool],
    inputs: &[bool],
    depth: usize,
    net: NetId,
) -> Result<bool, NoRoom>
    requires { IsNet netlist.now net }
    ensures { IfOk result (λ value. value ≡ val depth (cycle_of netlist.now faults.now cycle state.now inputs.now) net.0) }
{
    let own = match netlist.driver(net) {
        Driver::Input(k) => bit(inputs, k),
        Driver::Latch(k) => bit(state, k),
        Driver::Table(k) => {
            if depth == 0 {
                false
            } else {
                let table = netlist.table(k);
                let mut bits = Vec::new(alloc);
                for read in table.ins.as_slice() {
                    push(
                        &mut bits,
                        value_within(
                            alloc,
                            netlist,
                            faults,
                            cycle,
                            state,
                            inputs,
                            depth - 1,
                            *read,
                        )?,
                    )?;
                }
                value_of_table(table, bits.as_slice())
            }
        }
    };
    Ok(value_under(faults, cycle, net, own))
}
