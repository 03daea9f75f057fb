// Inputs by chance. A run is told by numbers, one for each cycle: its inputs are drawn from that, so equal numbers are equal inputs.
ghost use Rattle.std.specs.Prelude.{◌≡◌, length};
ghost use Rattle.coverage_claim.specs.Stretch.{held_at as value_at};

use circuit::netlist::Netlist;
use circuit::parts::Driver;
use coverage_claim::Held;
use rand_core::utils::NextWord;
use rand_pcg::Pcg32;

// Of this stream of the generator inputs are drawn.
const INPUTS: u64 = 1;

/// The value that an input is held at in a cycle, if one is given.
pub(crate) fn held_at(held: Held, cycle: u32) -> Option<bool>
    ensures { result ≡ value_at held cycle }
{
    if cycle < held.from {
        held.before
    } else {
        Some(held.value)
    }
}

// Gives an input the value that it is held at in a cycle, if there is one.
fn hold(netlist: &Netlist, held: Held, cycle: u32, inputs: &mut [bool])
    ensures { length inputs.new ≡ length inputs.old }
{
    let Some(value) = held_at(held, cycle) else {
        return;
    };
    if let Some(Driver::Input(place)) = netlist.drivers.as_slice().get(held.net.0 as usize) {
        let place = *place as usize;
        if place < inputs.len() {
            inputs[place] = value;
        }
    }
}

// Draws all inputs.
fn toss_all(chance: &mut Pcg32, inputs: &mut [bool])
    ensures { length inputs.new ≡ length inputs.old }
{
    for place in 0..inputs.len() {
        inputs[place] = chance.next_word() % 2 == 1;
    }
}

/// Draws the inputs of a cycle from a number: those that are held have their values.
pub(crate) fn draw(number: u32, netlist: &Netlist, held: &[Held], cycle: u32, inputs: &mut [bool])
    ensures { length inputs.new ≡ length inputs.old }
{
    let mut chance = Pcg32::new(u64::from(number), INPUTS);
    toss_all(&mut chance, inputs);
    for input in held {
        hold(netlist, *input, cycle, inputs);
    }
}

/// The numbers of the cycles of a run. In some runs all inputs change in each cycle, in some they stay as they are for a few, and in some in
/// all of them, since some circuits go far only so.
pub(crate) fn choose(run: u32, numbers: &mut [u32])
    ensures { length numbers.new ≡ length numbers.old }
{
    for t in 0..numbers.len() {
        let stretch = match run % 3 {
            0 => t,
            1 => t / 4,
            _ => 0,
        };
        numbers[t] = (run << 16) | (stretch % 65536) as u32;
    }
}
