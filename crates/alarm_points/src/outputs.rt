// All outputs as observation points.
ghost use Rattle.std.specs.Prelude.{◌≡◌, ◌∷◌, [], IfOk};
ghost use Rattle.alarm_points.specs.declared.outputs.OutputsRefusal.TheVariants.{Memory};
ghost use Rattle.alarm_points.specs.Outputs.{AnswersOutputs};
ghost use Rattle.alarm_points.specs.PointsKept.{ArePointsFor};

use crate::{Goal, Points};
use circuit::netlist::Netlist;
use circuit::parts::NetId;
use fm_base::{Name, Seq};
use room::{NoRoom, from_array, from_slice};
use std::alloc::Global;

const MOST_POINTS: usize = 1024;

/// Why the outputs can't all be points.
#[derive(Clone, Copy, Debug, PartialEq, Eq)]
pub enum OutputsRefusal {
    /// There are more than 1,024 outputs.
    TooMany,
    /// Memory ran out.
    Memory(NoRoom),
}

impl From<NoRoom> for OutputsRefusal {
    ghost from_gives = { λ no_room e. e ≡ Memory no_room };

    fn from(e: NoRoom) -> Self {
        OutputsRefusal::Memory(e)
    }
}

// One goal without a name and without an interval of its own, which observes these nets, and no alarm.
fn observing(alloc: Global, nets: &[NetId]) -> Result<Points, NoRoom>
    ensures { IfOk result (λ points. points ≡ record { goals = record { name = []; ftti = None; observe = nets.now } ∷ []; alarm = [] }) }
{
    let goal = Goal {
        name: Name::new(alloc),
        ftti: None,
        observe: Seq::from_vec(from_slice(alloc, nets)?),
    };
    Ok(Points {
        goals: Seq::from_vec(from_array(alloc, [goal])?),
        alarm: Seq::new(alloc),
    })
}

/// One goal without a name and without an interval of its own, which observes each output, and no alarm.
pub fn all_outputs(alloc: Global, net: &Netlist) -> Result<Points, OutputsRefusal>
    ensures answers { AnswersOutputs net.now result }
    ensures sound { IfOk result (λ points. ArePointsFor net.now points) }
{
    let outputs = net.outputs();
    if outputs.len() > MOST_POINTS {
        return Err(OutputsRefusal::TooMany);
    }
    Ok(observing(alloc, outputs)?)
}
