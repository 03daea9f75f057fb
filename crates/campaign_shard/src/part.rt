// A part of a campaign, as one argument.
ghost use Rattle.std.specs.Prelude.{◌≡◌, ◌<◌, length};
ghost use Rattle.circuit.specs.Order.{IsOrder};
ghost use Rattle.result_file.specs.KeptRows.{header_len};

use campaign_plan::Plan;
use fm_base::Line;
use netlist_levels::Order;
use std::marker::Model;

/// Which part of how many: the batches b with b mod `parts` = `part`. There are none where `part` isn't below `parts`.
#[derive(Clone, Copy, Debug, PartialEq, Eq)]
pub struct Shard {
    pub part: u32,
    pub parts: u32,
}

/// One part of a campaign: the plan, with an order of its tables; the name and the header of the part's result file; and which
/// part it is.
pub struct PartCampaign<'a> {
    pub(crate) plan: &'a Plan,
    pub(crate) order: &'a Order,
    pub(crate) name: &'a str,
    pub(crate) own: &'a Line,
    pub(crate) shard: Shard,
}

impl<'a> Model for PartCampaign<'a> {
    ghost use Rattle.std.specs.Prelude.{◌≡◌, ◌<◌, length};
    ghost use Rattle.circuit.specs.Order.{IsOrder};
    ghost use Rattle.result_file.specs.KeptRows.{header_len};
    ghost use Rattle.campaign_shard.specs.RanPart.{PartCampaign};

    ghost Value = { PartCampaign };

    ghost view = { λ c. record { name = c.name.now; own = c.own.now; p = c.plan.now; part = c.shard.part; parts = c.shard.parts } };

    ghost invariant = { λ c. IsOrder c.plan.now.circuit c.order.now × (length c.own.now ≡ header_len) × (0 < c.shard.parts) };
}

impl<'a> PartCampaign<'a> {
    /// A part of the campaign of a plan. The header is a line of 89 bytes.
    pub fn new(plan: &'a Plan, order: &'a Order, name: &'a str, own: &'a Line, shard: Shard) -> Self
        requires order { IsOrder plan.now.circuit order.now }
        requires own { length own.now ≡ header_len }
        requires parts { 0 < shard.parts }
        ensures { result ≡ record { name = name.now; own = own.now; p = plan.now; part = shard.part; parts = shard.parts } }
    {
        PartCampaign {
            plan,
            order,
            name,
            own,
            shard,
        }
    }
}
