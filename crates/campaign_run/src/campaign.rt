// A campaign, as one argument.
ghost use Rattle.std.specs.Prelude.{◌≡◌, length};
ghost use Rattle.circuit.specs.Order.{IsOrder};
ghost use Rattle.result_file.specs.KeptRows.{header_len};

use crate::run::Text;
use campaign_plan::Plan;
use fm_base::Line;
use netlist_levels::Order;
use result_file::KeptRows;
use std::marker::Model;

/// A campaign: its plan, with an order of its tables; the name and the header of its result file; what is kept of the file; and
/// the text that it writes at its end.
#[derive(Drop)]
pub struct Campaign<'a> {
    pub(crate) plan: &'a Plan,
    pub(crate) order: &'a Order,
    pub(crate) name: &'a str,
    pub(crate) own: &'a Line,
    pub(crate) kept: KeptRows,
    pub(crate) text: Text,
}

impl<'a> Model for Campaign<'a> {
    ghost use Rattle.std.specs.Prelude.{◌≡◌, length};
    ghost use Rattle.circuit.specs.Order.{IsOrder};
    ghost use Rattle.result_file.specs.KeptRows.{header_len};
    ghost use Rattle.campaign_run.specs.Ran.{Campaign};

    ghost Value = { Campaign };

    ghost view = { λ c. record { name = c.name.now; own = c.own.now; p = c.plan.now; k = c.kept; text = c.text } };

    ghost invariant = { λ c. IsOrder c.plan.now.circuit c.order.now × (length c.own.now ≡ header_len) };
}

impl<'a> Campaign<'a> {
    /// A campaign that goes on from what is kept of its file; an empty list of rows with no bytes starts the file anew. The
    /// header is a line of 89 bytes.
    pub fn new(
        plan: &'a Plan,
        order: &'a Order,
        name: &'a str,
        own: &'a Line,
        kept: KeptRows,
        text: Text,
    ) -> Self
        requires order { IsOrder plan.now.circuit order.now }
        requires own { length own.now ≡ header_len }
        ensures { result ≡ record { name = name.now; own = own.now; p = plan.now; k = kept; text = text } }
    {
        Campaign {
            plan,
            order,
            name,
            own,
            kept,
            text,
        }
    }
}
