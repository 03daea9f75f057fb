// The words of the table.
ghost use Rattle.std.specs.Prelude.{◌≡◌};
ghost use Rattle.campaign_tables.specs.Words.{bit_word as word_of_bit, covered_word as word_of_covered, kind_word as word_of_kind};

use circuit::parts::Fault;
use rate_table::Part;

/// The kind of a fault.
pub(crate) fn kind_word(fault: &Fault) -> &[u8]
    ensures { result.now ≡ word_of_kind fault.now }
{
    match *fault {
        Fault::Stuck(_, _) => b"stuck-at",
        Fault::Flip(_, _) => b"flip",
        Fault::Pulse(_, _) => b"pulse",
    }
}

/// Whether a safety mechanism covers a part, as a rates file says it.
pub fn covered_word(part: &Part) -> &[u8]
    ensures { result.now ≡ word_of_covered part.now.covered }
{
    if part.covered { b"yes" } else { b"no" }
}

/// The bit of a lane in a plane.
pub fn bit_word(bit: &bool) -> &[u8]
    ensures { result.now ≡ word_of_bit bit.now }
{
    if *bit { b"1" } else { b"0" }
}
