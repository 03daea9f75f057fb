// The walk so far.
ghost use Rattle.std.specs.Prelude.{◌≤◌, [], length};
ghost use Rattle.blif_flatten.specs.Numbering.{AreNumbered};

use crate::flat::NumberedStep;
use crate::names::NetNames;

/// The steps so far over numbered names, which are at most so many.
#[derive(Drop)]
pub struct Walked<'m, 'a> {
    pub names: NetNames,
    pub steps: Vec<NumberedStep<'m, 'a>>,
    pub most: usize,
    ghost numbered: { AreNumbered [] names.index steps.items },
    ghost fits: { length names.index ≤ most },
}
