// The flattened main model with a number for each name.
ghost use Rattle.blif_flatten.specs.Flat.{IsFlat};

use blif_model::read_line::ReadLine;
use fm_base::{NameIndex, Seq};

/// The number of a name: its place in the order of first mention.
#[derive(Clone, Copy, Debug, PartialEq, Eq)]
pub struct NameId(pub usize);

/// A latch with the numbers of its names. It has no control where that is `NIL`.
#[derive(Drop)]
pub struct NumberedLatch<'a> {
    pub from: NameId,
    pub to: NameId,
    pub edge: Option<&'a [u8]>,
    pub control: Option<NameId>,
    pub start: bool,
}

/// A table with the numbers of its nets, and the lines below it, which begin with its rows.
#[derive(Drop)]
pub struct NumberedTable<'m, 'a> {
    pub ins: Seq<NameId>,
    pub out: NameId,
    pub below: &'m [ReadLine<'a>],
}

/// What a line of the flattened model does with its nets.
#[derive(Drop)]
pub enum NumberedAct<'m, 'a> {
    /// An `.inputs` line of the main model.
    Inputs(Seq<NameId>),
    /// An `.outputs` line of the main model.
    Outputs(Seq<NameId>),
    /// A `.clock` line of the main model.
    Clocks(Seq<NameId>),
    /// New names on such a line of an instance, or of the actuals of a `.subckt` line.
    PortNets(Seq<NameId>),
    Table(NumberedTable<'m, 'a>),
    Latch(NumberedLatch<'a>),
}

/// A line of the flattened model.
#[derive(Drop)]
pub struct NumberedStep<'m, 'a> {
    pub line: u32,
    pub act: NumberedAct<'m, 'a>,
}

/// The flattened main model: its names in order of first mention, and its lines, which give each name by its number.
#[derive(Drop)]
pub struct FlatModel<'m, 'a> {
    pub names: NameIndex,
    pub steps: Vec<NumberedStep<'m, 'a>>,
    ghost is_flat: { IsFlat names steps.items },
}
