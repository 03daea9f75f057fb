// The lines of a flattened model, one by one.
ghost use Rattle.std.specs.Prelude.{◌<◌, length};
ghost use Rattle.blif_reader.specs.Steps.{IsStep};

use blif_flatten::flat::{FlatModel, NumberedStep};

/// The line at a place.
pub fn step_at<'f, 'm, 'a>(flat: &'f FlatModel<'m, 'a>, place: usize) -> &'f NumberedStep<'m, 'a>
    requires { place < length flat.now.steps.items }
    ensures { IsStep flat.now place result.now }
{
    &flat.steps[place]
}
