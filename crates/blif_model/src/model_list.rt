// The models of a file.
ghost use Rattle.std.specs.Prelude.{◌≡◌, ◌<◌, ◌^◌, length, IfOk};
ghost use Rattle.fm_base.specs.Answers.{Gives};
ghost use Rattle.blif_model.specs.Answer.{models_read};
ghost use Rattle.blif_model.specs.Grouped.{models_seen};

use crate::faults::fault_in;
use crate::models::{ModelLines, models_in};
use crate::read_line::{ReadLine, read_lines};
use blif_text::NetlistFault;
use fm_base::Refusal;
use room::NoRoom;
use std::alloc::Global;
use std::marker::Model;

/// The models of a file without a faulty line, in the file's order; the first is the main one. It holds the lines of the file.
#[derive(Drop)]
pub struct ModelList<'a> {
    lines: Vec<ReadLine<'a>>,
}

impl<'a> Model for ModelList<'a> {
    ghost use Rattle.std.specs.Prelude.{List};
    ghost use Rattle.blif_model.specs.Models.{Model, models_of};

    ghost Value = { List Model };

    ghost view = { λ s. models_of s.lines.items };
}

impl<'a> ModelList<'a> {
    /// The models as parts of the list of lines.
    pub fn models<'m>(&'m self, alloc: Global) -> Result<Vec<ModelLines<'m, 'a>>, NoRoom>
        ensures { IfOk result (λ v. models_seen v.items ≡ self.now) }
    {
        models_in(alloc, self.lines.as_slice())
    }
}

/// The models of the bytes of a file. Refused where a line is faulty, with the first such line and its first kind of `NoModel`
/// to `TooWide`; a file without a line that is read is `NoModel` at line 1.
#[tactic(auto, unfolding(crate::specs::Models::file_models))]
pub fn read_models<'a>(
    alloc: Global,
    bytes: &'a [u8],
) -> Result<ModelList<'a>, Refusal<NetlistFault>>
    requires { length bytes.now < 2 ^ 31 }
    ensures { Gives (models_read bytes.now) result }
{
    let lines = read_lines(alloc, bytes)?;
    match fault_in(lines.as_slice()) {
        Some(fault) => Err(Refusal::Fault(fault)),
        None => Ok(ModelList { lines }),
    }
}
