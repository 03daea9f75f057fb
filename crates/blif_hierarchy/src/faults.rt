// The number of a faulty line, and the fault that it becomes.
ghost use Rattle.std.specs.Prelude.{◌≡◌, option_map};
ghost use Rattle.fm_base.specs.Firsts.{given};
ghost use Rattle.blif_model.specs.LineFault.{at_line};

use blif_text::{NetlistFault, NetlistKind};

/// The number of a line that is faulty.
pub fn line_if(faulty: bool, line: u32) -> Option<u32>
    ensures { result ≡ given faulty line }
{
    if faulty { Some(line) } else { None }
}

/// The fault of this kind at a line, where there is one.
pub fn fault_at(line: Option<u32>, kind: NetlistKind) -> Option<NetlistFault>
    ensures { result ≡ option_map (λ n. at_line n kind) line }
{
    match line {
        Some(line) => Some(NetlistFault { line, kind }),
        None => None,
    }
}
