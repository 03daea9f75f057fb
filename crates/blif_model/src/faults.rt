// The faults of lines.
ghost use Rattle.std.specs.Prelude.{◌≡◌, [], List};
ghost use Rattle.std.specs.List.{list_any};
ghost use Rattle.std.specs.Option.{option_map};
ghost use Rattle.fm_base.specs.Firsts.{first_after};
ghost use Rattle.blif_model.specs.LineFault.{kind_of, line_fault, place_fault, plane_above, Said};
ghost use Rattle.blif_model.specs.LineSteps.{fault_of, is_read, own_line_kind, plane_fault, row_fault};
ghost use Rattle.blif_model.specs.Meant.{meant};
ghost use Rattle.blif_model.specs.Position.{IsBehind};
ghost use Rattle.blif_model.specs.Tokens.{texts_of};

use crate::position::Position;
use crate::read_line::ReadLine;
use crate::rows::{is_row, output_of};
use crate::says::Says;
use blif_text::token::Token;
use blif_text::{NetlistFault, NetlistKind};

/// The inputs that a table may have.
const MOST_INPUTS: usize = 1024;

fn plane_fault(output: Option<&[u8]>, tokens: &[Token<'_>]) -> Option<NetlistKind>
    ensures { (before : List Said) → option_map (λ o. o.now) output.entry ≡ plane_above before → result ≡ plane_fault before (texts_of tokens.now) }
{
    match output {
        Some(first) => {
            if first == output_of(tokens) {
                None
            } else {
                Some(NetlistKind::MixedPlane)
            }
        }
        None => None,
    }
}

fn row_fault(position: &Position<'_, '_>, tokens: &[Token<'_>]) -> Option<NetlistKind>
    ensures { (before : List Said) → IsBehind before position.now → result ≡ row_fault before (texts_of tokens.now) }
{
    match position.table {
        Some(ins) => {
            if is_row(ins.len(), tokens) {
                plane_fault(position.output, tokens)
            } else {
                Some(NetlistKind::BadRow)
            }
        }
        None => Some(NetlistKind::BadRow),
    }
}

fn own_fault(position: &Position<'_, '_>, says: Says<'_, '_>) -> Option<NetlistKind>
    ensures { (before : List Said) → IsBehind before position.now → result ≡ own_line_kind before (meant says.entry) }
{
    match says {
        Says::Wrong(why) => Some(why.kind()),
        Says::Row(tokens) => row_fault(position, tokens),
        Says::Table { ins, .. } => {
            if ins.len() > MOST_INPUTS {
                Some(NetlistKind::TooWide)
            } else {
                None
            }
        }
        _ => None,
    }
}

#[tactic(auto, unfolding(crate::specs::LineFault::is_inside, crate::specs::LineFault::table_above, crate::specs::LineFault::plane_above))]
fn place_fault(position: &Position<'_, '_>, says: Says<'_, '_>) -> Option<NetlistKind>
    ensures { (before : List Said) → IsBehind before position.now → result ≡ place_fault before (meant says.entry) }
{
    match says {
        Says::Passed | Says::Model(_) => None,
        Says::Unnamed => Some(NetlistKind::BadToken),
        says => {
            if position.inside {
                own_fault(position, says)
            } else {
                Some(NetlistKind::NoModel)
            }
        }
    }
}

/// The kind of a line's fault: the width of its tokens comes last.
#[tactic(auto, unfolding(crate::specs::LineFault::kind_of))]
fn line_kind(position: &Position<'_, '_>, says: Says<'_, '_>, wide: bool) -> Option<NetlistKind>
    ensures { (before : List Said) (line : Said) → IsBehind before position.now → meant says.entry ≡ line.says → wide ≡ line.wide → result ≡ kind_of before line }
{
    match place_fault(position, says) {
        Some(kind) => Some(kind),
        None => {
            if wide {
                Some(NetlistKind::TooWide)
            } else {
                None
            }
        }
    }
}

/// The first line with a fault.
fn first_fault(lines: &[ReadLine<'_>]) -> Option<NetlistFault>
    ensures { result ≡ first_after fault_of [] lines.now }
{
    let mut position = Position::new();
    for line in lines {
        let says = line.says();
        match line_kind(&position, says, line.is_wide()) {
            Some(kind) => {
                return Some(NetlistFault {
                    line: line.number(),
                    kind,
                });
            }
            None => {}
        }
        position = position.after(says);
    }
    None
}

fn says_something(line: &ReadLine<'_>) -> bool
    ensures { result ≡ is_read line.now.says }
{
    match line.says() {
        Says::Passed => false,
        _ => true,
    }
}

fn any_read(lines: &[ReadLine<'_>]) -> bool
    ensures { result ≡ list_any (λ l. is_read l.says) lines.now }
{
    lines.iter().any(says_something)
}

/// The fault of a file's lines, if there is one.
#[tactic(auto, unfolding(crate::specs::LineFault::line_fault, crate::specs::LineFault::kind_of))]
pub fn fault_in(lines: &[ReadLine<'_>]) -> Option<NetlistFault>
    ensures { result ≡ line_fault lines.now }
{
    if any_read(lines) {
        first_fault(lines)
    } else {
        Some(NetlistFault {
            line: 1,
            kind: NetlistKind::NoModel,
        })
    }
}
