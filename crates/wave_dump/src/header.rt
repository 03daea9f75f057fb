// The declarations of a dump.
ghost use Rattle.std.specs.Prelude.{◌≡◌, ◌<◌, length, flat_map};
ghost use Rattle.fm_base.specs.Lists.{below};
ghost use Rattle.fm_shelf.specs.Sink.{Sends};
ghost use Rattle.wave_dump.specs.Dump.{declared_scope, scope_count, scope_name as name_of_scope};
ghost use Rattle.wave_dump.specs.Steps.{wire_line};

use crate::scene::Scene;
use crate::words::{backslash_of, code_of};
use fm_shelf::shelf::{Failed, Sink};
use fm_shelf::whole::{write_all, write_pieces};

// The name of a scope.
fn scope_name(scope: u32) -> &'static [u8]
    ensures { result.now ≡ name_of_scope scope }
{
    if scope == 0 { b"golden" } else { b"faulty" }
}

// Writes the declaration of one variable.
fn write_wire<O: Sink>(scene: &Scene<'_>, scope: u32, place: u32, out: &mut O) -> Result<(), Failed>
    requires scope { scope < 2 }
    requires place { place < length scene.now.nets }
    ensures { Sends (O.seen out.old) (O.seen out.new) (wire_line scene.now scope place) result }
{
    let code = code_of(scope * scene.nets().len() as u32 + place);
    let name = scene.name(place);
    write_pieces(
        out,
        &[
            b"$var wire 1 ",
            code.bytes(),
            b" ",
            backslash_of(name),
            name,
            b" $end\n",
        ],
    )
}

// Writes the declarations of the variables of a scope.
fn write_wires<O: Sink>(scene: &Scene<'_>, scope: u32, out: &mut O) -> Result<(), Failed>
    requires { scope < 2 }
    ensures { Sends (O.seen out.old) (O.seen out.new)
        (flat_map (wire_line scene.now scope) (below (length scene.now.nets))) result }
{
    for place in 0..scene.nets().len() as u32 {
        write_wire(scene, scope, place, out)?;
    }
    Ok(())
}

// Writes the declarations of a scope.
fn write_scope<O: Sink>(scene: &Scene<'_>, scope: u32, out: &mut O) -> Result<(), Failed>
    requires { scope < 2 }
    ensures { Sends (O.seen out.old) (O.seen out.new) (declared_scope scene.now scope) result }
{
    write_pieces(out, &[b"$scope module ", scope_name(scope), b" $end\n"])?;
    write_wires(scene, scope, out)?;
    write_all(out, b"$upscope $end\n")
}

/// Writes the declarations of all scopes.
pub(crate) fn write_scopes<O: Sink>(scene: &Scene<'_>, out: &mut O) -> Result<(), Failed>
    ensures { Sends (O.seen out.old) (O.seen out.new)
        (flat_map (declared_scope scene.now) (below (scope_count scene.now))) result }
{
    for scope in 0..scene.scopes() {
        write_scope(scene, scope, out)?;
    }
    Ok(())
}
