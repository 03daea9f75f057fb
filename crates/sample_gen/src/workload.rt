// The workload: one run of as many cycles as there are stages, and eight more.
ghost use Rattle.std.specs.Prelude.{◌≡◌, ◌≤◌, ◌+◌, ◌++◌, OnOk, IfOk};
ghost use Rattle.std.specs.List.{flat_map};
ghost use Rattle.fm_base.specs.Lists.{below};
ghost use Rattle.sample_gen.specs.Sample.{workload_text as workload_of};
ghost use Rattle.sample_gen.specs.Steps.{vector_line};

use crate::lines::put_line;
use fm_base::{Bytes, Seq};
use room::NoRoom;
use std::alloc::Global;

// Adds the row of cycle `t`.
fn put_vector(text: &mut Vec<u8>, t: u32) -> Result<(), NoRoom>
    ensures { OnOk result (text.new.items ≡ text.old.items ++ vector_line t) }
{
    if t % 3 == 0 {
        put_line(text, &[b"w,mission,1"])
    } else {
        put_line(text, &[b"w,mission,0"])
    }
}

// Adds the rows of the first cycles.
fn put_vectors(text: &mut Vec<u8>, cycles: u32) -> Result<(), NoRoom>
    ensures { OnOk result (text.new.items ≡ text.old.items ++ flat_map vector_line (below cycles)) }
{
    for t in 0..cycles {
        put_vector(text, t)?;
    }
    Ok(())
}

/// The workload of the generated campaign: `stages` + 8 cycles, in which the input is 1 in each third.
pub fn workload_text(alloc: Global, stages: u32) -> Result<Bytes, NoRoom>
    requires { (1 ≤ stages) × (stages ≤ 1000) }
    ensures { IfOk result (λ text. text ≡ workload_of stages) }
{
    let mut text = Vec::new(alloc);
    put_line(&mut text, &[b"workload,kind,d"])?;
    put_vectors(&mut text, stages + 8)?;
    Ok(Seq::from_vec(text))
}
