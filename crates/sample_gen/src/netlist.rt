// The netlist: two rows of stages, and a comparator.
ghost use Rattle.std.specs.Prelude.{◌≡◌, ◌<◌, ◌≤◌, ◌+◌, ◌++◌, ◌∷◌, [], codes, OnOk, IfOk};
ghost use Rattle.std.specs.List.{flat_map};
ghost use Rattle.fm_base.specs.Lists.{below};
ghost use Rattle.sample_gen.specs.Sample.{netlist_text as netlist_of};
ghost use Rattle.sample_gen.specs.Steps.{both_stages, stage_lines, with_number as number_behind, source_of as source_by};

use crate::lines::put_line;
use fm_base::{Bytes, Line, Seq};
use room::NoRoom;
use std::alloc::Global;

// A letter and a number, as `m7`.
fn numbered(letter: u8, i: u32) -> Line
    ensures { result ≡ number_behind (letter ∷ []) i }
{
    let mut name = Line::new();
    name.put(&[letter]);
    name.put_dec(u64::from(i));
    name
}

// What stage `i` of a row of latches reads: the input, or the latch before it.
fn source_of(latch: u8, i: u32) -> Line
    requires { 0 < i }
    ensures { result ≡ source_by (latch ∷ []) i }
{
    if i == 1 {
        let mut name = Line::new();
        name.put(b"d");
        name
    } else {
        numbered(latch, i - 1)
    }
}

// Adds stage `i` of a row: an inverter, and the latch that it feeds.
fn put_stage(text: &mut Vec<u8>, inverter: u8, latch: u8, i: u32) -> Result<(), NoRoom>
    requires { 0 < i }
    ensures { OnOk result (text.new.items ≡ text.old.items ++ stage_lines (inverter ∷ []) (latch ∷ []) i) }
{
    let inverted = numbered(inverter, i);
    put_line(
        text,
        &[b".names", source_of(latch, i).bytes(), inverted.bytes()],
    )?;
    put_line(text, &[b"0", b"1"])?;
    put_line(
        text,
        &[
            b".latch",
            inverted.bytes(),
            numbered(latch, i).bytes(),
            b"0",
        ],
    )
}

// Adds stage `i` of both rows.
fn put_both(text: &mut Vec<u8>, i: u32) -> Result<(), NoRoom>
    requires { 0 < i }
    ensures { OnOk result (text.new.items ≡ text.old.items ++ both_stages i) }
{
    put_stage(text, b'm', b'a', i)?;
    put_stage(text, b'n', b'b', i)
}

// Adds the stages of both rows.
fn put_stages(text: &mut Vec<u8>, stages: u32) -> Result<(), NoRoom>
    ensures { OnOk result (text.new.items ≡ text.old.items ++ flat_map (λ k. both_stages (k + 1)) (below stages)) }
{
    for k in 0..stages {
        put_both(text, k + 1)?;
    }
    Ok(())
}

/// The netlist of the generated campaign: two rows of so many inverters and latches from one input, the second the shadow
/// of the first, and a comparator of their ends.
pub fn netlist_text(alloc: Global, stages: u32) -> Result<Bytes, NoRoom>
    requires { (1 ≤ stages) × (stages ≤ 1000) }
    ensures { IfOk result (λ text. text ≡ netlist_of stages) }
{
    let (mission, shadow) = (numbered(b'a', stages), numbered(b'b', stages));
    let mut text = Vec::new(alloc);
    put_line(&mut text, &[b".model pipe"])?;
    put_line(&mut text, &[b".inputs d"])?;
    put_line(&mut text, &[b".outputs q e"])?;
    put_stages(&mut text, stages)?;
    put_line(&mut text, &[b".names", mission.bytes(), b"q"])?;
    put_line(&mut text, &[b"1 1"])?;
    put_line(
        &mut text,
        &[b".names", mission.bytes(), shadow.bytes(), b"e"],
    )?;
    put_line(&mut text, &[b"10 1"])?;
    put_line(&mut text, &[b"01 1"])?;
    put_line(&mut text, &[b".end"])?;
    Ok(Seq::from_vec(text))
}
