// The rows of a gate's table.
ghost use Rattle.std.specs.Prelude.{◌≡◌, ◌==◌, ◌≤◌, ◌<◌, ◌^◌, ◌/◌, ◌%◌, ◌∷◌, [], true, IfOk, if◌then◌else◌, length, replicate};
ghost use Rattle.circuit.specs.declared.parts.Lit.TheVariants.{Zero, One};
ghost use Rattle.bench_reader.specs.Gates.{cells_of, is_one_cell, parity_rows, takes_inputs};
ghost use Rattle.bench_reader.specs.Steps.{gate_rows, is_odd_row};

use crate::gate::Gate;
use circuit::parts::{Lit, Row, Rows};
use fm_base::Seq;
use room::{NoRoom, filled};
use std::alloc::Global;

/// A row of the same cells.
fn even_row(alloc: Global, lit: Lit, inputs: usize) -> Result<Row, NoRoom>
    ensures { IfOk result (λ row. row ≡ replicate inputs lit) }
{
    Ok(Seq::from_vec(filled(alloc, lit, inputs)?))
}

/// The cell of a bit of a number.
fn cell_of(number: usize, bit: u32) -> Lit
    requires { bit < 64 }
    ensures { result ≡ (if number / 2 ^ bit % 2 == 1 then One else Zero) }
{
    if number / 2usize.pow(bit) % 2 == 1 {
        Lit::One
    } else {
        Lit::Zero
    }
}

/// A number in binary, in so many cells, the highest first.
fn binary_row(alloc: Global, inputs: u32, number: usize) -> Result<Row, NoRoom>
    requires { inputs ≤ 8 }
    ensures { IfOk result (λ row. row ≡ cells_of inputs number) }
{
    let mut row = Seq::new(alloc);
    let mut left = inputs;
    while left > 0 {
        left -= 1;
        row.push(cell_of(number, left))?;
    }
    Ok(row)
}

/// Whether the number of ones is odd.
fn is_odd(row: &[Lit]) -> bool
    ensures { result ≡ is_odd_row row.now }
{
    row.iter().filter(|cell| is_a_one(**cell)).count() % 2 == 1
}

fn is_a_one(cell: Lit) -> bool
    ensures { result ≡ is_one_cell cell }
{
    match cell {
        Lit::One => true,
        Lit::Zero | Lit::Any => false,
    }
}

/// The rows of so many cells with an odd number of ones, as rising binary numbers.
fn parity_rows(alloc: Global, inputs: u32) -> Result<Rows, NoRoom>
    requires { inputs ≤ 8 }
    ensures { IfOk result (λ rows. rows ≡ parity_rows true inputs) }
{
    let mut rows = Seq::new(alloc);
    let numbers = 2usize.pow(inputs);
    for number in 0..numbers {
        let row = binary_row(alloc, inputs, number)?;
        if is_odd(row.as_slice()) {
            rows.push(row)?;
        }
    }
    Ok(rows)
}

/// One row.
fn only(alloc: Global, row: Row) -> Result<Rows, NoRoom>
    ensures { IfOk result (λ rows. rows ≡ row ∷ []) }
{
    let mut rows = Seq::new(alloc);
    rows.push(row)?;
    Ok(rows)
}

/// The rows of the table of a gate with so many inputs.
pub fn rows_of(alloc: Global, gate: Gate, inputs: usize) -> Result<Rows, NoRoom>
    requires { takes_inputs gate inputs ≡ true }
    ensures rows { IfOk result (λ rows. rows ≡ gate_rows gate inputs) }
    ensures few { IfOk result (λ rows. length rows ≤ 256) }
{
    match gate {
        Gate::And | Gate::Nand => only(alloc, even_row(alloc, Lit::One, inputs)?),
        Gate::Or | Gate::Nor => only(alloc, even_row(alloc, Lit::Zero, inputs)?),
        Gate::Xor | Gate::Xnor => parity_rows(alloc, inputs as u32),
        Gate::Not => only(alloc, even_row(alloc, Lit::Zero, 1)?),
        Gate::Buffer => only(alloc, even_row(alloc, Lit::One, 1)?),
    }
}
