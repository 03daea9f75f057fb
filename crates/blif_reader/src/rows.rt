// The rows of a table.
ghost use Rattle.std.specs.Prelude.{◌≡◌, ◌<◌, ◌∷◌, [], IfOk, IfSome, MatchOption, bytes_eq, codes, length, map};
ghost use Rattle.blif_model.specs.LineFault.{row_output};
ghost use Rattle.blif_model.specs.Models.{rows_below};
ghost use Rattle.blif_model.specs.Net.{lits_of, table_plane};
ghost use Rattle.blif_model.specs.WalkSteps.{lit_of};
ghost use Rattle.blif_model.specs.Tokens.{texts_of};

use blif_model::read_line::ReadLine;
use blif_model::says::Says;
use blif_text::token::Token;
use circuit::parts::{Lit, Row, Rows};
use fm_base::Seq;
use room::{NoRoom, collect};
use std::alloc::Global;

/// The lines below a line, from which the rows that stand directly there are taken one by one.
#[derive(Drop)]
pub struct RowsBelow<'m, 'a> {
    pub lines: &'m [ReadLine<'a>],
}

impl<'m, 'a> RowsBelow<'m, 'a> {
    /// The next row.
    pub fn next(&mut self) -> Option<&'m [Token<'a>]>
        ensures rows { MatchOption result (rows_below self.old.lines.now ≡ []) (λ tokens. rows_below self.old.lines.now ≡ texts_of tokens.now ∷ rows_below self.new.lines.now) }
        ensures fewer { IfSome result (λ tokens. length self.new.lines.now < length self.old.lines.now) }
    {
        let lines = self.lines;
        for (place, line) in lines.iter().enumerate() {
            match line.says() {
                Says::Row(tokens) => {
                    self.lines = &lines[place + 1..];
                    return Some(tokens);
                }
                Says::Passed => {}
                _ => return None,
            }
        }
        None
    }
}

/// The literal of a cell.
fn lit(cell: u8) -> Lit
    ensures { result ≡ lit_of cell }
{
    if cell == b'0' {
        Lit::Zero
    } else if cell == b'1' {
        Lit::One
    } else {
        Lit::Any
    }
}

fn lits(alloc: Global, cells: &[u8]) -> Result<Vec<Lit>, NoRoom>
    ensures { IfOk result (λ row. row.items ≡ map lit_of cells.now) }
{
    collect(cells.iter().map(|cell| lit(*cell)), alloc)
}

/// The literals of a row's tokens.
fn row_of(alloc: Global, tokens: &[Token<'_>]) -> Result<Row, NoRoom>
    ensures { IfOk result (λ row. row ≡ lits_of (texts_of tokens.now)) }
{
    match tokens {
        [cells, _, ..] => Ok(Seq::from_vec(lits(alloc, cells.text)?)),
        _ => Ok(Seq::new(alloc)),
    }
}

/// The rows that stand directly below a line.
pub fn rows_of(alloc: Global, below: &[ReadLine<'_>]) -> Result<Rows, NoRoom>
    ensures { IfOk result (λ rows. rows ≡ map lits_of (rows_below below.now)) }
{
    let mut rows = Seq::new(alloc);
    let mut left = RowsBelow { lines: below };
    'rows: while let Some(tokens) = left.next() {
        rows.push(row_of(alloc, tokens)?)?;
    }
    Ok(rows)
}

/// The output of a row is a 1.
fn is_on(tokens: &[Token<'_>]) -> bool
    ensures { result ≡ bytes_eq (row_output (texts_of tokens.now)) (codes "1") }
{
    match tokens {
        [] => false,
        [output] => output.text == b"1".as_slice(),
        [_, output, ..] => output.text == b"1".as_slice(),
    }
}

/// The plane of the rows that stand directly below a line.
pub fn plane_of(below: &[ReadLine<'_>]) -> bool
    ensures { result ≡ table_plane (rows_below below.now) }
{
    let mut rows = RowsBelow { lines: below };
    match rows.next() {
        Some(tokens) => is_on(tokens),
        None => true,
    }
}
