// A value at one place of a table that decides by itself what the table gives.
ghost use Rattle.std.specs.Prelude.{◌≡◌, ◌&&◌, not, map, IfOk, if◌then◌else◌};
ghost use Rattle.std.specs.List.{list_any};
ghost use Rattle.collapse_map.specs.Fixed.{lit_at, is_against, is_dash_literal, makes_match, stops_all, fixed_value};
ghost use Rattle.collapse_map.specs.Wants.{wants};

use circuit::parts::{Lit, Row, Table};
use room::{NoRoom, collect};
use std::alloc::Global;

// Whether a literal wants the other value.
fn is_against(v: bool, lit: Lit) -> bool
    ensures { result ≡ is_against v lit }
{
    match lit {
        Lit::Zero => v,
        Lit::One => !v,
        Lit::Any => false,
    }
}

fn is_dash(lit: Lit) -> bool
    ensures { result ≡ is_dash_literal lit }
{
    match lit {
        Lit::Any => true,
        _ => false,
    }
}

// The literal at a place of a row.
fn lit_at(row: &Row, place: usize) -> Lit
    ensures { result ≡ lit_at row.now place }
{
    match row.as_slice().get(place) {
        Some(lit) => *lit,
        None => Lit::Any,
    }
}

// How many places of a row want something.
fn wants_in(row: &Row) -> usize
    ensures { result ≡ wants row.now }
{
    row.as_slice().iter().filter(|lit| !is_dash(**lit)).count()
}

/// How many places of each row of a table want something. It takes time linear in the table's cells.
pub(crate) fn wants_of(alloc: Global, table: &Table) -> Result<Vec<usize>, NoRoom>
    ensures { IfOk result (λ counts. counts.items ≡ map wants table.now.rows) }
{
    collect(table.rows.as_slice().iter().map(|row| wants_in(row)), alloc)
}

// Whether the value at the place keeps all rows from matching.
fn is_stopping(table: &Table, place: usize, v: bool) -> bool
    ensures { result ≡ stops_all table.now place v }
{
    table
        .rows
        .as_slice()
        .iter()
        .all(|row| is_against(v, lit_at(row, place)))
}

// How much a literal wants by itself.
fn own_wants(lit: Lit) -> usize
    ensures { result ≡ (if is_dash_literal lit then 0 else 1) }
{
    if is_dash(lit) { 0 } else { 1 }
}

// Whether the value at the place makes the row match, of which so many places want something.
fn is_making(row: &Row, count: usize, place: usize, v: bool) -> bool
    requires { count ≡ wants row.now }
    ensures { result ≡ makes_match place v row.now }
{
    let lit = lit_at(row, place);
    !is_against(v, lit) && count == own_wants(lit)
}

// Whether the value at the place makes some row match.
fn is_some_made(rows: &[Row], counts: &[usize], place: usize, v: bool) -> bool
    requires { counts.now ≡ map wants rows.now }
    ensures { result ≡ list_any (makes_match place v) rows.now }
{
    for (k, row) in rows.iter().enumerate() {
        if is_making(row, counts[k], place, v) {
            return true;
        }
    }
    false
}

/// The value that a table has where a place has this value, whatever stands at the others, if it is so fixed. It takes time linear
/// in the table's rows.
pub(crate) fn fixed_value(table: &Table, counts: &[usize], place: usize, v: bool) -> Option<bool>
    requires { counts.now ≡ map wants table.now.rows }
    ensures { result ≡ fixed_value table.now place v }
{
    if is_stopping(table, place, v) {
        return Some(!table.on);
    }
    if is_some_made(table.rows.as_slice(), counts, place, v) {
        return Some(table.on);
    }
    None
}
