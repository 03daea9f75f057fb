// Lines that instance a model of a number.
ghost use Rattle.std.specs.Prelude.{◌≡◌, ◌==◌, ℕ, false, map, option_and_then, slice_get, slice_index};
ghost use Rattle.fm_base.specs.Firsts.{first_where};
ghost use Rattle.blif_model.specs.Models.{Model, at_model, instances};
ghost use Rattle.blif_hierarchy.specs.Lines.{instance_answer};
ghost use Rattle.blif_hierarchy.specs.Numbered.{first_numbered, numbered_line, ring_line};

use crate::faults::line_if;
use blif_flatten::table::ModelTable;
use blif_model::read_line::ReadLine;
use blif_model::says::Says;

fn number_at(numbers: &[u64], place: usize) -> u64
    ensures { result ≡ slice_index numbers.now place }
{
    numbers.get(place).copied().unwrap_or(0)
}

/// The model of a name has the number.
fn has_number(models: &ModelTable<'_, '_>, numbers: &[u64], number: u64, name: &[u8]) -> bool
    ensures { (f : Model → ℕ) → numbers.now ≡ map f models.now → result ≡ at_model models.now name.now (λ m. f m == number) false }
{
    match models.place(name) {
        Some(place) => number_at(numbers, place) == number,
        None => false,
    }
}

/// The number of a line, if it instances a model of this number.
fn numbered_line(
    models: &ModelTable<'_, '_>,
    numbers: &[u64],
    number: u64,
    line: &ReadLine<'_>,
) -> Option<u32>
    ensures { (f : Model → ℕ) → numbers.now ≡ map f models.now → result ≡ instance_answer (numbered_line models.now f number) line.now }
{
    match line.says() {
        Says::Instance { name, .. } => {
            line_if(has_number(models, numbers, number, name), line.number())
        }
        _ => None,
    }
}

/// The number of the first of these lines that instances a model of this number.
fn first_numbered(
    models: &ModelTable<'_, '_>,
    numbers: &[u64],
    number: u64,
    lines: &[ReadLine<'_>],
) -> Option<u32>
    ensures { (f : Model → ℕ) → numbers.now ≡ map f models.now → result ≡ first_where (instance_answer (numbered_line models.now f number)) lines.now }
{
    for line in lines {
        if let Some(found) = numbered_line(models, numbers, number, line) {
            return Some(found);
        }
    }
    None
}

/// The number of the first line that instances a model of the number of its own.
pub fn ring_line(models: &ModelTable<'_, '_>, numbers: &[u64]) -> Option<u32>
    ensures { (f : Model → ℕ) → numbers.now ≡ map f models.now → result ≡ ring_line models.now f }
{
    for (place, model) in models.lines().iter().enumerate() {
        let own = number_at(numbers, place);
        if let Some(found) = first_numbered(models, numbers, own, model.items) {
            return Some(found);
        }
    }
    None
}

/// The number of the first line of the main model that instances a model of this number.
pub fn main_line(models: &ModelTable<'_, '_>, numbers: &[u64], number: u64) -> Option<u32>
    ensures { (f : Model → ℕ) → numbers.now ≡ map f models.now → result ≡ option_and_then (first_numbered models.now f number) (slice_get models.now 0) }
{
    match models.main() {
        Some(model) => first_numbered(models, numbers, number, model.items),
        None => None,
    }
}
