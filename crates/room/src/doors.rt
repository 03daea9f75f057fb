// The doors of vectors, proved over the one of `edge`. Functions and clauses have the kit's names.
ghost use Rattle.std.specs.Prelude.{◌≡◌, ◌≤◌, ◌<◌, ◌+◌, [], ◌∷◌, ◌++◌, length, replicate, if◌then◌else◌, is_ok, IfOk, OnErr};
ghost use Rattle.std.specs.Vec.{vec_len, vec_capacity};

use crate::edge::{NoRoom, reserve};
use std::alloc::Global;

/// An empty vector with room for this many values.
pub fn with_room<T>(alloc: Global, capacity: usize) -> Result<Vec<T>, NoRoom>
    ensures items { IfOk result (λ v. v.items ≡ []) }
    ensures len { IfOk result (λ v. vec_len v ≡ 0) }
    ensures capacity { IfOk result (λ v. capacity ≤ vec_capacity v) }
{
    let mut v = Vec::new(alloc);
    match reserve(&mut v, capacity) {
        Ok(()) => Ok(v),
        Err(e) => {
            v.destroy_empty();
            Err(e)
        }
    }
}

/// Puts a value behind the others. For want of memory it is dropped, and they stay.
pub fn push<T: Drop>(v: &mut Vec<T>, value: T) -> Result<(), NoRoom>
    ensures items { v.new.items ≡ (if is_ok result then v.old.items ++ value ∷ [] else v.old.items) }
    ensures len { vec_len v.new ≡ (if is_ok result then vec_len v.old + 1 else vec_len v.old) }
    ensures capacity { vec_capacity v.old ≤ vec_capacity v.new }
    ensures full { OnErr result (vec_capacity v.old ≤ vec_len v.old) }
{
    reserve(v, 1)?;
    v.push_reserved(value);
    Ok(())
}

/// Puts values behind the others. For want of memory these stay alone.
pub fn extend<T: Copy>(v: &mut Vec<T>, other: &[T]) -> Result<(), NoRoom>
    ensures items { v.new.items ≡ (if is_ok result then v.old.items ++ other.now else v.old.items) }
    ensures len { vec_len v.new ≡ (if is_ok result then vec_len v.old + length other.now else vec_len v.old) }
    ensures capacity { vec_capacity v.old ≤ vec_capacity v.new }
    ensures full { OnErr result (vec_capacity v.old < vec_len v.old + length other.now) }
{
    reserve(v, other.len())?;
    v.extend_from_slice(other).unwrap();
    Ok(())
}

/// These values.
pub fn from_slice<T: Copy>(alloc: Global, items: &[T]) -> Result<Vec<T>, NoRoom>
    ensures items { IfOk result (λ v. v.items ≡ items.now) }
    ensures len { IfOk result (λ v. vec_len v ≡ length items.now) }
{
    let mut v = with_room(alloc, items.len())?;
    v.extend_from_slice(items).unwrap();
    Ok(v)
}

/// A value so many times.
pub fn filled<T: Copy>(alloc: Global, value: T, n: usize) -> Result<Vec<T>, NoRoom>
    ensures items { IfOk result (λ v. v.items ≡ replicate n value) }
    ensures len { IfOk result (λ v. vec_len v ≡ n) }
{
    let mut v = with_room(alloc, n)?;
    v.resize(n, value).unwrap();
    Ok(v)
}
