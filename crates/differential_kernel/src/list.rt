// Places in a list, one behind the other.
ghost use Rattle.std.specs.Prelude.{◌≡◌, ◌<◌, ◌+◌, ◌^◌, ℕ, Bool, length};
ghost use Rattle.place_set.specs.Places.{has};
ghost use Rattle.differential_kernel.specs.Places.{AreThose};

use place_set::PlaceSet;

/// Puts a place behind those in a list, of which there are so many, if it is one of them, and answers how many there are then.
pub fn list_if(is: bool, place: u32, list: &mut [u32], count: usize) -> usize
    requires { count < length list.old }
    ensures { (those : ℕ → Bool) → those place ≡ is → AreThose those place list.old count → AreThose those (place + 1) list.new result }
{
    if is {
        list[count] = place;
        count + 1
    } else {
        count
    }
}

/// Lists the places of a set, and answers how many there are.
pub fn list_all(set: &PlaceSet, list: &mut [u32]) -> usize
    requires few { set.now.bound < 2 ^ 32 }
    requires room { length list.old ≡ set.now.bound }
    ensures { AreThose (has set.now) set.now.bound list.new result }
{
    let mut from = 0;
    let mut count = 0;
    'places: while let Some(place) = set.next_from(from) {
        count = list_if(true, place as u32, list, count);
        from = place + 1;
    }
    count
}
