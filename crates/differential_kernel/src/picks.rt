// Lanes that are picked out of others.
ghost use Rattle.std.specs.Prelude.{◌≡◌, ◌≢◌, ◌<◌, ◌≤◌, ◌+◌, ◌*◌, ◌⊎◌, ◌||◌, [], ℕ, IfSome, None, Some, false, true, length};
ghost use Rattle.fm_base.specs.Planes.{bit};
ghost use Rattle.lane_words.specs.Loads.{loaded_faults, somes};
ghost use Rattle.differential_kernel.specs.Picked.{AreBelow, ArePicks, bit_at_place, is_place, lane_at, place_in};

use circuit::parts::Fault;
use lane_words::Word;
use std::marker::Model;

// At most so many lanes are picked, of at most so many.
const MOST: u32 = 64;

const LANES: usize = 256;

/// Up to 64 lanes of up to 256, one behind the other.
#[derive(Drop)]
pub struct Picks {
    count: u32,
    lanes: [u32; 64],
    places: [Option<u32>; 256],
}

impl Model for Picks {
    ghost use Rattle.differential_kernel.specs.Picked.{ArePicks, Picks};

    ghost Value = { Picks };

    ghost view = { λ s. record { count = s.count; lanes = s.lanes; places = s.places } };

    ghost invariant = { λ s. ArePicks (record { count = s.count; lanes = s.lanes; places = s.places }) };
}

// Whether there is a fault.
fn is_loaded(faults: &[Option<Fault>]) -> bool
    ensures { result ≡ false → somes faults.now ≡ [] }
{
    for fault in faults {
        if let Some(_) = fault {
            return true;
        }
    }
    false
}

// The bit at a place; false where there is no place.
fn bit_at(bits: u64, place: Option<u32>) -> bool
    requires { (own : ℕ) → place ≡ Some own → own < 64 }
    ensures { result ≡ bit_at_place bits place }
{
    match place {
        Some(place) => bits.get(place),
        None => false,
    }
}

// The bits with that of a place set.
fn with_place(bits: u64, place: Option<u32>) -> u64
    requires { (own : ℕ) → place ≡ Some own → own < 64 }
    ensures { (other : ℕ) → other < 64 → bit result other ≡ (is_place other place || bit bits other) }
{
    match place {
        Some(place) => bits.put(place, true),
        None => bits,
    }
}

impl Picks {
    /// No lane.
    pub fn none() -> Self
        ensures none { result.count ≡ 0 }
        ensures sound { ArePicks result }
    {
        Picks {
            count: 0,
            lanes: [0; 64],
            places: [None; LANES],
        }
    }

    // Picks one more lane.
    fn add(&mut self, lane: usize)
        requires few { self.old.count < 64 }
        requires lane { lane < 256 }
        ensures sound { ArePicks self.new }
        ensures below { (bound : ℕ) → lane < bound → AreBelow bound self.old → AreBelow bound self.new }
        ensures others { (other : ℕ) → place_in self.new other ≡ None → place_in self.old other ≡ None }
        ensures own { place_in self.new lane ≡ None → ⊥ }
    {
        self.lanes[self.count as usize] = lane as u32;
        self.places[lane] = Some(self.count);
        self.count += 1;
    }

    /// The lanes that have a fault, in rising order, where there are at most 64.
    pub fn of(faults: &[[Option<Fault>; 2]]) -> Option<Self>
        requires { length faults.now ≤ 256 }
        ensures sound { IfSome result ArePicks }
        ensures below { IfSome result (AreBelow (length faults.now)) }
        ensures rest { IfSome result (λ picks. (lane : ℕ) → lane < length faults.now → place_in picks lane ≡ None → loaded_faults faults.now lane ≡ []) }
    {
        let mut picks = Picks::none();
        for (lane, own) in faults.iter().enumerate() {
            if is_loaded(own) {
                if picks.count >= MOST {
                    return None;
                }
                picks.add(lane);
            }
        }
        Some(picks)
    }

    /// How many lanes are picked.
    pub fn count(&self) -> u32
        ensures count { result ≡ self.now.count }
        ensures few { result ≤ 64 }
        ensures sound { ArePicks self.now }
    {
        self.count
    }

    /// The picked lane of a place.
    pub fn lane(&self, place: u32) -> u32
        requires { place < self.now.count }
        ensures { result ≡ lane_at self.now place }
    {
        self.lanes[place as usize]
    }

    // The place of a lane, where it is picked.
    fn place(&self, lane: u32) -> Option<u32>
        requires { lane < 256 }
        ensures place { result ≡ place_in self.now lane }
        ensures below { (place : ℕ) → result ≡ Some place → place < 64 }
    {
        self.places[lane as usize]
    }

    /// The plane of a word of lanes, of which the bits stand at their places; lanes that aren't picked have 0.
    pub fn spread(&self, word: u32, bits: u64) -> u64
        requires { word < 4 }
        ensures bits { (k : ℕ) → k < 64 → bit result k ≡ bit_at_place bits (place_in self.now (word * 64 + k)) }
        ensures sound { ArePicks self.now }
    {
        let _few = self.count;
        if bits == 0 {
            return 0;
        }
        let mut plane = 0u64;
        for lane in 0..MOST {
            let place = self.place(word * MOST + lane);
            plane = plane.put(lane, bit_at(bits, place));
        }
        plane
    }

    /// The bits at the places of those lanes of a word whose bit is set.
    pub fn places_of(&self, word: u32, plane: u64) -> u64
        requires { word < 4 }
        ensures set { (k place : ℕ) → k < 64 → bit plane k ≡ true → place_in self.now (word * 64 + k) ≡ Some place → bit result place ≡ true }
        ensures others { (other k place : ℕ) → k < 64 → (other ≢ word) ⊎ (bit plane k ≡ false) → place_in self.now (other * 64 + k) ≡ Some place
            → bit result place ≡ false }
        ensures sound { ArePicks self.now }
    {
        let _few = self.count;
        let mut bits = 0u64;
        for lane in 0..MOST {
            if plane.get(lane) {
                bits = with_place(bits, self.place(word * MOST + lane));
            }
        }
        bits
    }
}
