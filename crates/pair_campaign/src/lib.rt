//! Which pairs of a latent and a detected fault are dangerous together.
#![tactic(auto)]

mod crew;
mod dangerous;
mod fan_out;
mod law;
mod load;
mod text;
mod worker;

pub use crew::{PairCrew, PairPlanes};
pub use fan_out::judge;
pub use law::pairs_are_told;
pub use text::write_pairs;
