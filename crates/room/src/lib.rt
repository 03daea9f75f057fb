// Memory, asked for through doors.
#![tactic(auto)]

mod doors;
mod edge;
pub mod index_map;
mod maps;

pub use doors::{extend, filled, from_slice, push, with_room};
pub use edge::{
    NoRoom, arg, collect, from_array, from_str, read_byte_record, reserve, subcommand,
    try_get_matches_from, vacant,
};
pub use maps::{insert, insert_full};
