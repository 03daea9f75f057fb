//! A shared counter from which each number is drawn once, a turn with a value behind it, and the history of what was posted.
#![tactic(auto)]

mod claims;
mod kept;
mod kinds;
mod rule;
mod seat;
mod turn;
mod view;

pub use claims::Claims;
pub use kept::Kept;
pub use kinds::{
    a_draw_is_an_event, a_join_moves_claims, a_load_changes_nothing, a_new_table_is_fresh,
    a_note_is_a_post, a_returned_turn_may_fail, a_split_shows_the_same, a_taken_turn_is_a_look,
    the_first_turn_is_a_look, the_history_has_each_once,
};
pub use seat::Seat;
pub use turn::{Alone, Turn, Waiting};
pub use view::View;
