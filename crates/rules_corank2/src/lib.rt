//! The rules for two residual variables: the base kill and the patterns of a part, and the pieces of its finish.
#![tactic(auto)]

mod begin_moves;
mod begin_plane;
mod extend;
mod finish_base;
mod finish_choice;
mod finish_graded;
mod finish_jets;
mod finish_kills;
mod finish_moves;
mod finish_puts;
mod finish_state;
mod finish_tail;
mod pattern;

pub use begin_moves::{
    less_x_change, less_y_change, line_change, root_change, roots_change, two_changes,
};
pub use begin_plane::plane_change;
pub use extend::extend2;
pub use finish_base::{Finish, finish_still};
pub use finish_choice::{Choice, at, choices, first_choice, least, power_at};
pub use finish_graded::finish_chosen;
pub use finish_kills::graded_kill;
pub use finish_moves::{multiple, over, putting, variable};
pub use finish_state::{Finishing, moved};
pub use pattern::pattern_of2;
