//! The run of the plan over germs carried by chains, and the report of a line.
#![tactic(auto)]

mod ending;
mod extending;
mod finish;
mod jet;
mod killing;
mod lifting;
mod line;
mod naming;
mod power;
mod run;
mod splitting;
mod start;
mod step;
mod stop;
mod testing;
mod turn;

pub use ending::{carried_of, limited, outside};
pub use extending::{Extension, open_reduced};
pub use finish::finish_searching;
pub use jet::{residual_part, squares_of};
pub use killing::kill_next;
pub use lifting::{lift_change, lift_jet};
pub use line::classify;
pub use naming::{Naming, family_found, naming_by, naming_of};
pub use power::least_power;
pub use run::answer_to_germ;
pub use splitting::split_next;
pub use start::{Begun, First, begin};
pub use step::Step;
pub use stop::{Stop, in_phase, range_answer};
pub use testing::test;
pub use turn::{open_searching, turn_searching};
