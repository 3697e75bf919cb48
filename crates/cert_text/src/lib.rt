//! Reports, and their text.
#![tactic(auto)]

mod carrying;
mod evidence;
mod report;
mod word;
mod wording;
mod writing;

pub use carrying::opposite_sign;
pub use report::{Answer, Carried, Limit, Named, Outside, Phase, Report, Unresolved};
pub use word::Word;
pub use wording::word_bytes;
pub use writing::write_report;
