//! How far a run of the plan has come.

use cert_text::Answer;
use coord_change::Chain;
use ext_algebra::Ext;
use ring_law::Frac;

/// The run is over; or it has come to the test of an order with a chain of that order, before a part is known.
#[derive(Drop)]
pub enum Step {
    Ends(Answer),
    Searching(Chain<Ext<Frac>>),
}
