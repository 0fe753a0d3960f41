//! Timelines: what is said at each moment of a range, and where it changes.
//!
//! What is said depends on the moment through the validity of signatures alone. So it is asked for at the first moment
//! of the range and at each moment at which a signature begins to be valid or is valid no more.
#![tactic(auto)]

pub use judge::Judge;
pub use laws::{
    kinds_begin_where_stretches_do, nothing_changes_between_points, points_of_worked_examples,
    there_is_one_timeline, what_holds_throughout, where_signatures_change,
};
pub use points::points_of_change;
pub use range::Range;
pub use stretch::Stretch;
pub use timeline::timeline_of;
pub use times::Times;
pub use within::is_valid_within;

mod judge;
mod laws;
mod points;
mod range;
mod stretch;
mod timeline;
mod times;
mod within;
