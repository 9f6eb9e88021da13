//! What a plan's run leaves behind, where its commands end as they are told.
#![tactic(auto)]

mod answers;
mod failures;
mod places;
mod running;
mod story;

pub use answers::Failure;
pub use failures::{FailureFault, failure_of};
pub use running::story_over;
