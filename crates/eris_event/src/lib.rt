//! Values that a run takes and gives: the events of a script, why the world refuses one, and the report. In which ranges the fields
//! of an event are is defined here; how events are written is not.
#![tactic(auto)]

mod event;
mod limit;
mod refusal;
mod report;

pub use event::Event;
pub use limit::Limit;
pub use refusal::Refusal;
pub use report::{ReplicaLine, ReplicaState, Report};
