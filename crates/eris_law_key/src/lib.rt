//! Why what was said to a client within one epoch is kept: drops are agreed, views are backed, what a quorum spoke past
//! is never dropped, and what is settled stays.
#![tactic(auto)]

mod law;

pub use law::{
    drops_are_agreed, settled_stays, spoken_past_is_kept, views_are_backed, what_is_said_is_so,
};
