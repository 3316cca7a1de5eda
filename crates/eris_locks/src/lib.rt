//! What a shard's store does with packets: the lock table, the plain run that knows no locks, and the
//! lists of packets over which the two agree. They are definitions; this crate has no code but the types
//! that they speak of, and what is told of one packet: its phase, and its place on a shard.
#![tactic(auto)]

mod done;
mod held;
mod phases;
mod placing;
mod shard_packet;

pub use done::Done;
pub use held::Held;
pub use phases::{is_same_phase, phase_of};
pub use placing::place_on;
pub use shard_packet::ShardPacket;
