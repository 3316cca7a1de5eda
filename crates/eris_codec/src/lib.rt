//! How the fields of messages are spelled by bytes and read from them: numbers, names, bodies, packets and parts.
//!
//! # What its calls ask
//!
//! What writes a value asks that it is in the range of its field, since no bytes spell another.
//! What reads asks nothing.
#![tactic(auto)]

mod fault;
mod input;
mod read_fields;
mod read_lists;
mod read_parts;
mod write_fields;
mod write_lists;

pub use fault::{DecodeFault, DecodeReason, Stop};
pub use input::{Input, bad};
pub use read_fields::{
    read_client, read_epoch, read_id, read_number, read_phase, read_place, read_replica,
    read_shard, read_stamp, read_view,
};
pub use read_lists::{read_answer, read_body, read_packet, read_packets};
pub use read_parts::{read_part, read_places};
pub use write_fields::{
    put_client, put_epoch, put_id, put_number, put_phase, put_place, put_replica, put_shard,
    put_tag, put_view, put_word,
};
pub use write_lists::{
    put_answer, put_body, put_packet, put_packets, put_part, put_places, put_stamp,
};
