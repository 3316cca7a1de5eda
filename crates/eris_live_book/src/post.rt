use eris_event::Event;
use eris_network::Frames;

/// An entry as the book keeps it: what its step sent is kept in frames.
#[derive(Drop)]
pub struct Post {
    /// The number of the node whose entry it is.
    pub node: u32,
    /// The event.
    pub event: Event,
    /// What the node's step sent.
    pub sent: Frames,
}
