use eris_base::Row;
use eris_event::Event;
use eris_msg::Outgoing;

/// What a node of a live run did: an event, and the messages that its step sent, in order.
#[derive(Debug, Drop)]
pub struct LiveEntry {
    /// The event.
    pub event: Event,
    /// What the node's step sent.
    pub sent: Row<Outgoing>,
}
