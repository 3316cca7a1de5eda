use eris_msg::Message;

/// What makes the coordinator step.
#[derive(Debug, Drop)]
pub enum CoordInput {
    /// A message came.
    Message(Message),
    /// Its timer: it asks again for what it waits for.
    Nudge,
}
