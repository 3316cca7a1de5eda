use eris_msg::Message;

/// What makes a replica step.
#[derive(Debug, Drop)]
pub enum ReplicaInput {
    /// A message came.
    Message(Message),
    /// Its timer for what it lacks.
    Probe,
    /// Its timer for a learner that is silent: it goes on to the next view.
    Suspect,
    /// Its timer for settling what a quorum has, if it is the learner.
    Sync,
}
