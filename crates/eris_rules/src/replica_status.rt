/// How a replica stands to its view.
#[derive(Clone, Copy, Debug, PartialEq, Eq)]
pub enum ReplicaStatus {
    /// It takes part in the view.
    Normal,
    /// It waits for the view to begin.
    Changing,
}
