use eris_base::Row;

/// A packet that a node fetched: its number among all that were sent, and its bytes.
#[derive(Debug, Drop)]
pub struct Fetched {
    /// Its number, from 0.
    pub number: u32,
    /// Its bytes.
    pub message: Row<u8>,
}
