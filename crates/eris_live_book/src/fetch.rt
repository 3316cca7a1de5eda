/// That a node fetched a packet.
#[derive(Clone, Copy, Debug)]
pub struct Fetch {
    /// The node's number.
    pub node: u32,
    /// The packet's number.
    pub number: u32,
}
