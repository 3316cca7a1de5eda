use eris_base::Node;

/// What an event comes to: one step of one node, or something that the network does. Packets go by their numbers, counted
/// from 0 in order of sending.
#[derive(Clone, Copy, Debug, PartialEq, Eq)]
pub enum Action {
    /// The packet of this number is delivered to this node.
    Delivers(u32, Node),
    /// The packet of this number, which was sent to this node, is lost.
    Loses(u32, Node),
    /// This node is called: by its client's user, by its timer, by a crash, or with bytes that nobody sent.
    Calls(Node),
    /// Nothing happens, since no packet waits.
    Nothing,
}
