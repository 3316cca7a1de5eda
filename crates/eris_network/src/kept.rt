use eris_base::{Node, Row};

/// A sent message: the node that it goes to, and the frame of its spelling.
#[derive(Debug, Drop)]
pub struct Kept {
    pub to: Node,
    pub frame: Row<u8>,
}
