use crate::message::Message;
use eris_base::{Dup, NoMemory, Node, Same};
use std::alloc::Global;

/// A message that a step sends, and to whom.
#[derive(Debug, Drop)]
pub struct Outgoing {
    pub to: Node,
    pub message: Message,
}

impl Dup for Outgoing {
    fn copy(&self, alloc: Global) -> Result<Outgoing, NoMemory> {
        Ok(Outgoing {
            to: self.to,
            message: self.message.copy(alloc)?,
        })
    }
}

impl Same for Outgoing {
    fn same(&self, other: &Outgoing) -> bool {
        self.to == other.to && self.message.same(&other.message)
    }
}
