use crate::body::Body;
use eris_base::{ClientId, Dup, NoMemory, Same, Stamp, TxnId};
use std::alloc::Global;

/// A stamped body. The asker is the client that gets the replies.
#[derive(Debug, Drop)]
pub struct Packet {
    pub stamp: Stamp,
    pub id: TxnId,
    pub asker: ClientId,
    pub body: Body,
}

impl Dup for Packet {
    fn copy(&self, alloc: Global) -> Result<Packet, NoMemory> {
        Ok(Packet {
            stamp: self.stamp.copy(alloc)?,
            id: self.id,
            asker: self.asker,
            body: self.body.copy(alloc)?,
        })
    }
}

impl Same for Packet {
    fn same(&self, other: &Packet) -> bool {
        self.id == other.id
            && self.asker == other.asker
            && self.stamp.same(&other.stamp)
            && self.body.same(&other.body)
    }
}
