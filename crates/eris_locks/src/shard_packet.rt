use eris_base::{ClientId, Dup, NoMemory, Place, TxnId};
use eris_txn::Body;
use std::alloc::Global;

/// What a packet is to one shard: its place there, and of its body what is on keys of that shard.
#[derive(Debug, Drop)]
pub struct ShardPacket {
    pub id: TxnId,
    pub asker: ClientId,
    pub at: Place,
    pub body: Body,
}

impl Dup for ShardPacket {
    fn copy(&self, alloc: Global) -> Result<ShardPacket, NoMemory> {
        Ok(ShardPacket {
            id: self.id,
            asker: self.asker,
            at: self.at,
            body: self.body.copy(alloc)?,
        })
    }
}
