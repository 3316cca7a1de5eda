/// Why the world refuses an event.
#[derive(Clone, Copy, Debug, PartialEq, Eq)]
pub enum Refusal {
    /// A client is named that isn't in the config.
    NoSuchClient,
    /// A key is of a shard that isn't in the config.
    NoSuchShard,
    /// The client submitted no transaction of this number.
    NoSuchTxn,
    /// A client asks for the abort of a transaction of its own.
    OwnTxn,
    /// The transaction isn't a general one.
    NotGeneral,
    /// No packet of this number was sent.
    NoSuchPacket,
    /// An epoch is named for a packet that isn't for a sequencer, or one that has no sequencer yet.
    NoSuchSequencer,
    /// A replica is named that isn't in the config.
    NoSuchReplica,
    /// The replica has crashed.
    Crashed,
    /// The bytes of a noise are a message.
    IsMessage,
    /// The sent packets would be more than 262,144.
    Packets,
    /// The frames of the sent packets would be more than 67,108,864 bytes.
    Bytes,
    /// There is no memory.
    NoMemory,
}
