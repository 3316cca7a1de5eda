ghost use Rattle.std.specs.Prelude.{◌≡◌};
ghost use Rattle.eris_words.specs.Reasons.{reason_name};

/// Why a line of a script is refused: by the grammar, by the limits and rules of a transaction, or by the
/// state of the system that the script runs in.
#[derive(Clone, Copy, Debug, PartialEq, Eq)]
pub enum Reason {
    /// The first line is no header.
    Header,
    /// A fixed word, or `;`, is expected and another word stands there.
    Word,
    /// A number in its range is expected.
    Number,
    /// A key is expected.
    Key,
    /// Bytes as pairs of hexadecimal digits are expected.
    Hex,
    /// The line ends too early, or goes on after its last word.
    End,
    /// A transaction has too many operations, keys or guards.
    TooMany,
    /// A key is locked twice, or set twice.
    RepeatedKey,
    /// A guard or a setting names a key that isn't locked.
    UnlockedKey,
    /// The system has no such client.
    NoSuchClient,
    /// The system has no such shard.
    NoSuchShard,
    /// The client submitted no such transaction.
    NoSuchTxn,
    /// A client asks for an abort of its own transaction.
    OwnTxn,
    /// An abort is asked for a transaction that isn't general.
    NotGeneral,
    /// No such packet was sent.
    NoSuchPacket,
    /// An epoch is named that no sequencer has begun, or for a packet that goes to no sequencer.
    NoSuchSequencer,
    /// The system has no such replica.
    NoSuchReplica,
    /// The replica has crashed.
    Crashed,
    /// The bytes of a noise line are a message.
    IsMessage,
}

impl Reason {
    /// The variant's name, as a refused script is told.
    pub fn name(&self) -> &'static str
        ensures { result.now ≡ reason_name self.now }
    {
        match self {
            Reason::Header => "Header",
            Reason::Word => "Word",
            Reason::Number => "Number",
            Reason::Key => "Key",
            Reason::Hex => "Hex",
            Reason::End => "End",
            Reason::TooMany => "TooMany",
            Reason::RepeatedKey => "RepeatedKey",
            Reason::UnlockedKey => "UnlockedKey",
            Reason::NoSuchClient => "NoSuchClient",
            Reason::NoSuchShard => "NoSuchShard",
            Reason::NoSuchTxn => "NoSuchTxn",
            Reason::OwnTxn => "OwnTxn",
            Reason::NotGeneral => "NotGeneral",
            Reason::NoSuchPacket => "NoSuchPacket",
            Reason::NoSuchSequencer => "NoSuchSequencer",
            Reason::NoSuchReplica => "NoSuchReplica",
            Reason::Crashed => "Crashed",
            Reason::IsMessage => "IsMessage",
        }
    }
}
