/// Why an entry wasn't added.
#[derive(Clone, Copy, Debug, Eq, PartialEq)]
pub enum AddFault {
    /// The book's limit of packets.
    Packets,
    /// The book's limit of bytes.
    Bytes,
    /// An allocation was refused.
    NoMemory,
}
