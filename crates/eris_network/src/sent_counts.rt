/// How much was sent.
#[derive(Clone, Copy, Debug, PartialEq, Eq)]
pub struct SentCounts {
    /// How many packets, at most 262,144.
    pub packets: usize,
    /// How many bytes their frames have, at most 67,108,864.
    pub bytes: usize,
}
