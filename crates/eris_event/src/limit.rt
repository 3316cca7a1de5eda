ghost use Rattle.std.specs.Prelude.{◌≡◌};
ghost use Rattle.eris_event.specs.Limits.{limit_name};

/// Of what a run may send only so much.
#[derive(Clone, Copy, Debug, PartialEq, Eq)]
pub enum Limit {
    /// 262,144 packets.
    Packets,
    /// 67,108,864 bytes in the frames of the packets.
    Bytes,
}

impl Limit {
    /// The variant's name, as a refused script is told.
    pub fn name(&self) -> &'static str
        ensures { result.now ≡ limit_name self.now }
    {
        match self {
            Limit::Packets => "Packets",
            Limit::Bytes => "Bytes",
        }
    }
}
