use eris_base::Config;

/// What a script's first line says: the version of its lines, 1 or 2, and the sizes of the system.
#[derive(Clone, Copy, Debug, PartialEq, Eq)]
pub struct Header {
    pub version: u8,
    pub config: Config,
}
