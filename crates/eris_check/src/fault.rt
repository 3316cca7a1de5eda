use eris_base::NoMemory;

/// Why bytes give no report.
#[derive(Clone, Copy, Debug, PartialEq, Eq)]
pub enum ReportFault {
    /// The bytes are no report text; the number, from 1, of the first line that no report text has behind
    /// the lines before it. Where all lines fit and the text isn't at its end, it is one more than their
    /// number.
    Bad { line: u32 },
    /// An allocation was refused.
    NoMemory,
}

impl From<NoMemory> for ReportFault {
    ghost use Rattle.std.specs.Prelude.{◌≡◌};
    ghost use Rattle.eris_check.specs.declared.fault.ReportFault.TheVariants.{NoMemory as out_of_memory};

    ghost from_gives = { λ _ fault. fault ≡ out_of_memory };

    fn from(_: NoMemory) -> ReportFault {
        ReportFault::NoMemory
    }
}
