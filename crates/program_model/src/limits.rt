//! The limits that are counted while files are read.

ghost use Rattle.std.specs.Prelude.{◌≡◌};
ghost use Rattle.program_model.specs.Limits.{limit_of};

/// What is counted: bytes of the rules, the file and the script, cells of the bodies, entries of the id tables, UTF-16
/// units of all texts, and the entries of lists, values and debug items.
#[derive(Clone, Copy, PartialEq, Eq, Debug, Drop)]
pub enum Counted {
    RuleBytes,
    FileBytes,
    ScriptBytes,
    Cells,
    Types,
    Protos,
    Fields,
    Methods,
    TextUnits,
    Items,
}

impl Counted {
    /// The most that a file or a text may have of it.
    pub const fn limit(self) -> u64
        ensures { result ≡ limit_of self }
    {
        match self {
            Counted::RuleBytes | Counted::ScriptBytes => 1_048_576,
            Counted::FileBytes | Counted::TextUnits | Counted::Items => 16_777_216,
            Counted::Cells => 67_108_864,
            Counted::Types | Counted::Protos => 65_535,
            Counted::Fields | Counted::Methods => 65_536,
        }
    }
}

/// A limit that is passed: `number` is what was counted, the limit plus 1.
#[derive(Clone, Copy, PartialEq, Eq, Debug, Drop)]
pub struct LimitFault {
    pub counted: Counted,
    pub number: u64,
}
