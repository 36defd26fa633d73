//! How a run ends.

ghost use Rattle.std.specs.Prelude.{◌≡◌};
ghost use Rattle.redex_cli.specs.Status.{code_of};

use dex_read::DexFault;
use hierarchy::HierarchyFault;
use if_rules::RuleFault;
use program_model::LimitFault;
use verify::TypeFault;

/// What is wrong with a file: its bytes, the graph of its classes, the types of its bodies, or the library's bytes.
#[derive(Debug, Drop)]
pub enum InputFault {
    Dex(DexFault),
    Hierarchy(HierarchyFault),
    Typing(TypeFault),
    Library(DexFault),
}

/// How a run ends.
#[derive(Debug, Drop)]
pub enum Status {
    /// The command's result was put, where it puts one, and said.
    Done,
    /// The words spell no command.
    Usage,
    /// The rules have a fault.
    BadRules(RuleFault),
    /// The file or the library has a fault.
    BadDex(InputFault),
    /// A limit is passed.
    Limit(LimitFault),
    /// A name could not be fetched.
    ReadFault,
    /// The output could not be put, or the result could not be said.
    WriteFault,
    /// Memory ran out.
    NoMemory,
    /// A line of the script is outside its grammar.
    BadScript(u32),
}

impl Status {
    /// The status as a number, 0 to 8 in the order of the variants. It takes no memory.
    pub fn code(&self) -> u8
        ensures { result ≡ code_of self.now }
    {
        match self {
            Status::Done => 0,
            Status::Usage => 1,
            Status::BadRules(_) => 2,
            Status::BadDex(_) => 3,
            Status::Limit(_) => 4,
            Status::ReadFault => 5,
            Status::WriteFault => 6,
            Status::NoMemory => 7,
            Status::BadScript(_) => 8,
        }
    }
}
