//! What interfaces may stand on.

ghost use Rattle.std.specs.Prelude.{◌≡◌, not};
ghost use Rattle.std.specs.List.{list_all};
ghost use Rattle.program_model.specs.InterfaceRules.{is_plain_class, defines_so, defines_plain, stands_free, interfaces_stand_free};

use crate::flags::Flags;
use crate::program::{Class, Program};

/// Whether a class is no interface.
fn is_plain_class(class: &Class) -> bool
    ensures { result ≡ is_plain_class class.now }
{
    !class.flags.has(Flags::INTERFACE)
}

/// Whether the class is no interface and defines the type.
fn defines_so(kind: u32, class: &Class) -> bool
    ensures { result ≡ defines_so kind class.now }
{
    class.name == kind && is_plain_class(class)
}

/// Whether the program defines the type by a class that is no interface.
fn defines_plain(program: &Program, kind: u32) -> bool
    ensures { result ≡ defines_plain program.now kind }
{
    program
        .classes
        .as_slice()
        .iter()
        .any(|class| defines_so(kind, class))
}

/// Whether the program defines none of the types by a class that is no interface.
fn defines_none_plain(program: &Program, kinds: &[u32]) -> bool
    ensures { result ≡ list_all (λ kind. not (defines_plain program.now kind)) kinds.now }
{
    kinds.iter().all(|kind| !defines_plain(program, *kind))
}

/// Whether a class is no interface, or stands on none that is none.
fn stands_free(program: &Program, class: &Class) -> bool
    ensures { result ≡ stands_free program.now class.now }
{
    is_plain_class(class)
        || (!defines_plain(program, class.superclass)
            && defines_none_plain(program, class.interfaces.as_slice()))
}

/// Whether no interface stands on a class of the program that is none: as its superclass, or in its list.
#[tactic(auto, unfolding(crate::specs::InterfaceRules::interfaces_stand_free))]
pub(crate) fn interfaces_stand_free(program: &Program) -> bool
    ensures { result ≡ interfaces_stand_free program.now }
{
    program
        .classes
        .as_slice()
        .iter()
        .all(|class| stands_free(program, class))
}
