//! The types that the machine itself knows.

ghost use Rattle.std.specs.Prelude.{◌≡◌, ◌||◌, ℕ, List, IfOk};
ghost use Rattle.dalvik_defs.specs.Names.{text_eq};
ghost use Rattle.dalvik_defs.specs.Known.{known_rows};
ghost use Rattle.text_defs.specs.Plays.{has_row};
ghost use Rattle.script_text.specs.Named.{has_name};

use crate::escapes::push_bytes;
use crate::names::TypeNames;
use crate::pieces::pieces;
use std::alloc::{AllocError, Global};

/// Their names, each in a line.
const KNOWN: &str = "Ljava/lang/Throwable;
Ljava/lang/Exception;
Ljava/lang/Error;
Ljava/lang/RuntimeException;
Ljava/lang/ArithmeticException;
Ljava/lang/NullPointerException;
Ljava/lang/ClassCastException;
Ljava/lang/NegativeArraySizeException;
Ljava/lang/ArrayStoreException;
Ljava/lang/IndexOutOfBoundsException;
Ljava/lang/IllegalMonitorStateException;
Ljava/lang/ArrayIndexOutOfBoundsException;
Ljava/lang/LinkageError;
Ljava/lang/ExceptionInInitializerError;
Ljava/lang/NoClassDefFoundError;
Ljava/lang/IncompatibleClassChangeError;
Ljava/lang/AbstractMethodError;";

/// Adds a name that is written in ASCII; it may be there already.
fn add_known(alloc: Global, names: &mut TypeNames, known: &[u8]) -> Result<(), AllocError>
    ensures { IfOk result (λ _. (name : List ℕ) → has_name names.new name ≡ (text_eq name known.now || has_name names.old name)) }
{
    let mut units = Vec::new(alloc);
    push_bytes(&mut units, known)?;
    names.add(units)?;
    Ok(())
}

/// The names of the types that the machine itself knows.
pub fn known_names(alloc: Global) -> Result<TypeNames, AllocError>
    ensures { IfOk result (λ names. (name : List ℕ) → has_name names name ≡ has_row known_rows name) }
{
    let mut names = TypeNames::new(alloc);
    for known in pieces(alloc, KNOWN.as_bytes(), b'\n')?.iter() {
        add_known(alloc, &mut names, known)?;
    }
    Ok(names)
}
