//! The law of tables that shut the same: two tables of what the framework may reach that differ in silent and shut methods alone
//! let a program show the same, where they shut the same of its virtual methods (`specs/Shutting.antt`). A pass that gives a method
//! another name changes what the numbers of a table name, and so which names are shut; of the methods that are left the table says
//! what it said.

ghost use Rattle.std.specs.Prelude.{◌≡◌, Bool};
ghost use Rattle.dalvik_defs.specs.Outer.{Outer};
ghost use Rattle.dalvik_defs.specs.Shown.{SameShown};
ghost use Rattle.dalvik_defs.specs.declared.names.MethodKey.{MethodKey};
ghost use Rattle.dalvik_defs.specs.declared.program.NamedProgram.{NamedProgram};
ghost use Rattle.program_laws.specs.Shutting.{ShutsAlike, with_shut};

/// Programs that show the same for a table show the same for one with other silent and shut methods, where both tables shut the
/// same of the virtual methods of both programs.
pub fn shut_alike_law()
    ensures { (p q : NamedProgram) (o : Outer) (silent shut : MethodKey → Bool) → ShutsAlike p o.shut shut → ShutsAlike q o.shut shut
        → SameShown p q (with_shut o silent shut) → SameShown p q o }
{}
