//! Programs one after another whose tables shut the same.
//!
//! A pass that gives methods other names changes which names the numbers of a table of shut methods name. What it leaves shows the
//! same for the table by its own names. That it shows the same for the table that stood at first follows where each virtual method
//! of what is left was one before (`specs/Virtual.antt`): of such methods all these tables say the same, so passes may follow one
//! another.

ghost use Rattle.std.specs.Prelude.{Bool};
ghost use Rattle.dalvik_defs.specs.Outer.{Outer};
ghost use Rattle.dalvik_defs.specs.Shown.{SameShown};
ghost use Rattle.dalvik_defs.specs.declared.names.MethodKey.{MethodKey};
ghost use Rattle.dalvik_defs.specs.declared.program.NamedProgram.{NamedProgram};
ghost use Rattle.program_laws.specs.Shutting.{ShutsAlike, with_shut};
ghost use Rattle.program_laws.specs.Virtual.{VirtualsStay};

/// Virtual methods that were virtual methods of a program were ones of what stood before it.
pub fn virtuals_on_law()
    ensures { (p q r : NamedProgram) → VirtualsStay p q → VirtualsStay q r → VirtualsStay p r }
{}

/// Tests of shut methods that say the same one after another say the same of the methods that are left.
pub fn alike_on_law()
    ensures { (q r : NamedProgram) (a b c : MethodKey → Bool) → VirtualsStay q r → ShutsAlike q a b → ShutsAlike r b c → ShutsAlike r a c }
{}

/// What shows the same for a table that shuts the same of the virtual methods of a program shows the same for the table itself.
pub fn shown_on_law()
    ensures { (q r : NamedProgram) (o : Outer) (silent shut : MethodKey → Bool) → VirtualsStay q r → ShutsAlike q o.shut shut → SameShown q r (with_shut o silent shut) → SameShown q r o }
{}
