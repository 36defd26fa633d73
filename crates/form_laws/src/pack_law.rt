//! The law of compaction: a program with other registers (`specs/Renamed.antt`) shows the same.

ghost use Rattle.dalvik_defs.specs.Outer.{Outer};
ghost use Rattle.dalvik_defs.specs.Shown.{SameShown};
ghost use Rattle.dalvik_defs.specs.declared.program.NamedProgram.{NamedProgram};
ghost use Rattle.program_laws.specs.Bodies.{Change, changed};
ghost use Rattle.form_laws.specs.Solid.{AllSolid};
ghost use Rattle.pass_defs.specs.Typed.{IsTyped};
ghost use Rattle.form_laws.specs.TypedRegisters.{AllTypedRenamed};
ghost use Rattle.form_laws.specs.Renamed.{AllRenamed};

/// A program shows the same with other registers in its bodies, for every framework, float table and
/// script that fit.
pub fn renamed_law()
    ensures { (p : NamedProgram) (o : Outer) (new : Change) → AllSolid p → AllRenamed new p → SameShown p (changed new p) o }
{}

/// And such a program is typed, where each body has a typing and its marks of live registers, and what is asked for as a
/// wide keeps its halves side by side.
pub fn renamed_typed_law()
    ensures { (p : NamedProgram) (new : Change) → AllTypedRenamed new p → IsTyped (changed new p) }
{}
