//! Laws of what a run of a typed program makes.

ghost use Rattle.std.specs.Prelude.{ℕ, List};
ghost use Rattle.dalvik_defs.specs.Face.{bodies_of};
ghost use Rattle.dalvik_defs.specs.Outer.{Outer};
ghost use Rattle.dalvik_defs.specs.State.{opening};
ghost use Rattle.dalvik_defs.specs.Step.{setting_of};
ghost use Rattle.dalvik_defs.specs.declared.script.Move.{Move};
ghost use Rattle.dalvik_defs.specs.declared.program.NamedProgram.{NamedProgram};
ghost use Rattle.dalvik_defs.specs.declared.tables.Framework.{Framework};
ghost use Rattle.dalvik_defs.specs.declared.tables.Floats.{Floats};
ghost use Rattle.pass_defs.specs.Typed.{IsTyped};
ghost use Rattle.array_law.specs.Making.{MakesArrays};

/// At each state of each run of a typed program, under any framework and any script, an instruction that comes next and
/// makes an array names an array type.
pub fn typed_programs_make_arrays_law()
    ensures { (p : NamedProgram) → IsTyped p → (o : Outer) (f : Framework) (floats : Floats) (script : List Move) (n : ℕ) → MakesArrays (setting_of p o f floats) (bodies_of p) (opening script) n }
{}
