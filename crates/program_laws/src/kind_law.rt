//! The order of kinds: it is transitive in programs whose classes stand in lines that end outside the program
//! (`specs/Rooted.antt`).

ghost use Rattle.std.specs.Prelude.{◌≡◌, true};
ghost use Rattle.dalvik_defs.specs.declared.program.NamedProgram.{NamedProgram};
ghost use Rattle.pass_defs.specs.Kinds.{Kind, is_below};
ghost use Rattle.program_laws.specs.Rooted.{IsRooted};

/// What is below something is below what that is below, where the classes of a program stand in lines that end outside it.
pub fn transitive_law()
    ensures { (p : NamedProgram) → IsRooted p → (a b c : Kind) → is_below p a b ≡ true → is_below p b c ≡ true → is_below p a c ≡ true }
{}
