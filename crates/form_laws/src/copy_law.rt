//! The law of copies: a program that reads originals in place of copies (`specs/Copied.antt`) shows the same.

ghost use Rattle.dalvik_defs.specs.Outer.{Outer};
ghost use Rattle.dalvik_defs.specs.Shown.{SameShown};
ghost use Rattle.dalvik_defs.specs.declared.program.NamedBody.{NamedBody};
ghost use Rattle.dalvik_defs.specs.declared.program.NamedProgram.{NamedProgram};
ghost use Rattle.program_laws.specs.Bodies.{Change, changed};
ghost use Rattle.form_laws.specs.Solid.{AllSolid};
ghost use Rattle.form_laws.specs.Copied.{ReadsOriginals, AllReadOriginals};
ghost use Rattle.pass_defs.specs.Typed.{IsTyped};
ghost use Rattle.form_laws.specs.TypedCopies.{AllReadAlike, AllTypedReread};
ghost use Rattle.form_laws.specs.Reread.{AreReread, AllReread};

/// A program shows the same with bodies that read originals in place of copies, for every framework, float table and
/// script that fit.
pub fn copied_law()
    ensures { (p : NamedProgram) (o : Outer) (new : Change) → AllSolid p → AllReadOriginals new p → SameShown p (changed new p) o }
{}

/// Where each form reads the originals of copies for whose reads a Move stands, by the definition of stale reads, bodies read
/// originals; so such a program shows the same.
pub fn reread_law()
    ensures body { (b d : NamedBody) → AreReread b d → ReadsOriginals b d }
    ensures shown { (p : NamedProgram) (o : Outer) (new : Change) → AllSolid p → AllReread new p → SameShown p (changed new p) o }
{}

/// And such a program is typed, where originals have the kinds of their copies by some typing of each body.
pub fn copied_typed_law()
    ensures { (p : NamedProgram) (new : Change) → AllReadAlike new p → IsTyped (changed new p) }
{}

/// And so is a program in which originals that Moves stand for are read, where they have the kinds of their copies.
pub fn reread_typed_law()
    ensures { (p : NamedProgram) (new : Change) → AllTypedReread new p → IsTyped (changed new p) }
{}
