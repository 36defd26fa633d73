//! Laws of what is left of a program.

ghost use Rattle.std.specs.Prelude.{◌≡◌, ℕ, List, false, true};
ghost use Rattle.std.specs.List.{list_all};
ghost use Rattle.std.specs.Option.{option_map};
ghost use Rattle.dalvik_defs.specs.Names.{Text, base_of, is_class_type, object_type};
ghost use Rattle.dalvik_defs.specs.Face.{bodies_of};
ghost use Rattle.dalvik_defs.specs.declared.names.MethodKey.{MethodKey};
ghost use Rattle.dalvik_defs.specs.Outer.{Outer, outer_of};
ghost use Rattle.program_model.specs.declared.pass.Outside.{Outside};
ghost use Rattle.program_model.specs.declared.program.Program.{Program};
ghost use Rattle.dalvik_defs.specs.Shut.{Library};
ghost use Rattle.pass_defs.specs.Typed.{IsTyped};
ghost use Rattle.dalvik_defs.specs.Shown.{fit_move, Fit, SameShown};
ghost use Rattle.dalvik_defs.specs.Quiet.{calm_opening};
ghost use Rattle.dalvik_defs.specs.Step.{setting_of, shows_from};
ghost use Rattle.dalvik_defs.specs.declared.script.Move.{Move};
ghost use Rattle.dalvik_defs.specs.Under.{class_named, defines, is_under};
ghost use Rattle.dalvik_defs.specs.declared.program.NamedProgram.{NamedProgram};
ghost use Rattle.dalvik_defs.specs.declared.tables.Framework.{Framework};
ghost use Rattle.dalvik_defs.specs.declared.tables.Floats.{Floats};
ghost use Rattle.pass_defs.specs.Live.{Conditions, Family, IsClosedFamily, KeepsAbove};
ghost use Rattle.removal_law.specs.Left.{left_in, left_of, NamesNone};
ghost use Rattle.removal_law.specs.Reach.{DefinesOnce, IsAcyclic, IsDescribed, AgreesInside, IsNarrowed, IsRegular, IsSoundCode, IsSoundTable, LeftAgrees, NamesOnce, ShutsHold, TellsApart, TellsProtos, is_idle};

/// A class that is live is left with its live members, and no other class is left.
pub fn classes_left_law()
    ensures { (s : Family) (p : NamedProgram) (t : Text) → (defines p t ≡ true → s.classes t ≡ true) → class_named (left_of s p) t ≡ option_map (left_in s) (class_named p t) }
{}

/// A framework that fits a program has and names no class of it.
pub fn a_fitting_framework_law()
    ensures { (p : NamedProgram) (o : Outer) (f : Framework) (script : List Move) → Fit p o f script → NamesNone p f }
{}

/// A type whose base is live, or isn't a class of the program, is under the same types in what is left.
pub fn under_left_law()
    ensures { (p : NamedProgram) (f : Framework) → NamesNone p f → (s : Family) → KeepsAbove p s → (t u : Text) → (defines p (base_of t) ≡ true → s.classes (base_of t) ≡ true)
        → is_under p f t u ≡ is_under (left_of s p) f t u }
{}

/// A live method of a live class has the body in what is left that it had.
pub fn bodies_left_law()
    ensures { (s : Family) (p : NamedProgram) (k : MethodKey) → s.classes k.class ≡ true → s.methods k ≡ true → bodies_of (left_of s p) k ≡ bodies_of p k }
{}

/// Under a framework that fits, all that a run asks of a program what is left of it by a closed family answers alike: what
/// is under what, what static, direct, super, virtual and interface calls in live code find, fields, initialisers and the
/// classes that come first, bodies, and what the framework may enter, make and read (`specs/Agree.antt` says it all).
pub fn faces_agree_law()
    ensures { (p : NamedProgram) (o : Outer) (k : Conditions) (s : Family) → IsClosedFamily p o k s → IsRegular p → IsSoundCode p → IsSoundTable p o
        → (f : Framework) (script : List Move) → Fit p o f script → LeftAgrees p o s f }
{}

/// Where what is left answers alike, the machine takes equal steps over both from the state in which the interfaces without
/// an initialiser are done: within each number of steps it shows the same events.
pub fn steps_are_equal_law()
    ensures { (p : NamedProgram) (o : Outer) (s : Family) (f : Framework) → LeftAgrees p o s f → (a : Floats) (script : List Move) (n : ℕ) → list_all (fit_move p o) script ≡ true
        → shows_from (setting_of p o f a) (bodies_of p) (calm_opening (is_idle p) script) n ≡ shows_from (setting_of (left_of s p) o f a) (bodies_of (left_of s p)) (calm_opening (is_idle p) script) n }
{}

/// The law of removal: what is left of a program by a closed family of live sets shows the same.
pub fn removal_shows_the_same_law()
    ensures { (p : NamedProgram) (o : Outer) (k : Conditions) (s : Family) → IsClosedFamily p o k s → IsRegular p → IsSoundCode p → IsSoundTable p o
        → SameShown p (left_of s p) o }
{}

/// In a typed program new arrays are of array types wherever a walk comes.
pub fn typed_code_is_sound_law()
    ensures { (p : NamedProgram) → IsTyped p → TellsApart p → TellsProtos p → IsSoundCode p }
{}

/// What is left of a typed program by a closed family is typed, where classes and methods stand once by their names and
/// Object is no class of the program.
pub fn typed_left_law()
    ensures { (p : NamedProgram) (o : Outer) (k : Conditions) (s : Family) → IsClosedFamily p o k s → IsRegular p → NamesOnce p → DefinesOnce p → defines p object_type ≡ false
        → IsTyped p → IsTyped (left_of s p) }
{}

/// A table of shut methods holds what it says where it has none, and where it has those of the definition.
pub fn shut_tables_law()
    ensures nothing { (p : NamedProgram) (o : Outer) → ((k : MethodKey) → o.shut k ≡ false) → ShutsHold p o }
    ensures narrowed { (p : NamedProgram) (o : Outer) (l : Library) → IsNarrowed p o l → ShutsHold p o }
{}

/// A table of shut methods that holds what it says of a program holds it of what is left of the program by a closed family:
/// no more is called or made there, and what a class finds that another found before was found in a shut method's place.
pub fn shut_left_law()
    ensures { (p : NamedProgram) (o : Outer) (k : Conditions) (s : Family) → IsClosedFamily p o k s → IsRegular p → NamesOnce p → DefinesOnce p → defines p object_type ≡ false
        → AgreesInside o → ShutsHold p o → ShutsHold (left_of s p) o }
{}

/// The parts of the table that numbers of a program make agree.
pub fn tables_by_number_law()
    ensures { (p : Program) (o : Outside) → AgreesInside (outer_of p o) }
{}

/// A program whose classes have class names and of which none stands above itself is regular, and methods are told apart
/// where their parameters are descriptors and no class defines two of one name and signature.
pub fn regular_programs_law()
    ensures regular { (p : NamedProgram) → IsAcyclic p → ((t : Text) → defines p t ≡ true → is_class_type t ≡ true) → IsRegular p }
    ensures apart { (p : NamedProgram) → IsDescribed p → DefinesOnce p → TellsApart p }
    ensures protos { (p : NamedProgram) → IsDescribed p → TellsProtos p }
{}
