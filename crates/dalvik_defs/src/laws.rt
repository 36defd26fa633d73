//! Laws of what programs show. The laws of simulation and of frames, which speak of relations, are lemmas in `proofs/`.

ghost use Rattle.std.specs.Prelude.{◌≡◌, ℕ, suc, List, length, true};
ghost use Rattle.dalvik_defs.specs.Names.{Text};
ghost use Rattle.dalvik_defs.specs.Under.{defines};
ghost use Rattle.dalvik_defs.specs.Face.{face_of, bodies_of};
ghost use Rattle.dalvik_defs.specs.Initialised.{is_trivial};
ghost use Rattle.dalvik_defs.specs.Outer.{Outer};
ghost use Rattle.dalvik_defs.specs.Quiet.{quiet_within, EndsWithin, calm_opening};
ghost use Rattle.dalvik_defs.specs.Shown.{IsPrefixOf, SameShown};
ghost use Rattle.dalvik_defs.specs.Step.{setting_of, shows, shows_from};
ghost use Rattle.dalvik_defs.specs.declared.script.Move.{Move};
ghost use Rattle.dalvik_defs.specs.declared.tables.Floats.{Floats};
ghost use Rattle.dalvik_defs.specs.declared.names.MethodKey.{MethodKey};
ghost use Rattle.dalvik_defs.specs.declared.program.NamedProgram.{NamedProgram};
ghost use Rattle.dalvik_defs.specs.declared.tables.Framework.{Framework};

/// A program shows the same as itself, and showing the same composes where the second program defines no class that the
/// first doesn't.
pub fn same_shown_law()
    ensures reflexive { (p : NamedProgram) (o : Outer) → SameShown p p o }
    ensures composes { (p q r : NamedProgram) (o : Outer) → ((t : Text) → defines q t ≡ true → defines p t ≡ true)
        → SameShown p q o → SameShown q r o → SameShown p r o }
{}

/// What a program shows depends on its face and its bodies alone.
pub fn look_ups_law()
    ensures { (p q : NamedProgram) (o : Outer) → ((f : Framework) → face_of p f ≡ face_of q f) → bodies_of p ≡ bodies_of q → SameShown p q o }
{}

/// Programs with one face and the same body for each method show the same: the law of frames at equality.
pub fn same_bodies_law()
    ensures { (p q : NamedProgram) (o : Outer) → ((f : Framework) → face_of p f ≡ face_of q f) → ((k : MethodKey) → bodies_of p k ≡ bodies_of q k) → SameShown p q o }
{}

/// Whether classes whose initialisation does nothing are new or done at the beginning doesn't count, and a trivially
/// initialised class is one of these, where no class is its own ancestor.
pub fn quiet_classes_law()
    ensures there { (p : NamedProgram) (o : Outer) (f : Framework) (a : Floats) (script : List Move) (level n : ℕ)
        → (m : ℕ) × IsPrefixOf (shows p o f a script n) (shows_from (setting_of p o f a) (bodies_of p) (calm_opening (quiet_within (face_of p f) level) script) m) }
    ensures back { (p : NamedProgram) (o : Outer) (f : Framework) (a : Floats) (script : List Move) (level n : ℕ)
        → (m : ℕ) × IsPrefixOf (shows_from (setting_of p o f a) (bodies_of p) (calm_opening (quiet_within (face_of p f) level) script) n) (shows p o f a script m) }
    ensures trivial { (p : NamedProgram) (f : Framework) (t : Text) → EndsWithin p (length p.classes) t → is_trivial p t ≡ true
        → quiet_within (face_of p f) (suc (length p.classes)) t ≡ true }
{}
