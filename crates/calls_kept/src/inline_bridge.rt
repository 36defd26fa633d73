//! From sites by number to what the law of inlining asks: a call of a well-formed and typed program that finds a short method
//! without regions in its own class, that passes what the method takes and takes what it gives, is by name one of a sound callee,
//! and it enters its callee at once where the class is trivially initialised or the receiver isn't null. So the body with copies by
//! number (splice_bridge) is by name one that the law admits. `specs/Sites.antt` says what a site is by number, whoever found it.

ghost use Rattle.std.specs.Prelude.{◌≡◌, ◌≤◌, ℕ, true, Some, slice_get};
ghost use Rattle.program_model.specs.ProgramRules.{is_well_formed};
ghost use Rattle.program_model.specs.declared.body.Body.{Body};
ghost use Rattle.program_model.specs.declared.program.Class.{Class};
ghost use Rattle.program_model.specs.declared.program.Method.{Method};
ghost use Rattle.program_model.specs.declared.program.MethodAt.{MethodAt};
ghost use Rattle.program_model.specs.declared.program.Program.{Program};
ghost use Rattle.hierarchy.specs.Shapes.{IsResolved};
ghost use Rattle.hierarchy.specs.declared.build.Hierarchy.{Hierarchy};
ghost use Rattle.facts.specs.declared.facts.Facts.{Facts};
ghost use Rattle.dalvik_defs.specs.Naming.{named, named_class, named_method};
ghost use Rattle.dalvik_defs.specs.Silence.{key_in};
ghost use Rattle.pass_defs.specs.Typed.{IsTyped};
ghost use Rattle.splice.specs.declared.callee.Callee.{Callee};
ghost use Rattle.calls_kept.specs.Copied.{IsCopied, IsWithin};
ghost use Rattle.calls_kept.specs.Sites.{IsSite, IsSoundSite};

/// A body of a well-formed program keeps to its registers, targets and regions, and has not too many positions.
pub fn within_law()
    ensures { (p : Program) (at : MethodAt) (c : Class) (m : Method) (b : Body) → is_well_formed p ≡ true
        → slice_get p.classes at.class ≡ Some c → slice_get c.methods at.place ≡ Some m → m.body ≡ Some b → b.registers ≤ 65535 → IsWithin b }
{}

/// A site of a well-formed and typed program finds its callee by name, which is what is copied.
pub fn site_found_law()
    ensures { (p : Program) (h : Hierarchy) (facts : Facts) (at : MethodAt) (c : Class) (m : Method) (b : Body) (n : ℕ) (y : Callee) → is_well_formed p ≡ true → IsResolved p h → IsTyped (named p)
        → slice_get p.classes at.class ≡ Some c → slice_get c.methods at.place ≡ Some m → m.body ≡ Some b → IsSite p h facts at m b n y → IsCopied p b n y }
{}

/// It is one of a sound callee, whose forms may stand in a copy.
pub fn sound_site_law()
    ensures { (p : Program) (h : Hierarchy) (facts : Facts) (at : MethodAt) (c : Class) (m : Method) (b : Body) (n : ℕ) (y : Callee) → is_well_formed p ≡ true → IsResolved p h → IsTyped (named p)
        → slice_get p.classes at.class ≡ Some c → slice_get c.methods at.place ≡ Some m → m.body ≡ Some b → IsSite p h facts at m b n y
        → IsSoundSite p (key_in (named_class p c) (named_method p m)) b n }
{}
