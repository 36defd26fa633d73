//! The law of coverage: under a closed table of facts, a framework and a script that fit, the facts cover every state of every run
//! of a typed, regular program. `specs/Coverable.antt` says what is asked, `specs/Known.antt` what holds of every state beside its
//! kinds: words are within their range, and methods that run, classes that are initialised and classes of objects are live.
//! `Covered` of run_facts says what it is that facts cover a state. The law speaks of any analysis and so is lemmas:
//! `covered_regular` of `proofs/Runs.antt`, over `keeps_covered`, by which each step, answer and move leaves a covered state
//! covered, and `keeps_live` of `proofs/Living.antt`, by which it leaves what is live so. Soundness is asked on operands as the
//! typing has them (`specs/Sound.antt`). Of the analyses, constants are proved sound, and the product domain apart from numbers and
//! tests (`specs/Apart.antt`), which value_law adds. Its functions have an empty body, and their contracts are the law for
//! constants and for the product domain, and what is proved of the two.

ghost use Rattle.std.specs.Prelude.{◌≡◌, ◌⊎◌, ℕ, Bool, List};
ghost use Rattle.dalvik_defs.specs.Face.{bodies_of};
ghost use Rattle.dalvik_defs.specs.Names.{Text};
ghost use Rattle.dalvik_defs.specs.Outer.{Outer};
ghost use Rattle.dalvik_defs.specs.Shown.{Fit};
ghost use Rattle.dalvik_defs.specs.State.{Ended, opening};
ghost use Rattle.dalvik_defs.specs.Step.{after, setting_of};
ghost use Rattle.dalvik_defs.specs.Under.{is_under};
ghost use Rattle.dalvik_defs.specs.declared.program.NamedProgram.{NamedProgram};
ghost use Rattle.dalvik_defs.specs.declared.script.Move.{Move};
ghost use Rattle.dalvik_defs.specs.declared.tables.Floats.{Floats};
ghost use Rattle.dalvik_defs.specs.declared.tables.Framework.{Framework};
ghost use Rattle.domains.specs.Values.{Parts};
ghost use Rattle.pass_defs.specs.Analysis.{IsSound};
ghost use Rattle.pass_defs.specs.Facts.{Facts};
ghost use Rattle.pass_defs.specs.Flat.{Flat};
ghost use Rattle.pass_defs.specs.FlatAnalysis.{flat_analysis};
ghost use Rattle.run_laws.specs.Holds.{Holds};
ghost use Rattle.run_facts.specs.ValueAnalysis.{Numbers, value_analysis};
ghost use Rattle.removal_law.specs.Reach.{IsAcyclic};
ghost use Rattle.run_laws.specs.Regular.{IsRegular};
ghost use Rattle.cover_law.specs.Apart.{IsSoundApart};
ghost use Rattle.cover_law.specs.Coverable.{IsCoverable, IsTabled};
ghost use Rattle.cover_law.specs.Sound.{IsSoundOn};
ghost use Rattle.cover_law.specs.States.{covered_states};

/// Under closed facts of constants, a framework and a script that fit, each state that a run of a typed, regular program
/// reaches has ended, or the facts cover it, beside what its kinds and its words say of it, and that what runs is live:
/// methods, classes that are initialised and classes of objects.
pub fn constants_cover()
    ensures { (p : NamedProgram) (o : Outer) (f : Framework) (floats : Floats) (facts : Facts Flat) (script : List Move) (n : ℕ)
        → IsTabled flat_analysis p o f facts → Fit p o f script
        → let t = after (setting_of p o f floats) (bodies_of p) (opening script) n in (t ≡ Ended) ⊎ Holds (covered_states flat_analysis p o f facts) t }
{}

/// The same of facts of the product domain, where what the code makes of numbers is sound.
pub fn values_cover()
    ensures { (p : NamedProgram) (numbers : Numbers) (o : Outer) (f : Framework) (floats : Floats) (facts : Facts Parts) (script : List Move) (n : ℕ)
        → IsCoverable (value_analysis p numbers) p o f floats facts → Fit p o f script
        → let t = after (setting_of p o f floats) (bodies_of p) (opening script) n in
        (t ≡ Ended) ⊎ Holds (covered_states (value_analysis p numbers) p o f facts) t }
{}

/// Constants are a sound analysis, whatever stands above what and whatever floats answer: on all operands, and so on those
/// that the typing has.
pub fn constants_are_sound()
    ensures all { (under : Text → Text → Bool) (floats : Floats) → IsSound flat_analysis under floats }
    ensures typed { (under : Text → Text → Bool) (floats : Floats) → IsSoundOn flat_analysis under floats }
{}

/// The product domain is sound apart from numbers and tests under a framework that fits a regular program of which no class
/// stands above itself, whatever the code makes of these: what it knows of constants, new objects, uses and casts holds of
/// what the machine has.
pub fn values_are_sound_apart()
    ensures { (p : NamedProgram) (o : Outer) (f : Framework) (script : List Move) (numbers : Numbers) → IsRegular p → IsAcyclic p → Fit p o f script
        → IsSoundApart (value_analysis p numbers) (is_under p f) }
{}
