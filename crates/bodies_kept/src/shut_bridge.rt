//! What a table of shut methods owes (`ShutsHold` of removal_law), the passes on bodies keep, for every outside: none of them lets
//! a program make objects of more classes, or call more methods of other classes than its own by their receivers. Each law takes
//! what a pass says of itself by number; `said` of shut_law is what of an instruction matters.

ghost use Rattle.std.specs.Prelude.{◌≡◌, Bool, true, List};
ghost use Rattle.program_model.specs.declared.body.Body.{Body};
ghost use Rattle.program_model.specs.declared.pass.Changed.{Changed};
ghost use Rattle.program_model.specs.declared.program.Method.{Method};
ghost use Rattle.program_model.specs.declared.program.MethodAt.{MethodAt};
ghost use Rattle.program_model.specs.declared.program.Program.{Program};
ghost use Rattle.hierarchy.specs.declared.build.Hierarchy.{Hierarchy};
ghost use Rattle.dalvik_defs.specs.Naming.{form_of, named};
ghost use Rattle.dalvik_defs.specs.Outer.{Outer};
ghost use Rattle.removal_law.specs.Left.{In};
ghost use Rattle.removal_law.specs.Reach.{ShutsHold};
ghost use Rattle.program_laws.specs.Said.{Quiet, said};
ghost use Rattle.facts.specs.declared.facts.Facts.{Facts};
ghost use Rattle.rewrite_pass.specs.declared.edit.Edit.{Edit};
ghost use Rattle.rewrite_pass.specs.Plans.{IsRewrittenBy};
ghost use Rattle.const_prop.specs.Folds.{IsFoldedBy};
ghost use Rattle.body_edit.specs.declared.fate.Fate.{Fate};
ghost use Rattle.thin_pass.specs.Plans.{IsThinnedBy};
ghost use Rattle.compact.specs.Renamed.{IsCompactedProgram};
ghost use Rattle.copy_prop.specs.Propagated.{IsPropagatedProgram};

/// A pass that takes positions out of bodies, or empties them, keeps what a table of shut methods owes, whatever a test lets it
/// wish.
pub fn thinned_shut_law()
    ensures { (wishes : Body → List Fate → Bool) (admitted : List Bool) (p : Program) (c : Changed) (o : Outer) → IsThinnedBy (λ b ws. wishes b ws ≡ true) admitted p c
        → ShutsHold (named p) o → ShutsHold (named c.program) o }
{}

/// A pass that writes instructions over others keeps what a table of shut methods owes, where a test lets it write only what
/// makes no object and calls no method of another class than the program's by a receiver.
pub fn rewritten_shut_law()
    ensures { (writes : MethodAt → Method → Body → List Edit → Bool) (admitted : List Bool) (p : Program)
        → ((at : MethodAt) (m : Method) (b : Body) (es : List Edit) → writes at m b es ≡ true → (e : Edit) → In e es → said (named p) (form_of p e.insn) ≡ Quiet)
        → (c : Changed) (o : Outer) → IsRewrittenBy (λ at m b es. writes at m b es ≡ true) admitted p c → ShutsHold (named p) o → ShutsHold (named c.program) o }
{}

/// So does a pass that folds instructions by facts: what it writes is a constant, a goto or a nop.
pub fn folded_shut_law()
    ensures { (p : Program) (h : Hierarchy) (facts : Facts) (admitted : List Bool) (c : Changed) (o : Outer) → IsFoldedBy p h facts admitted c
        → ShutsHold (named p) o → ShutsHold (named c.program) o }
{}

/// Bodies whose registers have other numbers keep what a table of shut methods owes.
pub fn compacted_shut_law()
    ensures { (admitted : List Bool) (p q : Program) (o : Outer) → IsCompactedProgram admitted p q → ShutsHold (named p) o → ShutsHold (named q) o }
{}

/// Bodies whose stale reads read originals keep what a table of shut methods owes.
pub fn propagated_shut_law()
    ensures { (admitted : List Bool) (p q : Program) (o : Outer) → IsPropagatedProgram admitted p q → ShutsHold (named p) o → ShutsHold (named q) o }
{}
