//! Laws of marks that are closed under what follows: the names of the marked numbers keep what a closed family keeps.

ghost use Rattle.std.specs.Prelude.{◌≡◌, []};
ghost use Rattle.program_model.specs.declared.program.Program.{Program};
ghost use Rattle.program_model.specs.declared.pass.Outside.{Outside};
ghost use Rattle.call_graph.specs.declared.live_set.LiveSet.{LiveSet};
ghost use Rattle.dalvik_defs.specs.Naming.{named};
ghost use Rattle.dalvik_defs.specs.Outer.{outer_of};
ghost use Rattle.pass_defs.specs.Live.{conditions_of, IsClosedFamily, KeepsKept, KeepsMade, KeepsTypes, KeepsMentions, KeepsResolved, KeepsAbove, KeepsBound, KeepsVirtual, KeepsEntered, KeepsCalledBack};
ghost use Rattle.dalvik_defs.specs.Shown.{SameShown};
ghost use Rattle.pass_defs.specs.Typed.{IsTyped};
ghost use Rattle.reach.specs.Kept.{kept_of};
ghost use Rattle.reach.specs.Marked.{IsMarked};
ghost use Rattle.removal_law.specs.Reach.{ShutsHold};
ghost use Rattle.reach_bridge.specs.Names.{family_of, within};
ghost use Rattle.reach_bridge.specs.Reached.{AreDefined, KeepsOwners};

/// The types in the descriptors of live members, and in live code, its handlers and the members that it names, are live.
pub fn types_law()
    ensures { (p : Program) (o : Outside) (s : LiveSet) → IsMarked p o s → KeepsTypes (named p) (family_of p s) }
{}

/// The members to which names in live code resolve are live.
pub fn resolved_law()
    ensures { (p : Program) (o : Outside) (s : LiveSet) → IsMarked p o s → KeepsResolved (named p) (family_of p s) }
{}

/// What stands above a live class is live, and so is its initialiser; in version 037 also the methods with code of a live
/// interface with an initialiser.
pub fn above_law()
    ensures { (p : Program) (o : Outside) (s : LiveSet) → IsMarked p o s → KeepsAbove (named p) (family_of p s) }
{}

/// What a static, direct or super call in live code finds is live, and so are all candidates of a program interface that a
/// super call names.
pub fn bound_law()
    ensures { (p : Program) (o : Outside) (s : LiveSet) → IsMarked p o s → KeepsBound (named p) (family_of p s) }
{}

/// What each made class under the class that a virtual or interface call of live code names finds for the call is live:
/// the method along its superclasses, or all candidates of their interfaces where there is none.
pub fn virtual_law()
    ensures { (p : Program) (o : Outside) (s : LiveSet) → IsMarked p o s → KeepsVirtual (named p) (family_of p s) }
{}

/// What each made class under that of a kept virtual method finds for its name is live: the framework that calls it on an
/// object enters that.
pub fn entered_law()
    ensures { (p : Program) (o : Outside) (s : LiveSet) → IsMarked p o s → KeepsEntered (named p) (outer_of p o) (conditions_of p o) (family_of p s) }
{}

/// What the framework may call on objects of made classes is live, unless it is shut.
pub fn called_back_law()
    ensures { (p : Program) (o : Outside) (s : LiveSet) → IsMarked p o s → KeepsCalledBack (named p) (outer_of p o) (family_of p s) }
{}

/// The class of a live member is live, where the program defines it.
pub fn owners_law()
    ensures { (p : Program) (o : Outside) (s : LiveSet) → IsMarked p o s → KeepsOwners (named p) (family_of p s) }
{}

/// Kept classes and members are live, and conditional ones where their class or owner is. A premise is that the marked
/// members are of classes of the program: then their classes are live.
pub fn kept_law()
    ensures { (p : Program) (o : Outside) (s : LiveSet) → IsMarked p o s → AreDefined p s → KeepsKept (named p) (outer_of p o) (conditions_of p o) (family_of p s) }
{}

/// Classes that can have objects are made, if they are kept, if one of their constructors is, or if live code makes
/// objects of them.
pub fn made_law()
    ensures { (p : Program) (o : Outside) (s : LiveSet) → IsMarked p o s → KeepsMade (named p) (outer_of p o) (conditions_of p o) (family_of p s) }
{}

/// What the annotations and first values of live classes and members name is live.
pub fn mentions_law()
    ensures { (p : Program) (o : Outside) (s : LiveSet) → IsMarked p o s → KeepsMentions (named p) (family_of p s) }
{}

/// The names of the marked numbers are a closed family, the members of classes that the program doesn't define left out.
pub fn closed_law()
    ensures { (p : Program) (o : Outside) (s : LiveSet) → IsMarked p o s → IsClosedFamily (named p) (outer_of p o) (conditions_of p o) (within (named p) (family_of p s)) }
{}

/// What marks leave of a well-formed and typed program shows the same, where the table of shut methods holds what
/// it says.
pub fn reach_law()
    ensures { (p : Program) (o : Outside) (s : LiveSet) → IsMarked p o s → IsTyped (named p) → ShutsHold (named p) (outer_of p o) → SameShown (named p) (named (kept_of s p)) (outer_of p o) }
{}

/// Where the table of shut methods holds what it says of a well-formed program, it does so of what marks leave of it, so that
/// it may be marked and removed from again.
pub fn reach_keeps_shuts_law()
    ensures { (p : Program) (o : Outside) (s : LiveSet) → IsMarked p o s → ShutsHold (named p) (outer_of p o) → ShutsHold (named (kept_of s p)) (outer_of p o) }
{}

/// What marks leave of a well-formed and typed program is typed, so that it may be marked and removed from again.
pub fn reach_keeps_typing_law()
    ensures { (p : Program) (o : Outside) (s : LiveSet) → IsMarked p o s → IsTyped (named p) → IsTyped (named (kept_of s p)) }
{}

/// Where no method is shut, as in what rules alone give, the table of shut methods holds what it says.
pub fn unshut_law()
    ensures { (p : Program) (o : Outside) → o.shut ≡ [] → ShutsHold (named p) (outer_of p o) }
{}

/// What marks leave of a well-formed and typed program shows the same, where no method is shut, as in what rules alone
/// give.
pub fn open_reach_law()
    ensures { (p : Program) (o : Outside) (s : LiveSet) → IsMarked p o s → IsTyped (named p) → o.shut ≡ [] → SameShown (named p) (named (kept_of s p)) (outer_of p o) }
{}
