//! Laws of the verifier's answers.

ghost use Rattle.std.specs.Prelude.{◌≡◌, ℕ, true, Some, slice_get};
ghost use Rattle.dalvik_defs.specs.Naming.{type_at, body_of, named_class, named_method, named};
ghost use Rattle.pass_defs.specs.Kinds as name;
ghost use Rattle.pass_defs.specs.Typed.{IsTyped, IsTyping, IsIllTyped, IsLeastTyping, Table};
ghost use Rattle.program_model.specs.declared.body.Body.{Body};
ghost use Rattle.program_model.specs.declared.program.Class.{Class};
ghost use Rattle.program_model.specs.declared.program.Method.{Method};
ghost use Rattle.program_model.specs.declared.program.MethodAt.{MethodAt};
ghost use Rattle.program_model.specs.declared.program.Program.{Program};
ghost use Rattle.program_model.specs.Lookups.{method_at};
ghost use Rattle.program_model.specs.ProgramRules.{is_well_formed};
ghost use Rattle.hierarchy.specs.Shapes.{IsOf, IsResolved};
ghost use Rattle.hierarchy.specs.declared.build.Hierarchy.{Hierarchy};
ghost use Rattle.verify.specs.declared.typed.Verifier.{Verifier};
ghost use Rattle.verify.specs.declared.fault.TypeFault.TheVariants as fault;
ghost use Rattle.verify.specs.declared.kinds.Kind as number;
ghost use Rattle.verify.specs.Joins.{joined};
ghost use Rattle.verify.specs.Methods.{IsFor, TypesFor, RefusesFor, RefusesOne, TypesAll};
ghost use Rattle.verify.specs.Types.{kind_of};
ghost use Rattle.verify.specs.Typings as by_number;
ghost use Rattle.verify.specs.Typings.{Below};
ghost use Rattle.type_bridge.specs.Numbered.{is_numbered};
ghost use Rattle.type_bridge.specs.Views.{kind_named, method_table};

/// The kind of a type is the kind of its text.
pub fn types_law()
    ensures { (p : Program) (h : Hierarchy) (v : Verifier) → is_well_formed p ≡ true → IsOf p h → IsFor p h v → (k : ℕ) → kind_named p (kind_of v.tables k) ≡ name.kind_of (named p) (type_at p k) }
{}

/// A kind at or below another one is so by name.
pub fn order_law()
    ensures { (p : Program) (h : Hierarchy) (v : Verifier) → is_well_formed p ≡ true → IsOf p h → IsFor p h v → (a b : number.Kind) → Below v.tables a b → name.is_below (named p) (kind_named p a) (kind_named p b) ≡ true }
{}

/// Kinds that stand for one kind by names alone are one where their names are.
pub fn names_law()
    ensures { (p : Program) (h : Hierarchy) (v : Verifier) → is_well_formed p ≡ true → IsOf p h → IsFor p h v → (a b : number.Kind) → is_numbered p a ≡ true → is_numbered p b ≡ true → kind_named p a ≡ kind_named p b → a ≡ b }
{}

/// The join of two kinds is by name that of their names.
pub fn joins_law()
    ensures { (p : Program) (h : Hierarchy) (v : Verifier) → is_well_formed p ≡ true → IsOf p h → IsFor p h v → (a b : number.Kind) → is_numbered p a ≡ true → is_numbered p b ≡ true → name.joined (named p) (kind_named p a) (kind_named p b) ≡ kind_named p (joined v.tables a b) }
{}

/// Where a kind that stands for one name alone is at or below another one by name, it is so by number.
pub fn order_by_name_law()
    ensures { (p : Program) (h : Hierarchy) (v : Verifier) → is_well_formed p ≡ true → IsOf p h → IsFor p h v → (a b : number.Kind) → is_numbered p a ≡ true → is_numbered p b ≡ true → name.is_below (named p) (kind_named p a) (kind_named p b) ≡ true → Below v.tables a b }
{}

/// A well-formed program whose methods the verifier finds well typed is typed.
pub fn typed_law()
    ensures { (p : Program) (h : Hierarchy) → is_well_formed p ≡ true → IsResolved p h → TypesAll p h → IsTyped (named p) }
{}

/// A method of a well-formed program that the verifier finds ill typed has no typing by names.
pub fn refused_law()
    ensures { (p : Program) (h : Hierarchy) → is_well_formed p ≡ true → IsResolved p h → (at : MethodAt) (k n r : ℕ) → RefusesFor p h at (fault.IllTyped k n r) → (c : Class) (m : Method) (b : Body) → slice_get p.classes at.class ≡ Some c → method_at p at ≡ Some m → m.body ≡ Some b → (t : Table) → IsTyping (named p) (named_class p c) (named_method p m) (body_of p b) t → ⊥ }
{}

/// A well-formed program of which the verifier finds a method ill typed is not typed.
pub fn ill_typed_law()
    ensures { (p : Program) (h : Hierarchy) → is_well_formed p ≡ true → IsResolved p h → (k n r : ℕ) → RefusesOne p h (fault.IllTyped k n r) → IsTyped (named p) → ⊥ }
{}

/// The table that the verifier answers for the code of a method of a well-formed program is by names the least typing: it
/// is a typing, and it is at or below each typing by names, at each position in each register and in the places of the last
/// result, of the caught object and of a constructor's receiver. Where it has no kinds, another one may have any.
///
/// This holds against all typings by names, also those that name types, classes or arrays which the program has no number
/// for, and those that have another number of registers where the least one has no kinds.
pub fn least_law()
    ensures { (p : Program) (h : Hierarchy) → is_well_formed p ≡ true → IsResolved p h → (at : MethodAt) (x : by_number.Table) → TypesFor p h at x → (c : Class) (m : Method) (b : Body) → slice_get p.classes at.class ≡ Some c → method_at p at ≡ Some m → m.body ≡ Some b → IsLeastTyping (named p) (named_class p c) (named_method p m) (body_of p b) (method_table p c x) }
{}

/// Where the verifier finds a method of a well-formed program ill typed, it is so by names at the same place: in the least
/// flow by names the read of this register at this position is refused, or the position is wrong and the register is 0.
pub fn place_law()
    ensures { (p : Program) (h : Hierarchy) → is_well_formed p ≡ true → IsResolved p h → (at : MethodAt) (k n r : ℕ) → RefusesFor p h at (fault.IllTyped k n r) → (c : Class) (m : Method) (b : Body) → slice_get p.classes at.class ≡ Some c → method_at p at ≡ Some m → m.body ≡ Some b → IsIllTyped (named p) (named_class p c) (named_method p m) (body_of p b) n r }
{}
