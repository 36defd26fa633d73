//! The program that is written for a well-formed program is well-formed, where the fields stand in the order of the format: each
//! part of it keeps the rule of that part by its new numbers. Its functions have empty bodies, and their contracts are the laws.

ghost use Rattle.std.specs.Prelude.{◌≡◌, ◌≤◌, ℕ, List, length, true};
ghost use Rattle.class_defs.specs.ClassGraph.{IsAncestor, IsTwice};
ghost use Rattle.dex_write.specs.Order.{IsOrder};
ghost use Rattle.program_model.specs.Items.{items_of};
ghost use Rattle.program_model.specs.ProgramRules.{is_well_formed};
ghost use Rattle.written_kept.specs.Rising.{FieldsAscend, FieldsRise};
ghost use Rattle.std.specs.List.{AllByRecursion};
ghost use Rattle.dex_pools.specs.declared.interner.Interner.{Interner};
ghost use Rattle.dex_pools.specs.Interned.{IsInterned};
ghost use Rattle.program_model.specs.declared.program.Program.{Program};
ghost use Rattle.program_model.specs.TableRules.{tables_fit};
ghost use Rattle.program_model.specs.BodyRules.{body_fits};
ghost use Rattle.program_model.specs.declared.body.Body.{Body};
ghost use Rattle.dex_pools.specs.Numbering.{used_in};
ghost use Rattle.dex_pools.specs.Used.{body_names, class_names, marks_names};
ghost use Rattle.program_model.specs.MemberRules.{class_fits};
ghost use Rattle.program_model.specs.declared.program.Class.{Class};
ghost use Rattle.program_model.specs.ValueRules.{marks_fit};
ghost use Rattle.program_model.specs.declared.value.Mark.{Mark};
ghost use Rattle.write_laws.specs.Used.{IsShort, IsUsed};
ghost use Rattle.dex_defs.specs.Written.{new_body, new_marks, written_by, written_class};

/// The tables of the written program of a program whose tables fit do so, where it has no more classes.
pub fn tables_fit_law()
    ensures { (p : Program) (i : Interner) → IsShort p → IsInterned p i → length (written_by i p).classes ≤ length p.classes → tables_fit p ≡ true → tables_fit (written_by i p) ≡ true }
{}

/// A body that keeps the rules of bodies does so with new numbers, where the program uses what it names.
pub fn body_fits_law()
    ensures { (p : Program) (i : Interner) → IsShort p → IsInterned p i → (b : Body) → AllByRecursion (IsUsed (used_in p)) (body_names b) → body_fits p b ≡ true
        → body_fits (written_by i p) (new_body i.numbers b) ≡ true }
{}

/// So do annotations of one set.
pub fn marks_fit_law()
    ensures { (p : Program) (i : Interner) → IsShort p → IsInterned p i → (marks : List Mark) → AllByRecursion (IsUsed (used_in p)) (marks_names marks) → marks_fit p marks ≡ true
        → marks_fit (written_by i p) (new_marks i.numbers marks) ≡ true }
{}

/// And so does a class.
pub fn class_fits_law()
    ensures { (p : Program) (i : Interner) → IsShort p → IsInterned p i → (c : Class) → AllByRecursion (IsUsed (used_in p)) (class_names c) → class_fits p c ≡ true
        → class_fits (written_by i p) (written_class i.numbers p c) ≡ true }
{}

/// The written program of a well-formed one, of which no class is defined twice or is its own ancestor, is well-formed where it keeps the limit
/// of items.
pub fn written_formed_within_law()
    ensures { (p : Program) (i : Interner) (order : List ℕ) → is_well_formed p ≡ true → ((class : ℕ) → IsTwice p class → ⊥) → ((class : ℕ) → IsAncestor p class class → ⊥) → IsInterned p i
        → IsOrder p order
        → items_of (written_by i p) ≤ 16777216 → is_well_formed (written_by i p) ≡ true }
{}

/// The fields of a well-formed program keep their order where they stand in the order of the format.
pub fn fields_rise_law()
    ensures { (p : Program) (i : Interner) → is_well_formed p ≡ true → IsInterned p i → FieldsAscend p → FieldsRise p i }
{}

/// The written program of a well-formed one, of which no class is defined twice or is its own ancestor, is well-formed where the fields of that
/// one stand in the order of the format. In another order a first value may stand further behind, and the limit of items be passed.
pub fn written_formed_law()
    ensures { (p : Program) (i : Interner) (order : List ℕ) → is_well_formed p ≡ true → ((class : ℕ) → IsTwice p class → ⊥) → ((class : ℕ) → IsAncestor p class class → ⊥) → IsInterned p i
        → IsOrder p order
        → FieldsAscend p → is_well_formed (written_by i p) ≡ true }
{}
