//! Laws of the numbers that a written program has: each entry that a program uses names in its written program, by its new number,
//! what it names in the program.

ghost use Rattle.std.specs.Prelude.{◌≡◌, true};
ghost use Rattle.std.specs.List.{AllByRecursion};
ghost use Rattle.dex_pools.specs.declared.interner.Interner.{Interner};
ghost use Rattle.dex_pools.specs.Interned.{IsInterned};
ghost use Rattle.dex_pools.specs.declared.used.Named.{Named};
ghost use Rattle.dex_pools.specs.Numbering.{used_in};
ghost use Rattle.dex_pools.specs.Used.{program_names};
ghost use Rattle.program_model.specs.declared.program.Program.{Program};
ghost use Rattle.program_model.specs.TableRules.{entries_fit, entries_differ};
ghost use Rattle.write_laws.specs.Ascending.{AllAscend};
ghost use Rattle.dex_defs.specs.Written.{written_by};
ghost use Rattle.write_laws.specs.Used.{IsUsed, IsClosed, IsShort};
ghost use Rattle.write_laws.specs.Carried.{KeepsTexts, HasEntry, renamed};
ghost use Rattle.write_laws.specs.Members.{KeepsClass};
ghost use Rattle.write_laws.specs.Owning.{OwnsAll, IsNoLonger};
ghost use Rattle.write_laws.specs.Reordered.{SameMembers};
ghost use Rattle.program_model.specs.declared.pass.Renumber.{Renumber};
ghost use Rattle.program_model.specs.declared.program.Class.{Class};

/// What a used entry of a table names is used, and what the classes name is.
pub fn closed_law()
    ensures closed { (p : Program) → IsShort p → IsClosed p (used_in p) }
    ensures named { (p : Program) → AllByRecursion (IsUsed (used_in p)) (program_names p) }
{}

/// Each used string, type, proto, field and method has in the written program, by its new number, the text that it has in
/// the program.
pub fn texts_law()
    ensures { (p : Program) (i : Interner) → IsShort p → IsInterned p i → KeepsTexts p i (written_by i p) }
{}

/// The new number of a used entry is one of the written program's table.
pub fn ranges_law()
    ensures { (p : Program) (i : Interner) → IsShort p → IsInterned p i → (n : Named) → IsUsed (used_in p) n → HasEntry p n → HasEntry (written_by i p) (renamed i.numbers n) }
{}

/// Each class of a program names in the written program, by its new numbers, what it names in the program, and so do its
/// fields with their first values and its methods with their code.
pub fn classes_law()
    ensures { (p : Program) (i : Interner) → IsShort p → IsInterned p i → AllByRecursion (KeepsClass p i (written_by i p)) p.classes }
{}

/// The written program's tables are no longer than the program's, and what their entries name they have.
pub fn tables_law()
    ensures shorter { (p : Program) (i : Interner) → IsInterned p i → IsNoLonger (written_by i p) p }
    ensures own { (p : Program) (i : Interner) → IsShort p → IsInterned p i → entries_fit p ≡ true → OwnsAll (written_by i p) }
{}

/// A class that is written has the members of the class, each once, in another order.
pub fn members_law()
    ensures { (p : Program) (r : Renumber) (c : Class) → SameMembers p r c }
{}

/// The tables that are written ascend in the order of the format, where the entries of the program's tables fit and no two
/// of them are the same.
pub fn ascending_law()
    ensures { (p : Program) (i : Interner) → IsShort p → IsInterned p i → entries_fit p ≡ true → entries_differ p ≡ true → AllAscend (written_by i p) }
{}
