//! What `dex_write` writes is a valid file that spells the written program: laws about the function `file_for`.

ghost use Rattle.std.specs.Prelude.{◌≡◌, ◌<◌, ◌^◌, List, [], ℕ, length, map, true};
ghost use Rattle.dex_pools.specs.declared.interner.Interner.{Interner};
ghost use Rattle.dex_pools.specs.Interned.{IsInterned};
ghost use Rattle.program_model.specs.TableRules.{tables_are_short, entries_fit, entries_differ};
ghost use Rattle.write_laws.specs.Fits.{TextsFit, TablesFit};
ghost use Rattle.program_model.specs.declared.pass.Renumber.{Renumber};
ghost use Rattle.program_model.specs.declared.program.Class.{Class};
ghost use Rattle.program_model.specs.declared.program.Program.{Program};
ghost use Rattle.dex_write.specs.File.{IsSealed};
ghost use Rattle.dex_write.specs.Written.{IsWritten, ArePlans};
ghost use Rattle.dex_write.specs.Plans.{Plan};
ghost use Rattle.dex_write.specs.Data.{data_texts};
ghost use Rattle.dex_defs.specs.Texts.{data_text};
ghost use Rattle.write_laws.specs.Listing.{all_lists_in};
ghost use Rattle.dex_defs.specs.Written.{written_by};
ghost use Rattle.dex_defs.specs.Arranged.{Lie, Both, named};
ghost use Rattle.write_laws.specs.Rising.{Rising};
ghost use Rattle.dex_defs.specs.Valid.{ClassPart, SetPart};
ghost use Rattle.write_laws.specs.Kinds.{Rest, IsValidFile};

/// What is written for a program is a valid file of the written program, where its classes and their items are.
pub fn written_file_law()
    ensures { (p : Program) (bytes : List ℕ) (w : IsWritten p bytes) (parts : List ClassPart) (sets : List SetPart) → IsSealed p.version bytes → length bytes < 2 ^ 32
        → Rest bytes p w.interner w.plans (written_by w.interner p) parts sets → IsValidFile p bytes (written_by w.interner p) }
{}

/// Of items that lie where they are named: what is empty has the offset 0, no two share a place, they stand in the order
/// in which they are named, and their texts alone say where.
pub fn arranged_law()
    ensures none { (bytes : List ℕ) (align from : ℕ) (offsets : List ℕ) (texts : List (List ℕ)) (to : ℕ) → Lie bytes align from offsets texts to → Both (λ o t. t ≡ [] → o ≡ 0) offsets texts }
    ensures apart { (bytes : List ℕ) (align from : ℕ) (offsets : List ℕ) (texts : List (List ℕ)) (to : ℕ) → Lie bytes align from offsets texts to → Rising from (named offsets) }
    ensures once { (bytes others : List ℕ) (from : ℕ) (offsets places : List ℕ) (texts : List (List ℕ)) (s t : ℕ) → Lie bytes 4 from offsets texts s → Lie others 4 from places texts t → (offsets ≡ places) × (s ≡ t) }
{}

/// The class data that is written for classes is the text of the lists of their members.
pub fn members_law()
    ensures { (p : Program) (r : Renumber) (classes : List Class) (plans : List Plan) (at : ℕ) → ArePlans p r classes plans → map data_text (all_lists_in at plans) ≡ data_texts at plans }
{}

/// The tables of the written program are what a file's have to be, where their texts are and they have no more units and
/// parameters than they may: their entries stand in order, and name entries that there are.
pub fn tables_law()
    ensures { (p : Program) (i : Interner) → tables_are_short p ≡ true → entries_fit p ≡ true → entries_differ p ≡ true → IsInterned p i → TextsFit (written_by i p) → TablesFit (written_by i p) }
{}
