//! Laws of the faults that are answered.

ghost use Rattle.std.specs.Prelude.{◌≡◌, ◌≤◌, ◌<◌, ◌+◌, ◌*◌, ◌++◌, ℕ, List, Ok, Err, length, map, slice_index};
ghost use Rattle.program_model.specs.declared.program.Class.{Class};
ghost use Rattle.program_model.specs.declared.program.Field.{Field};
ghost use Rattle.program_model.specs.declared.program.Method.{Method};
ghost use Rattle.program_model.specs.declared.program.Program.{Program};
ghost use Rattle.dex_base.specs.Word.{Is32};
ghost use Rattle.dex_pools.specs.PoolTables.{pools_at};
ghost use Rattle.dex_pools.specs.Spelled.{IsExtent};
ghost use Rattle.dex_pools.specs.declared.fault.PoolFault.{PoolFault};
ghost use Rattle.dex_pools.specs.declared.header.Extent.{Extent};
ghost use Rattle.dex_defs.specs.Places.{HasSet, HasRefs};
ghost use Rattle.dex_read.specs.ClassData.{members_at};
ghost use Rattle.dex_read.specs.Classes.{def_at, listed_at, interfaces_at, root_at, begun_at};
ghost use Rattle.dex_read.specs.Directory.{set_at, sets_at, directory_at};
ghost use Rattle.dex_read.specs.File.{head_at, classes_at};
ghost use Rattle.dex_read.specs.Header.{need_at, header_at};
ghost use Rattle.dex_read.specs.Standing.{standing_at};
ghost use Rattle.dex_read.specs.declared.class_data.Listed.{Listed};
ghost use Rattle.dex_read.specs.declared.class_data.Members.{Members};
ghost use Rattle.dex_read.specs.declared.class_defs.ClassDef.{ClassDef};
ghost use Rattle.dex_read.specs.declared.fault.DexFault.{DexFault};
ghost use Rattle.dex_read.specs.declared.members.Budget.{Budget};
ghost use Rattle.refused_law.specs.Just.{IsJustPool, IsJust};

/// A fault of the header that is answered stands there, unless it is a passed limit.
pub fn header_law()
    ensures { (bytes : List ℕ) (e : DexFault) → header_at bytes ≡ Err e → IsJust bytes e }
{}

/// So does one of the five tables, where the header is whole, and so one of both.
pub fn tables_law()
    ensures pools { (bytes : List ℕ) (left : ℕ) (e : PoolFault) → 112 ≤ length bytes → pools_at bytes left ≡ Err e → IsJustPool bytes e }
    ensures head { (bytes : List ℕ) (e : DexFault) → head_at bytes ≡ Err e → IsJust bytes e }
{}

/// So does one of the table of class_defs, which passes the end.
pub fn class_table_law()
    ensures { (bytes : List ℕ) (count offset : ℕ) → Is32 bytes 96 count → Is32 bytes 100 offset → 0 < count
        → (e : DexFault) → need_at bytes offset (32 * count) ≡ Err e → IsJust bytes e }
{}

/// Behind tables that are read, so does one of a class_def of the table, one of its interfaces, and one of its superclass
/// or of its types.
pub fn class_def_law()
    ensures defs { (bytes : List ℕ) → ((i : ℕ) → slice_index bytes i < 256) → (p : Program) (left : ℕ) → head_at bytes ≡ Ok (p, left)
        → (table : Extent) → IsExtent bytes 96 32 table → (place : ℕ) → place < table.size
        → (e : DexFault) → def_at bytes p (table.offset + 32 * place) ≡ Err e → IsJust bytes e }
    ensures interfaces { (bytes : List ℕ) → ((i : ℕ) → slice_index bytes i < 256) → (p : Program) (left : ℕ) → head_at bytes ≡ Ok (p, left)
        → (table : Extent) → IsExtent bytes 96 32 table → (place : ℕ) → place < table.size
        → (d : ClassDef) (behind : ℕ) → def_at bytes p (table.offset + 32 * place) ≡ Ok d
        → (e : DexFault) → interfaces_at bytes p d.interfaces behind ≡ Err e → IsJust bytes e }
    ensures roots { (bytes : List ℕ) → ((i : ℕ) → slice_index bytes i < 256) → (p : Program) (left : ℕ) → head_at bytes ≡ Ok (p, left)
        → (table : Extent) → IsExtent bytes 96 32 table → (place : ℕ) → place < table.size
        → (d : ClassDef) (interfaces : List ℕ) (behind after : ℕ) → def_at bytes p (table.offset + 32 * place) ≡ Ok d
        → interfaces_at bytes p d.interfaces behind ≡ Ok (interfaces, after)
        → (e : DexFault) → root_at p d interfaces place ≡ Err e → IsJust bytes e }
{}

/// So does one of the class data of a class_def.
pub fn class_data_law()
    ensures { (bytes : List ℕ) → ((i : ℕ) → slice_index bytes i < 256) → (p : Program) (left : ℕ) → head_at bytes ≡ Ok (p, left)
        → (table : Extent) → IsExtent bytes 96 32 table → (place : ℕ) → place < table.size
        → (d : ClassDef) → def_at bytes p (table.offset + 32 * place) ≡ Ok d → 0 < d.data_at
        → (e : DexFault) → members_at bytes p (record { place = place; kind = d.class }) d.data_at ≡ Err e → IsJust bytes e }
{}

/// So does one of a set of annotations, or of a list of such sets, that is placed in the file.
pub fn sets_law()
    ensures sets { (bytes : List ℕ) → ((i : ℕ) → slice_index bytes i < 256) → (p : Program) (left : ℕ) → head_at bytes ≡ Ok (p, left)
        → (offset behind : ℕ) → (0 < offset → HasSet bytes offset) → (e : DexFault) → set_at bytes p offset behind ≡ Err e → IsJust bytes e }
    ensures lists { (bytes : List ℕ) → ((i : ℕ) → slice_index bytes i < 256) → (p : Program) (left : ℕ) → head_at bytes ≡ Ok (p, left)
        → (offset behind : ℕ) → (0 < offset → HasRefs bytes offset) → (e : DexFault) → sets_at bytes p offset behind ≡ Err e → IsJust bytes e }
{}

/// So does one of an interface that extends or implements a class of the file that is none, once all classes are read.
pub fn standing_law()
    ensures { (bytes : List ℕ) → ((i : ℕ) → slice_index bytes i < 256) → (p : Program) (left : ℕ) → head_at bytes ≡ Ok (p, left)
        → (classes : List Class) (budget : Budget) → classes_at bytes p budget ≡ Ok classes
        → (e : DexFault) → standing_at (record p { classes = classes }) ≡ Err e → IsJust bytes e }
{}

/// So does one of the first values of a class_def whose class data is read, for fields that are those of it.
pub fn first_values_law()
    ensures { (bytes : List ℕ) → ((i : ℕ) → slice_index bytes i < 256) → (p : Program) (left : ℕ) → head_at bytes ≡ Ok (p, left)
        → (table : Extent) → IsExtent bytes 96 32 table → (place : ℕ) → place < table.size
        → (d : ClassDef) → def_at bytes p (table.offset + 32 * place) ≡ Ok d
        → (m : Members) → listed_at bytes p (record { place = place; kind = d.class }) d.data_at ≡ Ok m
        → (fields : List Field) (behind : ℕ) → map (λ (f : Field). f.name) fields ≡ map (λ (e : Listed). e.number) (m.statics ++ m.instances)
        → (e : DexFault) → begun_at bytes p d.static_values (length m.statics) fields behind ≡ Err e → IsJust bytes e }
{}

/// So does one of the directory of annotations of a class_def whose class data is read.
pub fn directory_law()
    ensures { (bytes : List ℕ) → ((i : ℕ) → slice_index bytes i < 256) → (p : Program) (left : ℕ) → head_at bytes ≡ Ok (p, left)
        → (table : Extent) → IsExtent bytes 96 32 table → (place : ℕ) → place < table.size
        → (d : ClassDef) → def_at bytes p (table.offset + 32 * place) ≡ Ok d
        → (m : Members) → listed_at bytes p (record { place = place; kind = d.class }) d.data_at ≡ Ok m → 0 < d.annotations
        → (fields : List Field) (methods : List Method) (behind : ℕ)
        → (e : DexFault) → directory_at bytes p place m d.annotations fields methods behind ≡ Err e → IsJust bytes e }
{}
