//! Classes and their members that are read fit the rules.

ghost use Rattle.std.specs.Prelude.{◌≡◌, ◌<◌, true, List, ℕ, Ok, length, slice_index};
ghost use Rattle.program_model.specs.declared.program.Class.{Class};
ghost use Rattle.program_model.specs.declared.program.Program.{Program};
ghost use Rattle.program_model.specs.InterfaceRules.{interfaces_stand_free};
ghost use Rattle.program_model.specs.LineRules.{lines_fit};
ghost use Rattle.program_model.specs.MemberRules.{types_of_class_fit, source_fits, fields_fit, methods_fit, class_fits};
ghost use Rattle.program_model.specs.ValueRules.{value_fits, marks_fit};
ghost use Rattle.program_model.specs.declared.value.EncValue.{EncValue};
ghost use Rattle.program_model.specs.declared.value.Mark.{Mark};
ghost use Rattle.std.specs.List.{list_all};
ghost use Rattle.dex_pools.specs.Value.{value_at};
ghost use Rattle.dex_read.specs.Code.{lined_at};
ghost use Rattle.dex_read.specs.Directory.{set_at, sets_at};
ghost use Rattle.dex_read.specs.Tables.{sizes_in};
ghost use Rattle.dex_read.specs.declared.members.Budget.{Budget};
ghost use Rattle.dex_read.specs.Classes.{class_at};
ghost use Rattle.dex_read.specs.File.{program_at};

/// A class that is read is no root, it, its superclass and its interfaces are class types, and its source is a string.
pub fn class_types_law()
    ensures types { (bytes : List ℕ) (p : Program) (at place : ℕ) (left : Budget) (r : Class × Budget) → class_at bytes p at place left ≡ Ok r → types_of_class_fit p r.0 ≡ true }
    ensures source { (bytes : List ℕ) (p : Program) (at place : ℕ) (left : Budget) (r : Class × Budget) → class_at bytes p at place left ≡ Ok r → source_fits p r.0.source ≡ true }
{}

/// Values that are read name entries of the tables and nest as deep as they may; sets of annotations that are read, of a class, a
/// member or its parameters, fit and ascend by type.
pub fn marks_law()
    ensures values { (depth : ℕ) (bytes : List ℕ) (p : Program) (s : ℕ × ℕ) (r : EncValue × (ℕ × ℕ)) → value_at depth bytes (sizes_in p) s ≡ Ok r → value_fits depth p r.0 ≡ true }
    ensures sets { (bytes : List ℕ) (p : Program) (offset left : ℕ) (r : List Mark × ℕ) → set_at bytes p offset left ≡ Ok r → marks_fit p r.0 ≡ true }
    ensures parameters { (bytes : List ℕ) (p : Program) (offset left : ℕ) (r : List (List Mark) × ℕ) → sets_at bytes p offset left ≡ Ok r → list_all (marks_fit p) r.0 ≡ true }
{}

/// The fields of a class that is read are its own, static ones first, ascend by number and are none twice; only static ones have
/// first values, each of its field's type and none of them zero; and the annotations of the fields and of the class fit.
pub fn fields_law()
    ensures marks { (bytes : List ℕ) (p : Program) (at place : ℕ) (left : Budget) (r : Class × Budget) → class_at bytes p at place left ≡ Ok r → marks_fit p r.0.marks ≡ true }
    ensures fields { (bytes : List ℕ) (p : Program) (at place : ℕ) (left : Budget) (r : Class × Budget) → class_at bytes p at place left ≡ Ok r → fields_fit p r.0.name r.0.fields ≡ true }
{}

/// The methods of a class that is read are its own, direct ones first, ascend by number and are none twice; they have code where they
/// are neither abstract nor native, in a frame of their receiver and parameters; their bodies, their lines and their annotations fit.
pub fn methods_law()
    ensures { (bytes : List ℕ) (p : Program) (at place : ℕ) (left : Budget) (r : Class × Budget) → ((i : ℕ) → slice_index bytes i < 256)
        → class_at bytes p at place left ≡ Ok r → methods_fit p r.0.name r.0.methods ≡ true }
{}

/// The lines that are read of a debug item fit as many positions as begin at these units.
pub fn lines_law()
    ensures { (bytes starts : List ℕ) (debug left : ℕ) (r : List ℕ × ℕ) → lined_at bytes debug starts left ≡ Ok r → lines_fit (length starts) r.0 ≡ true }
{}

/// A class that is read fits.
pub fn class_law()
    ensures { (bytes : List ℕ) (p : Program) (at place : ℕ) (left : Budget) (r : Class × Budget) → ((i : ℕ) → slice_index bytes i < 256)
        → class_at bytes p at place left ≡ Ok r → class_fits p r.0 ≡ true }
{}

/// No interface of the program that is read has a class of the program that is no interface as its superclass or in its list.
pub fn interfaces_law()
    ensures { (bytes : List ℕ) (p : Program) → program_at bytes ≡ Ok p → interfaces_stand_free p ≡ true }
{}
