//! Values and annotations of a written file: each is spelled wherever its text stands.

ghost use Rattle.std.specs.Prelude.{◌+◌, ◌<◌, ◌^◌, ◌≤◌, ℕ, List, length};
ghost use Rattle.program_model.specs.declared.value.EncValue.{EncValue};
ghost use Rattle.program_model.specs.declared.value.Mark.{Mark};
ghost use Rattle.dex_pools.specs.declared.scalar.TableSizes.{TableSizes};
ghost use Rattle.dex_defs.specs.Here.{Here};
ghost use Rattle.dex_defs.specs.Values.{IsValue};
ghost use Rattle.dex_defs.specs.Annotations.{IsMark};
ghost use Rattle.dex_defs.specs.ValueTexts.{value_text, mark_text};
ghost use Rattle.written_file.specs.Fitting.{SizesFit, ValueFits, MarkFits};

/// A value whose numbers fit is spelled wherever its text stands, and so are an annotation and first values.
pub fn values_law()
    ensures value { (bytes : List ℕ) (sizes : TableSizes) (depth : ℕ) (v : EncValue) (at : ℕ) → SizesFit sizes → ValueFits sizes depth v → Here bytes at (value_text v)
        → IsValue bytes sizes depth at (v, at + length (value_text v)) }
    ensures mark { (bytes : List ℕ) (sizes : TableSizes) (m : Mark) (at : ℕ) → SizesFit sizes → MarkFits sizes m → Here bytes at (mark_text m) → IsMark bytes sizes at m }
{}
