//! What the marks of a body say.

ghost use Rattle.std.specs.Prelude.{◌≡◌, ℕ, ◌<◌, List, replicate, false};
ghost use Rattle.insn_set.specs.declared.form.Insn as form;
ghost use Rattle.program_model.specs.declared.body.Region as body;
ghost use Rattle.code_read.specs.Marks.{set_targets, set_regions, is_marked, is_target, is_handler};

/// A law, with nothing to run: of so many positions those are marked that a branch goes to, or at which a handler or
/// a catch-all begins.
pub fn marks_law()
    ensures targets { (n : ℕ) (insns : List form.Insn) (k : ℕ) → k < n → is_marked (set_targets (replicate n false) insns) k ≡ is_target insns k }
    ensures handlers { (n : ℕ) (regions : List body.Region) (k : ℕ) → k < n → is_marked (set_regions (replicate n false) regions) k ≡ is_handler regions k }
{}
