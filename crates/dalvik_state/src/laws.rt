//! What a change by numbers is by names.

ghost use Rattle.std.specs.Prelude.{◌≡◌, ◌<◌, ◌^◌, ℕ, List, Some};
ghost use Rattle.insn_set.specs.declared.ops.Item.{Item};
ghost use Rattle.dalvik_defs.specs.Effect.{go, next, write_item};
ghost use Rattle.dalvik_defs.specs.declared.script.Move.{Move};
ghost use Rattle.dalvik_state.specs.Frames.{with_item, GoesOn, Handles};
ghost use Rattle.dalvik_state.specs.States.{top_frame, ChangesTop, IsReplaced};
ghost use Rattle.dalvik_state.specs.Views.{frame_of, value_of, Names};
ghost use Rattle.dalvik_state.specs.declared.datum.Datum.{Datum};
ghost use Rattle.dalvik_state.specs.declared.frame.Frame.{Frame};
ghost use Rattle.dalvik_state.specs.declared.state.Waiting.{Waiting};

/// Where the frame on top goes on, or goes to a handler, the frame by names does, and all below it stays.
pub fn top_law()
    ensures goes_on { (n : Names) (script : List Move) (before : List Waiting) (after : List Waiting) (f : Frame) → top_frame before ≡ Some f → f.position < 2 ^ 63 → ChangesTop (λ f g. GoesOn f g f.registers.items) before after → IsReplaced n script before after (frame_of n f) (next (frame_of n f)) }
    ensures goes_on_with { (n : Names) (script : List Move) (before : List Waiting) (after : List Waiting) (f : Frame) (item : Item) (register : ℕ) (d : Datum) → top_frame before ≡ Some f → f.position < 2 ^ 63 → ChangesTop (λ f g. GoesOn f g (with_item item f.registers.items register d)) before after → IsReplaced n script before after (frame_of n f) (next (write_item item (frame_of n f) register (value_of n d))) }
    ensures handles { (n : Names) (script : List Move) (before : List Waiting) (after : List Waiting) (f : Frame) (target : ℕ) (d : Datum) → top_frame before ≡ Some f → ChangesTop (λ f g. Handles f g target d) before after → IsReplaced n script before after (frame_of n f) (record (go (frame_of n f) target) { caught = value_of n d }) }
{}
