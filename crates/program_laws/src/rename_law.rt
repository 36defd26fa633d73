//! The law of methods with other names, along a map of names.
//!
//! Frames of a method have its name, and are else the same, so each step of a program in which methods have other names is, along a
//! map of states, a step of the program (`proofs/Along`, `Renaming`), if calls find there what they found, under its new name, or
//! are made static and find that (`CallAlike` of `specs/Renames.antt`), and the framework may enter the same methods. The other
//! face is an update of the first one in what is found alone. Its function has an empty body, and its contract is the law for a
//! single form; the law for programs is `proofs/Programs.antt`, whose premises the laws above prove.

ghost use Rattle.std.specs.Prelude.{◌≡◌, Bool, false};
ghost use Rattle.dalvik_defs.specs.Names.{Text};
ghost use Rattle.dalvik_defs.specs.State.{World};
ghost use Rattle.dalvik_defs.specs.Act.{act};
ghost use Rattle.dalvik_defs.specs.declared.state.Frame.{Frame};
ghost use Rattle.dalvik_defs.specs.declared.names.MethodKey.{MethodKey};
ghost use Rattle.dalvik_defs.specs.declared.forms.Form.{Form};
ghost use Rattle.dalvik_defs.specs.declared.tables.Floats.{Floats};
ghost use Rattle.program_laws.specs.Renames.{is_invoke, frame_named, effect_named};

/// What a form does in a frame doesn't depend on the frame's method.
pub fn renamed_law()
    ensures { (rename : MethodKey → MethodKey) (under : Text → Text → Bool) (floats : Floats) (form : Form) (w : World) (f : Frame)
        → is_invoke form ≡ false → act under floats form w (frame_named rename f) ≡ effect_named rename (act under floats form w f) }
{}
