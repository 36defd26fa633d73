//! From copies by number to copies by name: the body that `splice` makes of a caller is by name that of the definition of inlining
//! (`inlined` of pass_defs), with the accepted positions those at which a method is chosen, so long as no count of positions and no
//! register comes near its greatest number. `specs/Copied.antt` says what is asked of a caller and of what is copied, and what is
//! proved.

ghost use Rattle.calls_kept.specs.Copied.{IsSplicedByNumber};

/// The body with copies by number is by name the one with copies by name.
pub fn spliced_law()
    ensures { IsSplicedByNumber }
{}
