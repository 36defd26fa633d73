//! Examples of scripts and of the lines of events.

ghost use Rattle.std.specs.Prelude.{◌≡◌, [], ◌∷◌, Some, None, Ok, Err, codes};
ghost use Rattle.insn_set.specs.declared.ops.InvokeKind.TheVariants as call;
ghost use Rattle.dalvik_defs.specs.declared.script.Given.TheVariants as given;
ghost use Rattle.dalvik_defs.specs.declared.script.Move.TheVariants as move;
ghost use Rattle.dalvik_defs.specs.declared.events.Event.TheVariants as event;
ghost use Rattle.dalvik_defs.specs.declared.events.Shown.TheVariants as shown;
ghost use Rattle.text_defs.specs.Escapes.{escaped, text_of};
ghost use Rattle.text_defs.specs.Values.{given_of};
ghost use Rattle.text_defs.specs.Plays.{no_play, play_of};
ghost use Rattle.text_defs.specs.EventLines.{event_lines};
ghost use Rattle.text_defs.specs.Examples.{enters_m, view_row, negated_row};
ghost use Rattle.text_defs.specs.declared.fault.ScriptFault.TheVariants as fault;

/// A script of one move, one of rows before a move, and one without moves; empty lines say nothing.
pub fn a_script_has_moves()
    ensures enters { play_of (codes "enter LA; m (I)I w00000007\n") ≡ Ok (enters_m (given.Word 7 ∷ []) []) }
    ensures throws { play_of (codes "enter LA; m (I)I w00000007\nthrow new:LB;") ≡ Ok (enters_m (given.Word 7 ∷ []) (move.Throw (given.New (codes "LB;")) ∷ [])) }
    ensures empty { play_of (codes "\n\n") ≡ Ok no_play }
    ensures nothing { play_of [] ≡ Ok no_play }
{}

/// A line with an unknown word, the second of two bad lines, a line with two spaces, and one that ends with a space.
pub fn the_first_bad_line_is_named()
    ensures unknown { play_of (codes "enter LA; m ()I\njump\nhop") ≡ Err (fault.Line 2) }
    ensures behind_empty { play_of (codes "\n\nmake") ≡ Err (fault.Line 3) }
    ensures spaces { play_of (codes "make  LA;") ≡ Err (fault.Line 1) }
    ensures last_space { play_of (codes "make LA; ") ≡ Err (fault.Line 1) }
{}

/// Rows precede moves, a type has one row, and a type that the machine knows has none.
pub fn rows_come_first()
    ensures row { play_of (codes "type LV; class LW; LI;") ≡ Ok (record no_play { framework = record { rows = view_row ∷ [] } }) }
    ensures float { play_of (codes "float neg-float w3f800000 wbf800000") ≡ Ok (record no_play { floats = record { rows = negated_row ∷ [] } }) }
    ensures behind { play_of (codes "make LA;\ntype LV; class LW;") ≡ Err (fault.Line 2) }
    ensures twice { play_of (codes "type LV; class LW;\ntype LV; class LX;") ≡ Err (fault.Line 2) }
    ensures known { play_of (codes "type Ljava/lang/Error; class LW;") ≡ Err (fault.Line 1) }
    ensures too_few { play_of (codes "float add-float w3f800000 w3f800000") ≡ Err (fault.Line 1) }
    ensures too_wide { play_of (codes "float neg-float l000000003f800000 wbf800000") ≡ Err (fault.Line 1) }
{}

/// Values have one spelling each.
pub fn values_are_spelled_once()
    ensures nothing { given_of (codes "null") ≡ Some given.Null }
    ensures word { given_of (codes "w0000000f") ≡ Some (given.Word 15) }
    ensures upper { given_of (codes "w0000000F") ≡ None }
    ensures short { given_of (codes "w000000f") ≡ None }
    ensures wide { given_of (codes "l00000001ffffffff") ≡ Some (given.Wide 8589934591) }
    ensures place { given_of (codes "#10") ≡ Some (given.Exposed 10) }
    ensures zero { given_of (codes "#010") ≡ None }
    ensures far { given_of (codes "#99999999999") ≡ Some (given.Exposed 4294967295) }
    ensures array { given_of (codes "array:La:b;:65535") ≡ Some (given.Array (codes "La:b;") 65535) }
    ensures too_long { given_of (codes "array:I:65536") ≡ None }
    ensures no_size { given_of (codes "array:I") ≡ None }
    ensures empty_text { given_of (codes "text:") ≡ Some (given.Literal []) }
    ensures empty_type { given_of (codes "new:") ≡ None }
{}

/// A unit that doesn't stand for itself is escaped, and none other: a space, a backslash, and a unit past ASCII.
#[tactic(auto, unfolding(crate::specs::Digits::hex))]
pub fn units_are_escaped()
    ensures written { escaped (97 ∷ 32 ∷ 92 ∷ 233 ∷ []) ≡ codes "a\\0020\\005c\\00e9" }
    ensures read { text_of (codes "a\\0020\\005c\\00e9") ≡ Some (97 ∷ 32 ∷ 92 ∷ 233 ∷ []) }
    ensures plain { text_of (codes "\\0061") ≡ None }
    ensures upper { text_of (codes "\\00E9") ≡ None }
    ensures cut { text_of (codes "a\\00e") ≡ None }
{}

/// The lines of events: an object has its type where it is printed for the first time.
#[tactic(auto, unfolding(crate::specs::Digits::hex))]
pub fn events_have_lines()
    ensures call { event_lines (event.Call call.Virtual (codes "LA;") (codes "m") (codes "(LB;J)V") (shown.First 0 (codes "LB;") ∷ shown.Again 0 ∷ shown.Wide 1 ∷ []) ∷ [])
        ≡ codes "call virtual LA; m (LB;J)V #0=LB; #0 l0000000000000001\n" }
    ensures results { event_lines (event.Result (Some (shown.Word 7)) ∷ event.Result None ∷ []) ≡ codes "result w00000007\nresult\n" }
    ensures put { event_lines (event.Put (codes "LA;") (codes "x") (codes "I") None (shown.Word 255) ∷ []) ≡ codes "put LA; x I w000000ff\n" }
    ensures texts { event_lines (event.Answer (shown.Literal []) ∷ event.Uncaught (shown.Class (codes "LA;")) ∷ []) ≡ codes "answer text:\nuncaught class:LA;\n" }
{}
