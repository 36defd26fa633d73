//! A program in which calls and divisions that do nothing are nops: its bodies, and that it is well-formed.
//!
//! `quiet_code` says by number which instructions become nops. `specs/Nopped.antt` says what such a body is: at each position
//! stands what stood there, or a nop where the instruction does nothing. So registers, regions and source lines stay, and no
//! position moves. A program with such bodies keeps the rules: what does nothing goes on, and nobody takes its result.
//!
//! That it is typed and shows the same isn't proved here. The law of quiet calls (quiet_law) says so of what is known in the states
//! of a run: that steps in quiet methods advance, that calls which go enter such methods, and that divisions which go do no more
//! than write registers that nobody reads.

ghost use Rattle.std.specs.Prelude.{◌≡◌, Bool, true, List};
ghost use Rattle.program_model.specs.ProgramRules.{is_well_formed};
ghost use Rattle.program_model.specs.declared.pass.Changed.{Changed};
ghost use Rattle.program_model.specs.declared.program.Program.{Program};
ghost use Rattle.program_laws.specs.Numbered.{OtherNumberedBodies};
ghost use Rattle.facts.specs.declared.facts.Facts.{Facts};
ghost use Rattle.quiet_code.specs.Quieted.{IsQuieted};
ghost use Rattle.calls_kept.specs.Nopped.{QuietedCode};

/// What is left of a program has the same tables, and the same classes and members but for bodies, in which nops stand for just
/// the instructions that do nothing by the facts.
pub fn quieted_bodies_law()
    ensures { (p : Program) (facts : Facts) (admitted : List Bool) (c : Changed) (q : IsQuieted p facts admitted c)
        → OtherNumberedBodies (QuietedCode p q.quiet facts.frames.items) p c.program }
{}

/// What is left of a well-formed program is well-formed.
pub fn quieted_formed_law()
    ensures { (p : Program) (facts : Facts) (admitted : List Bool) (c : Changed) → is_well_formed p ≡ true → IsQuieted p facts admitted c → is_well_formed c.program ≡ true }
{}
