//! The promise of `redex optimise`, from the bytes that the names hold to the bytes of the output, and on the way to it what all
//! rounds of pipeline leave, and what `optimise` leaves for all rules. The functions of this crate have an empty body, and their
//! contracts are the laws.
//!
//! `specs/Owed.antt` says what a pass owes: of a sound program, which is well-formed and typed and whose class graph has no
//! fault, it leaves one that is sound, which defines no more classes, and whose virtual methods are some of those that there were.
//! A number may name another method after a pass, a static one; so the outside names the same but for silent and shut methods, and
//! shuts the same virtual ones. Where a table of shut methods holds what it says, what is left shows the same, by the names before the
//! pass, and the table holds what it says of it, by the names after it.
//! `passes` has this of each pass of a round, and of an inlining before them, and `rounds` of all of them, one after another,
//! and of what `optimise` leaves of a sound program without silent calls. A new pass is one more law of `passes`.
//!
//! `silence` and `rules`: what pipeline's `silence` leaves of a program by number is by names the program without its silent calls,
//! and what `optimise` leaves of it for all rules shows what that program shows.
//!
//! - `Listed`: in a well-formed program a method number is one of some numbers, or is marked, exactly where its name is
//!   that of one of them (`listed_named`, `admitted_named`), numbers past the table's end included.
//! - `Sought`: a static call of a number finds no program method exactly where one of its name finds none
//!   (`quiet_named`).
//! - `Silenced`: from the instruction to the whole program (`silenced_named`).
//! - `Unfaulted`: where a hierarchy was built, the class graph has no fault (`unfaulted`); a program with one `silence`
//!   leaves whole.
//! - `Optimised`: the rounds that follow, and `Inlined`: the same where calls are inlined before them.
//! - `LaidRounds`: what each pass keeps all rounds keep, of a program that lays out and whose texts ascend (`LaidTexts`); and `LaidOut`:
//!   so what is left of a program that was read lays out, and so does what is written for it.
//!
//! `run` of redex_cli says what the output's name holds: the bytes that are written for what removal and silence leave of the
//! program that the file spells. [`laws::headline`] joins both, and
//! [`laws::any_outside`] says the second for any outside whose table of shut methods holds what it says.
//! `specs/Headline.antt` has the promise. This crate declares no types of its own. No crate stands on it, so it is listed as a
//! static library, of which nothing is kept for crates above.
#![tactic(auto)]

pub mod laws;
pub mod passes;
pub mod rounds;
pub mod rules;
pub mod silence;
