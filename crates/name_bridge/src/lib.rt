//! Numbers and names: for a well-formed program each look-up by number is the look-up by name in its named program. The
//! functions of this crate have an empty body, and their contracts are laws; the lemmas that crates above import stand
//! in `proofs/`. Look-ups by number are those of `class_defs` and of `program_model`'s `Lookups`; `specs/Named.antt` says
//! what a place names (`class_at`, `found_at`, `search_at`, `field_at_place`). Each lemma takes `Sound p`, which
//! `Tables.sound` gives for a well-formed program, and where it must, that no class is defined twice.
//!
//! - `Tables`: no two numbers of a table have one name (`text_once`, `type_once`, `signature_once`, `field_once`,
//!   `method_once`), and that the numbers in a table's entry are below their tables' sizes (`method_class` and its like).
//! - `Flags`: a flag by its bit is the flag by a remainder.
//! - `Classes`: tests of names are tests of numbers (`type_test`, `text_test`, `signature_test`), what a class of the
//!   program holds (`class_parts`), the class of a type (`class_by_number`), the method and the field of a class by name
//!   (`method_by_number`, `field_by_number`).
//! - `Defined`: the method and the field that a class defines under a number (`method_defined_by_number`,
//!   `field_defined_known`); with std's `slice_get-map` this gives the code and the instruction at a position.
//! - `Above`: the superclasses of a class (`chain_by_number`) and what it is under (`under_by_number`), for typings and
//!   for the machine; where no class is defined twice, a class is that of its type (`own_place`).
//! - `Nearest`: the nearest common superclass (`nearest_by_number`), for joins of kinds.
//! - `Found`, `Resolved`, `Candidates`, `Fields`: what names resolve to (`resolves_by_number`,
//!   `field_resolves_by_number`), and what calls find: `static_by_number`, `super_by_number`, `finds_at_by_number` for
//!   virtual and interface calls, `among_by_number` for the candidates of interfaces. For typings, the machine, and the
//!   analysis of calls.
//! - `Started`: initialisers (`initialiser_by_number`, `has_initialiser_by_number`) and trivially initialised classes
//!   (`trivial_by_number`).
#![tactic(auto)]

mod laws;
