//! Examples of what is asked of a program, on those of `specs/Examples.antt`.

ghost use Rattle.dalvik_defs.specs.Face.{bodies_of};
ghost use Rattle.dalvik_defs.specs.Names.{void};
ghost use Rattle.pass_defs.specs.Typed.{IsTyping};
ghost use Rattle.dalvik_defs.specs.Examples.{with_m};
ghost use Rattle.pass_defs.specs.TypedExamples.{m_with};
ghost use Rattle.run_laws.specs.NeverStuck.{IsNeverStuck};
ghost use Rattle.run_laws.specs.Regular.{IsRegular};
ghost use Rattle.run_laws.specs.Examples.{alone, casts_up, casts_up_table, enters_m, interface_below, reads_text};

/// A program that reads a text from a static field and has an interface is regular.
pub fn a_program_is_regular()
    ensures { IsRegular reads_text }
{}

/// Where an interface stands below a class, an array of it holds any object and is under one of the class. So a body is
/// typed that reads a field of a text, and its run is stuck.
pub fn an_interface_below_a_class_is_stuck()
    ensures typed { IsTyping interface_below (with_m void casts_up) (m_with void casts_up) casts_up casts_up_table }
    ensures stuck { IsNeverStuck (alone interface_below) (bodies_of interface_below) enters_m → ⊥ }
{}
