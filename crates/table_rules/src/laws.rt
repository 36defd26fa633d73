//! The law of the rules of tables.

ghost use Rattle.std.specs.Prelude.{◌≡◌, ◌≤◌, true, List, length};
ghost use Rattle.program_model.specs.MemberRules.{class_fits};
ghost use Rattle.program_model.specs.TableRules.{tables_fit};
ghost use Rattle.program_model.specs.declared.program.Class.{Class};
ghost use Rattle.program_model.specs.declared.program.Program.{Program};

/// With other classes, no more of them, the tables keep their rules, and of each class the same is asked.
pub fn tables_law()
    ensures tables { (p : Program) (classes : List Class) → length classes ≤ length p.classes → tables_fit p ≡ true → tables_fit (record p { classes = classes }) ≡ true }
    ensures classes { (p : Program) (classes : List Class) (c : Class) → class_fits (record p { classes = classes }) c ≡ class_fits p c }
{}
