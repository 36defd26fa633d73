//! Operands by number and by name: an instruction with other registers has the form with other registers, and the operands of its
//! form are as wide as its own. `proofs/Remaking.antt`, `proofs/Widths.antt` and `proofs/Same.antt` say it for proofs above. Its
//! functions have an empty body, and their contracts are the laws (Dalvik bytecode, "Summary of bytecode set"; Dalvik executable
//! format, "method_id_item" and "proto_id_item").

ghost use Rattle.bodies_kept.specs.OperandBridged.{IsRemadeByNumber, AreWidesByNumber, IsSameForm};

/// The form of an instruction with other registers is the form with other registers.
pub fn remade_law()
    ensures { IsRemadeByNumber }
{}

/// The wide operands that a form reads are those that its instruction reads by the widths of all methods' arguments.
pub fn wides_law()
    ensures { AreWidesByNumber }
{}

/// A form with its own registers and targets is the same form.
pub fn same_form_law()
    ensures { IsSameForm }
{}
