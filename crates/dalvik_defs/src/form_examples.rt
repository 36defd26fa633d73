//! Examples of what single instructions do, by what a method that has them shows.

ghost use Rattle.std.specs.Prelude.{◌≡◌, pos, negsuc, Some, [], ◌∷◌, codes};
ghost use Rattle.insn_set.specs.declared.ops.Item.TheVariants as item;
ghost use Rattle.insn_set.specs.declared.ops.UnaryOp.TheVariants as unary;
ghost use Rattle.dalvik_defs.specs.Examples.{to_int, trace, enter_m};
ghost use Rattle.dalvik_defs.specs.FormExamples.{shown_by, compares_longs, shifts_right, converts, to_long, lengthens, stored_small, switches_by, catches_by_type, fills_bytes, makes_filled};
ghost use Rattle.dalvik_defs.specs.declared.events.Event.TheVariants as event;
ghost use Rattle.dalvik_defs.specs.declared.events.Shown.TheVariants as shown;

/// Longs are compared with their signs.
pub fn longs_are_compared()
    ensures below { shown_by 5 (compares_longs (negsuc 0) (pos 1)) ≡ event.Result (Some (shown.Word 4294967295)) ∷ [] }
    ensures above { shown_by 5 (compares_longs (pos 1) (negsuc 0)) ≡ event.Result (Some (shown.Word 1)) ∷ [] }
    ensures equal { shown_by 5 (compares_longs (pos 7) (pos 7)) ≡ event.Result (Some (shown.Word 0)) ∷ [] }
{}

/// A negative number that is shifted right keeps its sign and is rounded down, and only the low 5 bits of the distance count.
pub fn a_negative_number_is_shifted()
    ensures one { shown_by 2 (shifts_right (negsuc 4) (pos 1)) ≡ event.Result (Some (shown.Word 4294967293)) ∷ [] }
    ensures around { shown_by 2 (shifts_right (negsuc 4) (pos 33)) ≡ event.Result (Some (shown.Word 4294967293)) ∷ [] }
{}

/// Conversions of an int keep its low bits: a byte and a short with their sign, a char without. A long takes the sign.
pub fn ints_are_converted()
    ensures byte { shown_by 1 (converts unary.IntToByte (pos 200)) ≡ event.Result (Some (shown.Word 4294967240)) ∷ [] }
    ensures char { shown_by 1 (converts unary.IntToChar (negsuc 0)) ≡ event.Result (Some (shown.Word 65535)) ∷ [] }
    ensures short { shown_by 1 (converts unary.IntToShort (pos 32768)) ≡ event.Result (Some (shown.Word 4294934528)) ∷ [] }
    ensures long { trace lengthens to_long (enter_m (codes "()J") [] ∷ []) 6 ≡ event.Result (Some (shown.Wide 18446744073709551615)) ∷ [] }
{}

/// A small field keeps the low bits of what is put.
pub fn small_fields_are_cut()
    ensures boolean { stored_small item.Boolean (codes "Z") (pos 258) ≡ event.Result (Some (shown.Word 2)) ∷ [] }
    ensures byte { stored_small item.Byte (codes "B") (pos 200) ≡ event.Result (Some (shown.Word 4294967240)) ∷ [] }
    ensures char { stored_small item.Char (codes "C") (negsuc 0) ≡ event.Result (Some (shown.Word 65535)) ∷ [] }
    ensures short { stored_small item.Short (codes "S") (pos 32768) ≡ event.Result (Some (shown.Word 4294934528)) ∷ [] }
{}

/// A sparse switch goes to its key's target, and on where the number is no key.
pub fn a_sparse_switch_goes_by_keys()
    ensures negative { shown_by 1 (switches_by (negsuc 0)) ≡ event.Result (Some (shown.Word 2)) ∷ [] }
    ensures last { shown_by 1 (switches_by (pos 100)) ≡ event.Result (Some (shown.Word 3)) ∷ [] }
    ensures other { shown_by 1 (switches_by (pos 5)) ≡ event.Result (Some (shown.Word 1)) ∷ [] }
{}

/// An object is caught by the first handler of its class or a class above it, before the catch-all.
pub fn a_handler_catches_by_type()
    ensures { trace catches_by_type to_int (enter_m (codes "()I") [] ∷ []) 8 ≡ event.Result (Some (shown.Word 1)) ∷ [] }
{}

/// An array is filled with the numbers of an instruction, a byte with its sign.
pub fn an_array_is_filled()
    ensures { shown_by 2 fills_bytes ≡ event.Result (Some (shown.Word 4294967240)) ∷ [] }
{}

/// A filled array is the result that the next instruction takes.
pub fn a_filled_array_is_a_result()
    ensures { shown_by 2 makes_filled ≡ event.Result (Some (shown.Word 9)) ∷ [] }
{}
