//! Examples of typings, on the programs of `specs/TypedExamples.antt`.

ghost use Rattle.std.specs.Prelude.{◌≡◌, true, false, Some, None, [], ◌∷◌, codes};
ghost use Rattle.dalvik_defs.specs.Names.{object_type, void};
ghost use Rattle.dalvik_defs.specs.Examples.{b_type, i_type, to_int};
ghost use Rattle.dalvik_defs.specs.declared.encoded.NamedValue.TheVariants as value;
ghost use Rattle.pass_defs.specs.Kinds.{Undefined, Zero, Word, Array, Reference};
ghost use Rattle.pass_defs.specs.TypedExamples.{IsTypedBy, IsAlwaysIll, is_ill, interface_with_x, a_text, a_null, gets_x, puts_x, b_with, reads_s, puts_s, fills};

/// A field that a program interface names is read on null alone; a framework class may have such a field.
pub fn a_field_of_an_interface_is_read_on_null()
    ensures text { is_ill to_int (gets_x a_text i_type) (interface_with_x ∷ []) 1 0 ≡ true }
    ensures null { IsTypedBy to_int (gets_x a_null i_type) (interface_with_x ∷ []) ((Undefined ∷ []) ∷ (Zero ∷ []) ∷ (Word ∷ []) ∷ []) }
    ensures framework { IsTypedBy to_int (gets_x a_text i_type) [] ((Undefined ∷ []) ∷ (Reference ∷ []) ∷ (Word ∷ []) ∷ []) }
{}

/// So is it written; what is refused is the object and not the number.
pub fn a_field_of_an_interface_is_written_on_null()
    ensures text { is_ill to_int (puts_x a_text i_type) (interface_with_x ∷ []) 2 0 ≡ true }
    ensures number { is_ill to_int (puts_x a_text i_type) (interface_with_x ∷ []) 2 1 ≡ false }
    ensures null { IsTypedBy to_int (puts_x a_null i_type) (interface_with_x ∷ []) ((Undefined ∷ Undefined ∷ []) ∷ (Zero ∷ Undefined ∷ []) ∷ (Zero ∷ Word ∷ []) ∷ (Zero ∷ Word ∷ []) ∷ []) }
    ensures framework { IsTypedBy to_int (puts_x a_text i_type) [] ((Undefined ∷ Undefined ∷ []) ∷ (Reference ∷ Undefined ∷ []) ∷ (Reference ∷ Word ∷ []) ∷ (Reference ∷ Word ∷ []) ∷ []) }
{}

/// A static field that has a text first isn't read where it holds arrays or objects of a program class; without a first
/// value it is, and where it holds any object. It may be written.
pub fn a_text_is_no_array()
    ensures array { IsAlwaysIll void (reads_s (codes "[I")) (b_with (codes "[I") (Some (value.Str (codes "t"))) ∷ []) 0 0 }
    ensures class { IsAlwaysIll void (reads_s b_type) (b_with b_type (Some (value.Class b_type)) ∷ []) 0 0 }
    ensures null { IsTypedBy void (reads_s (codes "[I")) (b_with (codes "[I") None ∷ []) ((Undefined ∷ []) ∷ (Array (codes "[I") ∷ []) ∷ []) }
    ensures object { IsTypedBy void (reads_s object_type) (b_with object_type (Some (value.Str (codes "t"))) ∷ []) ((Undefined ∷ []) ∷ (Reference ∷ []) ∷ []) }
    ensures put { IsTypedBy void (puts_s (codes "[I")) (b_with (codes "[I") (Some (value.Str (codes "t"))) ∷ []) ((Undefined ∷ []) ∷ (Zero ∷ []) ∷ (Zero ∷ []) ∷ []) }
{}

/// An array of numbers is filled with items as wide as its own, and one of objects not at all.
pub fn an_array_of_objects_is_not_filled()
    ensures objects { is_ill void (fills (codes "[LB;") 0) [] 2 0 ≡ true }
    ensures wider { is_ill void (fills (codes "[I") 8) [] 2 0 ≡ true }
    ensures numbers { IsTypedBy void (fills (codes "[I") 4) [] ((Undefined ∷ []) ∷ (Word ∷ []) ∷ (Array (codes "[I") ∷ []) ∷ (Array (codes "[I") ∷ []) ∷ []) }
{}
