//! Examples of calls of other versions and of methods without code, and of what the framework does to fields and arrays.

ghost use Rattle.std.specs.Prelude.{◌≡◌, Some, None, [], ◌∷◌, codes};
ghost use Rattle.insn_set.specs.declared.ops.InvokeKind.TheVariants as call;
ghost use Rattle.program_model.specs.declared.program.Version.TheVariants.{V035, V037};
ghost use Rattle.dalvik_defs.specs.Names.{void, object_type};
ghost use Rattle.dalvik_defs.specs.Known.{abstract_method};
ghost use Rattle.dalvik_defs.specs.Examples.{a_type, b_type, i_type, trace, takes_array, enter_m, logged, make_and_call, puts_item};
ghost use Rattle.dalvik_defs.specs.CallExamples.{shown_under, keeps_r_of_b, calls_superclass, calls_interface_above, uncoded_r, calls_native, calls_constructor_statically, has_field, keeps_x, has_own_field, keeps_a_and_x};
ghost use Rattle.dalvik_defs.specs.declared.script.Given.TheVariants as given;
ghost use Rattle.dalvik_defs.specs.declared.script.Move.TheVariants as move;
ghost use Rattle.dalvik_defs.specs.declared.events.Event.TheVariants as event;
ghost use Rattle.dalvik_defs.specs.declared.events.Shown.TheVariants as shown;

/// A super call finds the method of the superclass.
pub fn a_super_call_begins_above()
    ensures of_035 { shown_under keeps_r_of_b (calls_superclass V035) make_and_call 9
        ≡ event.Make (shown.First 0 b_type) ∷ logged ∷ [] }
    ensures of_037 { shown_under keeps_r_of_b (calls_superclass V037) make_and_call 9
        ≡ event.Make (shown.First 0 b_type) ∷ logged ∷ [] }
{}

/// A super call that names an interface finds its method in version 037, and in version 035 belongs to the framework.
pub fn a_super_call_of_an_interface_goes_by_the_version()
    ensures of_035 { shown_under keeps_r_of_b (calls_interface_above V035) make_and_call 8
        ≡ event.Make (shown.First 0 b_type) ∷ event.Call call.Super i_type (codes "r") (codes "()V") (shown.Again 0 ∷ []) ∷ event.Result None ∷ [] }
    ensures of_037 { shown_under keeps_r_of_b (calls_interface_above V037) make_and_call 11
        ≡ event.Make (shown.First 0 b_type) ∷ logged ∷ event.Result None ∷ [] }
{}

/// A call that finds a native method is one of the framework, of the kind virtual where it was one of an interface.
pub fn a_native_method_is_called_out()
    ensures found_static { trace calls_native void (enter_m (codes "()V") [] ∷ move.Return None ∷ []) 8
        ≡ event.Call call.Static a_type (codes "n") (codes "()V") [] ∷ event.Result None ∷ [] }
    ensures found_virtual { trace (uncoded_r 257) void (enter_m (codes "()V") [] ∷ []) 13
        ≡ event.Call call.Virtual b_type (codes "r") (codes "()V") (shown.First 0 b_type ∷ []) ∷ [] }
{}

/// A call that finds an abstract method throws.
pub fn an_abstract_method_throws()
    ensures { trace (uncoded_r 1025) void (enter_m (codes "()V") [] ∷ []) 13
        ≡ event.Uncaught (shown.First 0 abstract_method) ∷ [] }
{}

/// The constructor of Object does nothing in a direct call alone.
pub fn a_static_call_of_a_constructor_is_shown()
    ensures { trace calls_constructor_statically void (enter_m (codes "()V") [] ∷ []) 5
        ≡ event.Call call.Static object_type (codes "<init>") (codes "()V") [] ∷ [] }
{}

/// The framework writes and reads a kept field.
pub fn the_framework_puts_and_gets()
    ensures of_a_class { shown_under keeps_x has_field
        (move.Put a_type (codes "x") (codes "I") None (given.Word 5) ∷ move.Get a_type (codes "x") (codes "I") None ∷ []) 4
        ≡ event.Answer (shown.Word 5) ∷ [] }
    ensures of_an_object { shown_under keeps_a_and_x has_own_field
        (move.Make a_type
        ∷ move.Put a_type (codes "x") (codes "I") (Some (given.Exposed 0)) (given.Word 6)
        ∷ move.Get a_type (codes "x") (codes "I") (Some (given.Exposed 0))
        ∷ []) 7
        ≡ event.Make (shown.First 0 a_type) ∷ event.Answer (shown.Word 6) ∷ [] }
{}

/// The framework writes an item of an exposed array, and enters a method with an exposed object.
pub fn an_exposed_array_is_given_again()
    ensures { trace puts_item takes_array
        (enter_m (codes "([I)V") (given.Array (codes "I") 2 ∷ [])
        ∷ move.ArrayPut (given.Exposed 0) 1 (given.Word 7)
        ∷ move.ArrayGet (given.Exposed 0) 1
        ∷ enter_m (codes "([I)V") (given.Exposed 0 ∷ [])
        ∷ move.ArrayGet (given.Exposed 0) 1
        ∷ []) 15
        ≡ event.Result None ∷ event.Answer (shown.Word 7) ∷ event.Result None ∷ event.Answer (shown.Word 5) ∷ [] }
{}
