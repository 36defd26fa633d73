//! Examples of what programs show: each program of `specs/Examples.antt` has a class `LA;` with a static method `m`
//! that the framework enters.

ghost use Rattle.std.specs.Prelude.{◌≡◌, Some, None, [], ◌∷◌, codes};
ghost use Rattle.insn_set.specs.declared.ops.InvokeKind.TheVariants as call;
ghost use Rattle.program_model.specs.declared.program.Version.TheVariants.{V035, V037};
ghost use Rattle.dalvik_defs.specs.Names.{void};
ghost use Rattle.dalvik_defs.specs.Examples.{trace, to_int, int_to_int, takes_array, enter_m, throws_runtime, logged, i_type, b_type, answers_two, divides_by_zero, divides_least, catches, puts_item, initialiser_logs, initialiser_fails, class_has_r, interface_has_r, keeps_m, long_to_long, adds_long, float_to_float, negates, negates_one, reads_framework, superclass_fails, interface_starts, tests_array, stores_badly, leaves_twice, called_back, keeps_b, make_and_call, switches, a_type, interfaces_clash, only_logs, without_logs, initialised_before_entry, fails_before_making, keeps_c_and_m, make_then_enter, c_type, constructor_lets_make, keeps_b_constructor, override_is_entered, keeps_r_of_c};
ghost use Rattle.dalvik_defs.specs.Known.{arithmetic_exception, out_of_bounds, initialiser_error, no_class, class_change, bad_store, bad_monitor};
ghost use Rattle.dalvik_defs.specs.Names.{object_type};
ghost use Rattle.dalvik_defs.specs.Step.{shows};
ghost use Rattle.dalvik_defs.specs.declared.script.Given.TheVariants as given;
ghost use Rattle.dalvik_defs.specs.declared.script.Move.TheVariants as move;
ghost use Rattle.dalvik_defs.specs.declared.events.Event.TheVariants as event;
ghost use Rattle.dalvik_defs.specs.declared.events.Shown.TheVariants as shown;

/// A method that returns 2 shows its result.
pub fn a_result_is_shown()
    ensures { trace answers_two to_int (enter_m (codes "()I") [] ∷ []) 6
        ≡ event.Result (Some (shown.Word 2)) ∷ [] }
{}

/// A division by 0 throws.
pub fn a_division_by_zero_throws()
    ensures { trace divides_by_zero to_int (enter_m (codes "()I") [] ∷ []) 8
        ≡ event.Uncaught (shown.First 0 arithmetic_exception) ∷ [] }
{}

/// The least number divided by -1 is the least number.
pub fn the_least_number_divided_wraps()
    ensures { trace divides_least to_int (enter_m (codes "()I") [] ∷ []) 8
        ≡ event.Result (Some (shown.Word 2147483648)) ∷ [] }
{}

/// A catch-all is entered where the framework throws, and isn't where it returns.
pub fn a_handler_is_entered()
    ensures thrown { trace catches int_to_int (enter_m (codes "(I)I") (given.Word 7 ∷ []) ∷ throws_runtime ∷ []) 9
        ≡ logged ∷ event.Result (Some (shown.Word 5)) ∷ [] }
    ensures returned { trace catches int_to_int (enter_m (codes "(I)I") (given.Word 7 ∷ []) ∷ move.Return None ∷ []) 9
        ≡ logged ∷ event.Result (Some (shown.Word 7)) ∷ [] }
{}

/// An item that the program puts into an array of the framework is read there, and its length.
pub fn an_item_is_put()
    ensures { trace puts_item takes_array
        (enter_m (codes "([I)V") (given.Array (codes "I") 2 ∷ []) ∷ move.ArrayGet (given.Exposed 0) 1 ∷ move.ArrayLength (given.Exposed 0) ∷ []) 9
        ≡ event.Result None ∷ event.Answer (shown.Word 5) ∷ event.Answer (shown.Word 2) ∷ [] }
{}

/// Putting an item past the end throws; the array has the first place of the exposed objects.
pub fn a_place_past_the_end_throws()
    ensures { trace puts_item takes_array (enter_m (codes "([I)V") (given.Array (codes "I") 1 ∷ []) ∷ []) 8
        ≡ event.Uncaught (shown.First 1 out_of_bounds) ∷ [] }
{}

/// Reading a static field runs the initialiser of its class first.
pub fn an_initialiser_runs_first()
    ensures { trace initialiser_logs void (enter_m (codes "()V") [] ∷ move.Return None ∷ []) 12
        ≡ logged ∷ event.Result None ∷ [] }
{}

/// What an initialiser throws is wrapped, and a class that failed isn't found again.
pub fn a_failed_initialiser_is_remembered()
    ensures { trace initialiser_fails void (enter_m (codes "()V") [] ∷ enter_m (codes "()V") [] ∷ []) 14
        ≡ event.Uncaught (shown.First 0 initialiser_error) ∷ event.Uncaught (shown.First 1 no_class) ∷ [] }
{}

/// An interface call finds the method of the receiver's class, and the constructor of Object shows nothing.
pub fn an_interface_call_finds_the_class_method()
    ensures { trace class_has_r void (enter_m (codes "()V") [] ∷ move.Return None ∷ []) 16
        ≡ logged ∷ event.Result None ∷ [] }
{}

/// In version 037 an interface call finds the method of an interface.
pub fn a_default_method_is_found()
    ensures { trace (interface_has_r V037) void (enter_m (codes "()V") [] ∷ move.Return None ∷ []) 18
        ≡ logged ∷ event.Result None ∷ [] }
{}

/// In version 035 it doesn't, and the call belongs to the framework.
pub fn a_default_method_of_035_is_not_found()
    ensures { trace (interface_has_r V035) void (enter_m (codes "()V") [] ∷ move.Return None ∷ []) 16
        ≡ event.Call call.Interface i_type (codes "r") (codes "()V") (shown.First 0 b_type ∷ []) ∷ event.Result None ∷ [] }
{}

/// Methods of two interfaces, neither under the other, clash.
pub fn default_methods_clash()
    ensures { trace interfaces_clash void (enter_m (codes "()V") [] ∷ []) 20
        ≡ event.Uncaught (shown.First 0 class_change) ∷ [] }
{}

/// A silent call shows itself, and nothing once it is a nop.
pub fn a_silent_call_is_dropped()
    ensures before { trace only_logs void (enter_m (codes "()V") [] ∷ []) 6 ≡ logged ∷ [] }
    ensures silenced { trace without_logs void (enter_m (codes "()V") [] ∷ []) 6 ≡ event.Result None ∷ [] }
{}

/// A long stands in two registers, and is shown as one number.
pub fn longs_are_added()
    ensures { trace adds_long long_to_long (enter_m (codes "(J)J") (given.Wide 5 ∷ []) ∷ []) 8
        ≡ event.Result (Some (shown.Wide 6)) ∷ [] }
{}

/// Float arithmetic answers by its table, and 0 where there is no row.
pub fn floats_are_answered_by_the_table()
    ensures found { shows negates (keeps_m float_to_float) (record { rows = [] }) negates_one (enter_m (codes "(F)F") (given.Word 1065353216 ∷ []) ∷ []) 6
        ≡ event.Result (Some (shown.Word 3212836864)) ∷ [] }
    ensures missing { trace negates float_to_float (enter_m (codes "(F)F") (given.Word 1065353216 ∷ []) ∷ []) 6
        ≡ event.Result (Some (shown.Word 0)) ∷ [] }
{}

/// A field of the framework is read by it, which answers as it answers a call.
pub fn a_framework_field_is_answered()
    ensures { trace reads_framework to_int (enter_m (codes "()I") [] ∷ move.Return (Some (given.Word 9)) ∷ []) 8
        ≡ event.Get (codes "LLog;") (codes "y") (codes "I") None ∷ event.Result (Some (shown.Word 9)) ∷ [] }
{}

/// A superclass is initialised first, and where it fails the class fails with the same object.
pub fn a_failed_superclass_fails_the_class()
    ensures { trace superclass_fails void (enter_m (codes "()V") [] ∷ enter_m (codes "()V") [] ∷ []) 14
        ≡ event.Uncaught (shown.First 0 initialiser_error) ∷ event.Uncaught (shown.First 1 no_class) ∷ [] }
{}

/// In version 037 an interface that has a method with code is initialised before a class that implements it.
pub fn an_interface_is_initialised_first()
    ensures of_037 { trace (interface_starts V037) void (enter_m (codes "()V") [] ∷ move.Return None ∷ []) 16
        ≡ logged ∷ event.Result None ∷ [] }
    ensures of_035 { trace (interface_starts V035) void (enter_m (codes "()V") [] ∷ move.Return None ∷ []) 16
        ≡ event.Result None ∷ [] }
{}

/// An array of arrays is an array of objects.
pub fn arrays_are_objects()
    ensures { trace tests_array to_int (enter_m (codes "()I") [] ∷ []) 8
        ≡ event.Result (Some (shown.Word 1)) ∷ [] }
{}

/// A text doesn't fit into an array of another class.
pub fn a_bad_store_throws()
    ensures { trace stores_badly void (enter_m (codes "()V") [] ∷ []) 10
        ≡ event.Uncaught (shown.First 0 bad_store) ∷ [] }
{}

/// A monitor is shown when it is entered and left, and can't be left once more.
pub fn a_monitor_is_left_once()
    ensures { trace leaves_twice void (enter_m (codes "()V") [] ∷ []) 9
        ≡ event.Lock (shown.Class a_type) ∷ event.Unlock (shown.Class a_type) ∷ event.Uncaught (shown.First 0 bad_monitor) ∷ [] }
{}

/// The framework calls back a method that isn't kept where a class of its own stands above the object's class, and else not.
pub fn the_framework_calls_back()
    ensures under_a_view { shows (called_back (codes "LView;")) keeps_b (record { rows = [] }) (record { rows = [] }) make_and_call 9
        ≡ event.Make (shown.First 0 b_type) ∷ logged ∷ event.Result None ∷ [] }
    ensures under_object { shows (called_back object_type) keeps_b (record { rows = [] }) (record { rows = [] }) make_and_call 9
        ≡ event.Make (shown.First 0 b_type) ∷ [] }
{}

/// The keys of a packed switch wrap.
pub fn the_keys_of_a_switch_wrap()
    ensures { trace switches to_int (enter_m (codes "()I") [] ∷ []) 9
        ≡ event.Result (Some (shown.Word 2)) ∷ [] }
{}

/// A class is initialised before its static method is entered. Meanwhile the framework answers what the initialiser
/// asks, and the entry comes after it.
pub fn an_entry_waits_for_its_class()
    ensures { trace initialised_before_entry to_int (enter_m (codes "()I") [] ∷ move.Return None ∷ []) 14
        ≡ logged ∷ event.Result (Some (shown.Word 5)) ∷ [] }
{}

/// Where the initialiser fails, the move that needed the class is over, and the moves behind it are made.
pub fn a_move_is_over_where_its_class_fails()
    ensures { shows fails_before_making keeps_c_and_m (record { rows = [] }) (record { rows = [] }) make_then_enter 14
        ≡ logged ∷ event.Uncaught (shown.First 0 initialiser_error) ∷ event.Result (Some (shown.Word 2)) ∷ [] }
{}

/// A class with a kept constructor may be made.
pub fn a_kept_constructor_lets_make()
    ensures { shows constructor_lets_make keeps_b_constructor (record { rows = [] }) (record { rows = [] }) (move.Make b_type ∷ []) 4
        ≡ event.Make (shown.First 0 b_type) ∷ [] }
{}

/// What overrides a kept method is entered in its place.
pub fn an_override_of_a_kept_method_is_entered()
    ensures { shows override_is_entered keeps_r_of_c (record { rows = [] }) (record { rows = [] }) make_and_call 11
        ≡ event.Make (shown.First 0 b_type) ∷ logged ∷ event.Result None ∷ [] }
{}
