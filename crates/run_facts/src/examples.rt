//! Examples of the definitions, on the programs of `specs/Examples.antt`.

ghost use Rattle.std.specs.Prelude.{◌≡◌, map, [], ◌∷◌, Some, None};
ghost use Rattle.insn_set.specs.declared.ops.Test.TheVariants as test;
ghost use Rattle.insn_set.specs.declared.ops.BinaryOp.TheVariants as binary;
ghost use Rattle.insn_set.specs.declared.ops.Item.TheVariants as item;
ghost use Rattle.dalvik_defs.specs.Examples.{a_type, b_type};
ghost use Rattle.dalvik_defs.specs.declared.forms.Form.TheVariants as form;
ghost use Rattle.domains.specs.Values.{any_value, constant_value, objects_value};
ghost use Rattle.pass_defs.specs.Examples.{two_and_three};
ghost use Rattle.pass_defs.specs.Flat.{KnownWord};
ghost use Rattle.pass_defs.specs.FlatAnalysis.{flat_analysis};
ghost use Rattle.pass_defs.specs.PassExamples.{adds, knows_sum};
ghost use Rattle.run_facts.specs.Closed.{edges};
ghost use Rattle.run_facts.specs.Examples.{goes_to, goes_with};

/// A test of an object against null, and one of null, go one way; one of what may be either goes both.
pub fn a_test_of_an_object_goes_one_way()
    ensures object { goes_to (form.IfZero test.Eq 0 7) (objects_value None) ≡ 4 ∷ [] }
    ensures null { goes_to (form.IfZero test.Eq 0 7) (constant_value 0) ≡ 7 ∷ [] }
    ensures either { goes_to (form.IfZero test.Eq 0 7) any_value ≡ 4 ∷ 7 ∷ [] }
{}

/// A use of null doesn't go on, and behind a cast only objects under the type are left: LB; is, LA; isn't.
pub fn a_use_refines()
    ensures used { goes_to (form.MonitorEnter 0) (constant_value 0) ≡ [] }
    ensures cast { goes_with (form.CheckCast 0 b_type) (objects_value (Some (0 ∷ 1 ∷ []))) ≡ objects_value (Some (1 ∷ [])) ∷ [] }
    ensures cast_up { goes_with (form.CheckCast 0 a_type) (objects_value (Some (0 ∷ 1 ∷ []))) ≡ objects_value (Some (0 ∷ 1 ∷ [])) ∷ [] }
{}

/// A branch on known numbers goes one way, and a division by a known 0 goes nowhere.
pub fn known_branches_go_one_way()
    ensures taken { map (λ e. e.0) (edges flat_analysis adds knows_sum 3 (form.If test.Lt 0 1 7) two_and_three) ≡ 7 ∷ [] }
    ensures not_taken { map (λ e. e.0) (edges flat_analysis adds knows_sum 3 (form.IfZero test.Eq 0 7) two_and_three) ≡ 4 ∷ [] }
    ensures unknown { map (λ e. e.0) (edges flat_analysis adds knows_sum 3 (form.IfZero test.Eq 2 7) two_and_three) ≡ 4 ∷ 7 ∷ [] }
    ensures division { map (λ e. e.0) (edges flat_analysis adds knows_sum 3 (form.Binary binary.DivInt 2 0 1) (λ r. KnownWord 0)) ≡ [] }
{}
