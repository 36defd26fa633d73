//! Examples: what the definitions say of small texts and programs.

ghost use Rattle.std.specs.Prelude.{◌≡◌, true, false, [], ◌∷◌, codes};
ghost use Rattle.dalvik_defs.specs.Names.{text_eq};
ghost use Rattle.rule_text.specs.Tokens.{words_of, last_line};
ghost use Rattle.rule_text.specs.Spelling.{spelled, is_entry};
ghost use Rattle.rule_defs.specs.Patterns.{class_name_fits, member_name_fits, type_fits};
ghost use Rattle.rule_defs.specs.Members.{matches_method};
ghost use Rattle.rule_defs.specs.Kept.{table_of, closed};
ghost use Rattle.rule_defs.specs.Examples.{keeps_x, keeps_enums, quiet_log, two_classes, b_type, b_field, mode_type, mode_method, values_signature, value_of_signature, values_line, declared, log_method};

/// Marks are words by themselves, and a comment ends with its line.
pub fn a_text_has_words()
    ensures words { words_of (codes "-keep class A{*;} # x") ≡ codes "-keep" ∷ codes "class" ∷ codes "A" ∷ codes "{" ∷ codes "*" ∷ codes ";" ∷ codes "}" ∷ [] }
    ensures line { last_line (codes "-keep class A {\n") ≡ 2 }
{}

/// A text spells a rule whose words are its words.
pub fn texts_spell_rules()
    ensures fields { words_of (codes "-keepclassmembers class B { int x; }") ≡ spelled (keeps_x ∷ []) }
    ensures methods { words_of (codes "-keepclassmembers enum * { public static **[] values();\n public static ** valueOf(java.lang.String); }") ≡ spelled (keeps_enums ∷ []) }
    ensures assumed { words_of (codes "-assumenosideeffects class Log { *; }") ≡ spelled (quiet_log ∷ []) }
{}

/// These rules can be written: the names are names, and no type is an access word.
pub fn rules_can_be_written()
    ensures fields { is_entry keeps_x ≡ true }
    ensures methods { is_entry keeps_enums ≡ true }
    ensures assumed { is_entry quiet_log ≡ true }
{}

/// A star doesn't pass a dot, and two do. A star alone matches every class.
pub fn stars_and_dots()
    ensures one { class_name_fits (codes "a.*") (codes "La/B;") ≡ true }
    ensures passed { class_name_fits (codes "a.*") (codes "La/b/C;") ≡ false }
    ensures two { class_name_fits (codes "a.**") (codes "La/b/C;") ≡ true }
    ensures all { class_name_fits (codes "*") (codes "La/b/C;") ≡ true }
    ensures inner { class_name_fits (codes "a.B$C") (codes "La/B$C;") ≡ true }
    ensures member { member_name_fits (codes "on?l*k") (codes "onClick") ≡ true }
    ensures short { member_name_fits (codes "on?k") (codes "onClick") ≡ false }
{}

/// A percent sign is any primitive type but void, brackets are an array, and wildcards match class types alone.
pub fn types_with_wildcards()
    ensures int { type_fits (codes "%") (codes "I") ≡ true }
    ensures nothing { type_fits (codes "%") (codes "V") ≡ false }
    ensures array { type_fits (codes "**[]") (codes "[La/B;") ≡ true }
    ensures item { type_fits (codes "**[]") (codes "[I") ≡ false }
    ensures any { type_fits (codes "***") (codes "[I") ≡ true }
    ensures name { type_fits (codes "boolean") (codes "Z") ≡ true }
{}

/// A field is kept where its class is live, and another isn't.
pub fn a_field_is_kept_where_its_class_is_live()
    ensures class { (table_of two_classes (keeps_x ∷ [])).classes b_type ≡ false }
    ensures live { (closed two_classes (table_of two_classes (keeps_x ∷ [])) (text_eq b_type)).fields (b_field (codes "x")) ≡ true }
    ensures other { (closed two_classes (table_of two_classes (keeps_x ∷ [])) (text_eq b_type)).fields (b_field (codes "y")) ≡ false }
    ensures dead { (closed two_classes (table_of two_classes (keeps_x ∷ [])) (text_eq mode_type)).fields (b_field (codes "x")) ≡ false }
{}

/// The `values` and `valueOf` of an enum match their lines, and a method that isn't public doesn't.
pub fn values_of_an_enum_match()
    ensures values { (table_of two_classes (keeps_enums ∷ [])).methods_if (mode_method (codes "values") values_signature) ≡ true }
    ensures value_of { (table_of two_classes (keeps_enums ∷ [])).methods_if (mode_method (codes "valueOf") value_of_signature) ≡ true }
    ensures other { (table_of two_classes (keeps_enums ∷ [])).methods_if (mode_method (codes "other") values_signature) ≡ false }
    ensures private { matches_method values_line (declared (codes "values") values_signature 10) ≡ false }
{}

/// A method of a class that the program doesn't define is assumed to do nothing.
pub fn a_method_is_assumed_to_do_nothing()
    ensures log { (table_of two_classes (quiet_log ∷ [])).silent log_method ≡ true }
    ensures own { (table_of two_classes (quiet_log ∷ [])).silent (mode_method (codes "values") values_signature) ≡ false }
{}
