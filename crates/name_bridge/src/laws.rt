//! What numbers and names have to do with each other.

ghost use Rattle.std.specs.Prelude.{◌≡◌, ◌<◌, ℕ, length, true, Some, find, slice_get, option_and_then};
ghost use Rattle.class_defs.specs.Places.{chain_of, is_under};
ghost use Rattle.dalvik_defs.specs.Find as name;
ghost use Rattle.dalvik_defs.specs.Under.{is_own_under};
ghost use Rattle.name_bridge.specs.Named.{classes_at, found_at};
ghost use Rattle.class_defs.specs.Finding.{first_among};
ghost use Rattle.class_defs.specs.Members.{own_method, own_virtual};
ghost use Rattle.std.specs.Prelude.{List, map};
ghost use Rattle.std.specs.List.{list_all};
ghost use Rattle.program_model.specs.Texts.{has_type};
ghost use Rattle.class_defs.specs.ClassGraph.{IsTwice};
ghost use Rattle.class_defs.specs.Places.{places_of};
ghost use Rattle.class_defs.specs.Finding.{finds_among, finds_at, finds_static, finds_super, resolves_method, search_of};
ghost use Rattle.dalvik_defs.specs.Names.{Text};
ghost use Rattle.name_bridge.specs.Named.{search_at, field_at_place};
ghost use Rattle.class_defs.specs.Finding.{resolves_field};
ghost use Rattle.class_defs.specs.Starts.{initialiser_of, is_trivial};
ghost use Rattle.dalvik_defs.specs.Initialised as first;
ghost use Rattle.program_model.specs.Lookups as look;
ghost use Rattle.std.specs.List.{list_any};
ghost use Rattle.class_defs.specs.Nearest.{nearest_place};
ghost use Rattle.dalvik_defs.specs.Names.{text_eq};
ghost use Rattle.name_bridge.specs.Named.{name_at};
ghost use Rattle.dalvik_defs.specs.Initialised.{initialiser_key};
ghost use Rattle.dalvik_defs.specs.Find.{first_method, is_virtual_method};
ghost use Rattle.std.specs.Option.{option_map};
ghost use Rattle.program_model.specs.declared.program.Class.{Class};
ghost use Rattle.program_model.specs.Lookups.{class_place};
ghost use Rattle.class_defs.specs.Members.{is_method, is_field};
ghost use Rattle.dalvik_defs.specs.Under.{class_named};
ghost use Rattle.dalvik_defs.specs.Find.{method_in, field_in};
ghost use Rattle.name_bridge.specs.Named.{class_at};
ghost use Rattle.program_model.specs.ProgramRules.{is_well_formed};
ghost use Rattle.program_model.specs.declared.program.Program.{Program};
ghost use Rattle.dalvik_defs.specs.Naming.{text_at, type_at, signature_at, field_at, method_at, named_class, named_field, named_method, named};

/// No two numbers of a table of a well-formed program have one name.
pub fn tables_law()
    ensures texts { (p : Program) (i j : ℕ) → is_well_formed p ≡ true → i < length p.strings → j < length p.strings → text_at p i ≡ text_at p j → i ≡ j }
    ensures types { (p : Program) (i j : ℕ) → is_well_formed p ≡ true → i < length p.types → j < length p.types → type_at p i ≡ type_at p j → i ≡ j }
    ensures signatures { (p : Program) (i j : ℕ) → is_well_formed p ≡ true → i < length p.protos → j < length p.protos → signature_at p i ≡ signature_at p j → i ≡ j }
    ensures fields { (p : Program) (i j : ℕ) → is_well_formed p ≡ true → i < length p.fields → j < length p.fields → field_at p i ≡ field_at p j → i ≡ j }
    ensures methods { (p : Program) (i j : ℕ) → is_well_formed p ≡ true → i < length p.methods → j < length p.methods → method_at p i ≡ method_at p j → i ≡ j }
{}

/// The class of a type, and the members of a class, by number are those by name.
pub fn classes_law()
    ensures classes { (p : Program) (k : ℕ) → is_well_formed p ≡ true → k < length p.types → class_named (named p) (type_at p k) ≡ option_and_then (class_at p) (class_place p k) }
    ensures methods { (p : Program) (i : ℕ) (c : Class) (n q : ℕ) → is_well_formed p ≡ true → slice_get p.classes i ≡ Some c → n < length p.strings → q < length p.protos
        → method_in (named_class p c) (text_at p n) (signature_at p q) ≡ option_map (named_method p) (find (is_method p n q) c.methods) }
    ensures fields { (p : Program) (i : ℕ) (c : Class) (n k : ℕ) → is_well_formed p ≡ true → slice_get p.classes i ≡ Some c → n < length p.strings → k < length p.types
        → field_in (named_class p c) (text_at p n) (type_at p k) ≡ option_map (named_field p) (find (is_field p n k) c.fields) }
{}

/// What stands above a class by number is what stands above it by name: its superclasses, and all that it is under.
pub fn above_law()
    ensures chain { (p : Program) (k : ℕ) → is_well_formed p ≡ true → k < length p.types → name.chain_of (named p) (type_at p k) ≡ classes_at p (chain_of p (class_place p k)) }
    ensures under { (p : Program) (u b c d : ℕ) → is_well_formed p ≡ true → u < length p.types → b < length p.types → class_place p u ≡ Some c → class_place p b ≡ Some d
        → is_own_under (named p) (type_at p u) (type_at p b) ≡ is_under p c d }
{}

/// The first method and the first virtual method of a name and a proto along some classes by number are those by name.
pub fn first_law()
    ensures methods { (p : Program) (n q : ℕ) (cs : List ℕ) → is_well_formed p ≡ true → n < length p.strings → q < length p.protos
        → first_method (λ m. true) (text_at p n) (signature_at p q) (classes_at p cs) ≡ option_and_then (found_at p) (first_among (own_method p n q) cs) }
    ensures virtuals { (p : Program) (n q : ℕ) (cs : List ℕ) → is_well_formed p ≡ true → n < length p.strings → q < length p.protos
        → first_method is_virtual_method (text_at p n) (signature_at p q) (classes_at p cs) ≡ option_and_then (found_at p) (first_among (own_virtual p n q) cs) }
{}

/// What a virtual or interface call finds at a receiver of a program class, and what the candidates of interfaces give, by
/// number is that by name, where no class is defined twice.
pub fn finding_law()
    ensures among { (p : Program) (n q : ℕ) (ks : List ℕ) → is_well_formed p ≡ true → ((class : ℕ) → IsTwice p class → ⊥) → n < length p.strings → q < length p.protos → list_all (has_type p) ks ≡ true
        → name.finds_among (named p) (map (type_at p) ks) (text_at p n) (signature_at p q) ≡ search_at p (finds_among p (places_of p ks) n q) }
    ensures receivers { (p : Program) (n q r c : ℕ) (t : Text) → is_well_formed p ≡ true → ((class : ℕ) → IsTwice p class → ⊥) → n < length p.strings → q < length p.protos → r < length p.types → class_place p r ≡ Some c
        → name.finds_at (named p) (type_at p r) (record { class = t; name = text_at p n; signature = signature_at p q }) ≡ search_at p (finds_at p c n q) }
{}

/// What the name of a method resolves to, and what static, direct and super calls find, by number is that by name.
pub fn calls_law()
    ensures resolves { (p : Program) (m : ℕ) → is_well_formed p ≡ true → m < length p.methods → name.resolves_method (named p) (method_at p m) ≡ option_and_then (found_at p) (resolves_method p m) }
    ensures statically { (p : Program) (m : ℕ) → is_well_formed p ≡ true → m < length p.methods → name.finds_statically (named p) (method_at p m) ≡ search_at p (search_of (finds_static p m)) }
    ensures above { (p : Program) (r c m : ℕ) (k : Class) → is_well_formed p ≡ true → ((class : ℕ) → IsTwice p class → ⊥) → r < length p.types → class_place p r ≡ Some c → slice_get p.classes c ≡ Some k
        → m < length p.methods → name.finds_super (named p) (type_at p r) (method_at p m) ≡ search_at p (finds_super p c m) }
{}

/// What the name of a field resolves to by number is that by name.
pub fn fields_law()
    ensures { (p : Program) (f : ℕ) → is_well_formed p ≡ true → f < length p.fields → name.finds_field (named p) (field_at p f) ≡ option_and_then (field_at_place p) (resolves_field p f) }
{}

/// The initialiser of a class, and whether initialising a class runs nothing, by number are those by name.
pub fn starts_law()
    ensures initialisers { (p : Program) (k : Class) → first.initialiser_in (named_class p k) ≡ option_map (λ i. initialiser_key (type_at p k.name)) (initialiser_of p (Some k)) }
    ensures trivial { (p : Program) (t c : ℕ) → is_well_formed p ≡ true → ((class : ℕ) → IsTwice p class → ⊥) → t < length p.types → class_place p t ≡ Some c
        → first.is_trivial (named p) (type_at p t) ≡ is_trivial p c }
{}

/// The method that a class itself defines under a number is that by name, where no class is defined twice.
pub fn defined_law()
    ensures { (p : Program) (m : ℕ) → is_well_formed p ≡ true → ((class : ℕ) → IsTwice p class → ⊥) → m < length p.methods
        → name.defined_method (named p) (method_at p m) ≡ option_map (named_method p) (option_and_then (look.method_at p) (look.method_place p m)) }
{}

/// The nearest common program superclass of two types by number is that by name, where no class is defined twice.
pub fn nearest_law()
    ensures { (p : Program) (t u : ℕ) → is_well_formed p ≡ true → ((class : ℕ) → IsTwice p class → ⊥) → t < length p.types → u < length p.types
        → option_map (λ c. c.name) (find (λ c. list_any (λ d. text_eq c.name d.name) (name.chain_of (named p) (type_at p u))) (name.chain_of (named p) (type_at p t)))
        ≡ option_and_then (name_at p) (nearest_place p (class_place p t) (class_place p u)) }
{}
