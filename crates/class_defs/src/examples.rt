//! Examples: what the definitions say of small links.

ghost use Rattle.std.specs.Prelude.{◌≡◌, Some, None, [], ◌∷◌, nat_eq, if◌then◌else◌};
ghost use Rattle.class_defs.specs.Places.{chain_from};

/// A chain begins with its class and goes on by the link.
pub fn a_chain_begins_with_its_class()
    ensures { chain_from (λ c. if nat_eq c 0 then Some 1 else None) 3 (Some 0) ≡ 0 ∷ 1 ∷ [] }
{}
