//! Laws of what a text of keep rules spells, and of its fault.

ghost use Rattle.std.specs.Prelude.{◌≡◌, ℕ, List};
ghost use Rattle.rule_text.specs.Fault.{IsFault};
ghost use Rattle.rule_text.specs.Faults.{SpellsRules};
ghost use Rattle.rule_text.specs.Rules.{Entry};
ghost use Rattle.rule_text.specs.declared.fault.RuleFault.{RuleFault};
ghost use Rattle.rule_text.specs.declared.fault.RuleFault.TheVariants.{NoMemory};
ghost use Rattle.if_text.specs.Faults.{IsIfFault};
ghost use Rattle.if_text.specs.Items.{Item, SpellsItems};

/// A text that spells rules and options has no fault but want of memory, of which nothing is known: not without
/// conditions, and not with them.
pub fn one_outcome_law()
    ensures plain { (text : List ℕ) (entries : List Entry) → SpellsRules text entries
        → (fault : RuleFault) → (fault ≡ NoMemory → ⊥) → IsFault text fault → ⊥ }
    ensures all { (text : List ℕ) (items : List Item) → SpellsItems text items
        → (fault : RuleFault) → (fault ≡ NoMemory → ⊥) → IsIfFault text fault → ⊥ }
{}
