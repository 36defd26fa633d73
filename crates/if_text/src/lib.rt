//! Texts of keep rules some of which have a condition, `-if` (ProGuard manual, "Keep options"): [`read_rules`] reads the rules and options of
//! a text, those with a condition apart. In the words of a rule with a condition [`Part::Ref`] is a reference `<n>` to a wildcard of the
//! condition, and [`Source`] says which. Reading answers rules or a fault of the text with its line. The rules without a condition, and a
//! whole text of such, are read by `rule_text`.
#![tactic(auto)]

mod parts;
mod read;
mod rules;
mod slots;
mod tokens;

pub use parts::Part;
pub use read::read_rules;
pub use rule_text::RuleFault;
pub use rules::{IfRule, IfRules};
pub use slots::{Source, source_in};
