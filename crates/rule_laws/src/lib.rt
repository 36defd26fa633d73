//! A text of keep rules that spells rules and options has no fault of rules: a law alone, on what `rule_text` and `if_text`
//! say of a text. Their readers answer what the text spells, or a fault that it has; no text has both. The function has an
//! empty body, and its contract is the law.
#![tactic(auto)]

pub mod laws;
