//! What rules with conditions keep of a program (ProGuard manual, "Keep options", -if): [`outside_of`] answers the table of the rules without a
//! condition and of the instances of those with one that hold. An instance is made for each class and, where a reference names a wildcard of a
//! line of members, each member that the condition matches; it holds where these are live by the table of the rules before it. Its text is the
//! keep rule's with what the wildcards matched in place of the references, and is read as any text of rules. The texts themselves are read by
//! `if_text`, whose calls this crate hands on.
#![tactic(auto)]

mod fill;
mod fire;
mod globs;
mod instances;
mod java;
mod live;
mod matching;
mod texts;

pub use fire::outside_of;
pub use if_text::{IfRules, RuleFault, read_rules};
