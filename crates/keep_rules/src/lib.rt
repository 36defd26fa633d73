//! What keep rules in ProGuard's language keep of a program: [`outside_of`] answers lists of numbers of the program's
//! tables, each ascending. The rules themselves are read by `rule_text`, whose calls this crate hands on. What a class
//! specification and its lines match stands open to `if_rules`, with the tables by which it is asked.
#![tactic(auto)]

mod above;
mod access;
mod assume;
mod describe;
mod fit;
mod keep;
mod marks;
mod members;
mod names;
mod outside;
mod tables;
mod view;

pub use above::classes_under;
pub use keep::{class_matches, is_under};
pub use members::{field_fits, method_fits};
pub use outside::outside_of;
pub use rule_text::{RuleFault, Rules, read_rules};
pub use tables::view_of;
pub use view::{View, class_at};
