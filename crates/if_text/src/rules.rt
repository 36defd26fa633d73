//! Rules with a condition as they are read.

use crate::parts::Part;
use crate::slots::Source;
use rule_text::{ClassRule, Rules};

/// A condition, and the words of the keep rule that holds where it is met. `slots` says for each wildcard of the condition what a reference
/// with its number names.
#[derive(Drop)]
pub struct IfRule {
    pub condition: ClassRule,
    pub slots: Vec<Source>,
    pub words: Vec<Vec<Part>>,
}

/// The rules and options of a text that have no condition, and the rules that have one, each in the order of the text.
#[derive(Drop)]
pub struct IfRules {
    pub plain: Rules,
    pub ifs: Vec<IfRule>,
}
