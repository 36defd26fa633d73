//! The grammar of rules.

use program_text::Answer;
use rule_text::{RuleFault, read_rules};

/// The fault of a text of bytes, `rules` for one that has none.
fn fault_of(answer: &mut Answer, text: &[u8]) {
    if text.len() > 1_000_000 {
        answer.refuse();
        return;
    }
    match read_rules(answer.alloc(), text) {
        Ok(_) => answer.say("rules"),
        Err(RuleFault::NoMemory) => answer.note(true),
        Err(fault) => answer.say_value(&fault),
    }
}

/// The fault of a text in which `|` ends a line.
pub fn fault(answer: &mut Answer, text: &str) {
    let bytes = answer.lines(text);
    fault_of(answer, bytes.as_slice());
}

/// The fault of a text in hexadecimal digits.
pub fn fault_in_bytes(answer: &mut Answer, digits: &str) {
    let bytes = answer.bytes(digits);
    fault_of(answer, bytes.as_slice());
}

/// The fault of so many rules with a text behind them.
pub fn many(answer: &mut Answer, line: &str) {
    let (count, text) = line.split_once(' ').unwrap_or((line, ""));
    let mut rules = Answer::new(answer.alloc());
    rules.say("-assumenosideeffects class B { }");
    for _ in 1..answer.number(count) {
        rules.say("-keep class A\n");
    }
    rules.say(text);
    answer.note(rules.lacks_memory());
    fault_of(answer, rules.text().as_bytes());
}
