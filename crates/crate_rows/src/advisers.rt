//! Advisers and panels.

use program_text::Answer;
use redex_outside::{Adviser, Ask, BudgetAdviser, Key, Panel, PrefixAdviser};
use std::alloc::{AllocError, Global};

/// Whether the method `m()I` of two instructions of this class may be rewritten.
fn ask_about(answer: &mut Answer, class: &str) -> Ask {
    Ask {
        class: answer.text_of(class),
        name: answer.text_of("m"),
        proto: answer.text_of("()I"),
        instructions: 2,
        site: None,
    }
}

fn word(is_yes: bool) -> &'static str {
    if is_yes { "yes" } else { "no" }
}

/// What an adviser with a budget says of these classes: the line has the budget first.
pub fn budget(answer: &mut Answer, line: &str) {
    let mut words = line.split(' ');
    let most = answer.number(words.next().unwrap_or(""));
    let mut adviser = BudgetAdviser::new();
    let told = adviser.tell(answer.alloc(), Key::AtMost, most, "");
    answer.note(told.is_err());
    for class in words {
        let ask = ask_about(answer, class);
        answer.list(word(adviser.weigh(&ask)));
    }
}

/// Tells an adviser that spares what it spares, and what it ignores.
fn tell_prefixes(alloc: Global, adviser: &mut PrefixAdviser) -> Result<(), AllocError> {
    adviser.tell(alloc, Key::Spare, 0, "Lapp/")?;
    adviser.tell(alloc, Key::Spare, 0, "L\u{10000}")?;
    adviser.tell(alloc, Key::AtMost, 0, "LA;")
}

/// What an adviser says of a class that spares what begins with `Lapp/` or with `L` and the character 10000.
pub fn prefixes(answer: &mut Answer, class: &str) {
    let alloc = answer.alloc();
    let mut adviser = PrefixAdviser::new(alloc);
    let told = tell_prefixes(alloc, &mut adviser);
    answer.note(told.is_err());
    let ask = ask_about(answer, class);
    answer.say(word(adviser.weigh(&ask)));
}

/// An adviser in a box.
fn boxed<A: Drop>(answer: &mut Answer, adviser: A) -> Option<Box<A>> {
    match Box::new(answer.alloc(), adviser) {
        Ok(boxed) => Some(boxed),
        Err(_) => {
            answer.note(true);
            None
        }
    }
}

/// Adds what a panel says of these classes, and what each of its advisers answered: the line has the prefix that is spared
/// and the budget first.
fn say_panel(answer: &mut Answer, panel: &mut Panel, line: &str) {
    let alloc = answer.alloc();
    let mut words = line.split(' ');
    let told = panel.tell(alloc, Key::Spare, 0, words.next().unwrap_or(""));
    answer.note(told.is_err());
    let most = answer.number(words.next().unwrap_or(""));
    let told = panel.tell(alloc, Key::AtMost, most, "");
    answer.note(told.is_err());
    for class in words {
        let ask = ask_about(answer, class);
        let is_yes = panel.ask(alloc, &ask);
        answer.note(is_yes.is_err());
        answer.list(word(is_yes.unwrap_or(false)));
    }
    answer.list("answers");
    for one in panel.answers.as_slice() {
        answer.list(word(*one));
    }
}

/// What a panel of an adviser that spares and one with a budget says.
pub fn panel(answer: &mut Answer, line: &str) {
    let alloc = answer.alloc();
    let mut advisers: Vec<Box<dyn Adviser>> = Vec::new(alloc);
    if let Some(adviser) = boxed(answer, PrefixAdviser::new(alloc)) {
        answer.note(advisers.push(adviser).is_err());
    }
    if let Some(adviser) = boxed(answer, BudgetAdviser::new()) {
        answer.note(advisers.push(adviser).is_err());
    }
    let mut panel = Panel::new(alloc, advisers);
    say_panel(answer, &mut panel, line);
}
