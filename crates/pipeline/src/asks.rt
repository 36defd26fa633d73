//! The asks about methods.

ghost use Rattle.std.specs.Prelude.{◌≡◌, ◌∷◌, [], length, map, IfOk, OnOk, OnErr};
ghost use Rattle.redex_outside.specs.Turns.{Weighed};
ghost use Rattle.redex_outside.specs.Panels.{HasRun};
ghost use Rattle.pipeline.specs.Asks.{ask_of, is_asked, asked_one, asked_in, asked, judged, no_verdict, AreAnswered};
ghost use Rattle.pipeline.specs.Advised.{verdict};
ghost use Rattle.pipeline.specs.Counts.{counted, method_insns};
ghost use Rattle.pipeline.specs.Replies.{ask_about, turns_one, turns_in, turns_about, HaveTaken, AreFirstOf};

use crate::marks::is_on;
use crate::texts::{name_text, signature_text, type_text};
use call_graph::LiveSet;
use program_model::{Admitted, Class, Method, Program};
use redex_outside::{Adviser, Ask, Panel};
use std::alloc::{AllocError, Global};

/// What the advisers said: which methods may be rewritten, and how many of those that were asked about may not.
#[derive(Drop)]
pub struct Advice {
    pub admitted: Admitted,
    pub spared: u32,
}

/// The ask about a method of a class with so many instructions.
fn ask_of(
    alloc: Global,
    program: &Program,
    class: u32,
    method: u32,
    instructions: u32,
) -> Result<Ask, AllocError>
    ensures { IfOk result (λ ask. ask ≡ ask_of program.now class method instructions) }
{
    Ok(Ask {
        class: type_text(alloc, program, class)?,
        name: name_text(alloc, program, method)?,
        proto: signature_text(alloc, program, method)?,
        instructions,
        site: None,
    })
}

/// Whether a method is asked about: it is live and has code.
fn is_asked(live: &LiveSet, method: &Method) -> bool
    ensures { result ≡ is_asked live.now method.now }
{
    method.body.is_some() && is_on(live.methods.as_slice(), method.name)
}

/// How many instructions a method has, none where it has no code. The greatest number of 32 bits stands for all above it.
fn instructions_of(method: &Method) -> u32
    ensures { result ≡ counted (method_insns method.now) }
{
    match &method.body {
        Some(body) => u32::try_from(body.insns.len()).unwrap_or(u32::MAX),
        None => 0,
    }
}

/// Notes whether every adviser allowed that a method is rewritten.
fn judge(advice: &mut Advice, method: u32, admitted: bool)
    ensures { verdict advice.new ≡ judged method admitted (verdict advice.old) }
{
    if admitted {
        if let Some(mark) = advice.admitted.methods.get_mut(method as usize) {
            *mark = true;
        }
    } else {
        advice.spared = advice.spared.saturating_add(1);
    }
}

/// The ask about a method of a class: its names, and how many instructions it has.
fn ask_about(
    alloc: Global,
    program: &Program,
    class: &Class,
    method: &Method,
) -> Result<Ask, AllocError>
    ensures { IfOk result (λ ask. ask ≡ ask_about program.now class.now method.now) }
{
    let instructions = instructions_of(method);
    ask_of(alloc, program, class.name, method.name, instructions)
}

/// Asks about one method, and notes the answer.
fn ask_one(
    alloc: Global,
    program: &Program,
    class: &Class,
    method: &Method,
    panel: &mut Panel,
    advice: &mut Advice,
) -> Result<(), AllocError>
    ensures answered { OnOk result (AreAnswered (length panel.old.advisers.items) (method.now.name ∷ []) panel.old.answers.items panel.new.answers.items (verdict advice.old) (verdict advice.new)) }
    ensures count { length panel.new.advisers.items ≡ length panel.old.advisers.items }
    ensures run { OnOk result (HasRun (Weighed (ask_about program.now class.now method.now) ∷ [])
        (map (λ b. (⟦<dyn Adviser as Adviser>⟧ b.vtable).replies b.value) panel.old.advisers.items)
        (map (λ b. (⟦<dyn Adviser as Adviser>⟧ b.vtable).replies b.value) panel.new.advisers.items)
        panel.old.answers.items panel.new.answers.items) }
    ensures begun { OnErr result (HasRun []
        (map (λ b. (⟦<dyn Adviser as Adviser>⟧ b.vtable).replies b.value) panel.old.advisers.items)
        (map (λ b. (⟦<dyn Adviser as Adviser>⟧ b.vtable).replies b.value) panel.new.advisers.items)
        panel.old.answers.items panel.new.answers.items) }
{
    let ask = ask_about(alloc, program, class, method)?;
    let admitted = panel.ask(alloc, &ask)?;
    judge(advice, method.name, admitted);
    Ok(())
}

/// Asks about one method, where it is live and has code, and notes the answer.
fn ask_live(
    alloc: Global,
    program: &Program,
    live: &LiveSet,
    class: &Class,
    method: &Method,
    panel: &mut Panel,
    advice: &mut Advice,
) -> Result<(), AllocError>
    ensures answered { OnOk result (AreAnswered (length panel.old.advisers.items) (asked_one live.now method.now) panel.old.answers.items panel.new.answers.items (verdict advice.old) (verdict advice.new)) }
    ensures count { length panel.new.advisers.items ≡ length panel.old.advisers.items }
    ensures run { OnOk result (HasRun (turns_one live.now program.now class.now method.now)
        (map (λ b. (⟦<dyn Adviser as Adviser>⟧ b.vtable).replies b.value) panel.old.advisers.items)
        (map (λ b. (⟦<dyn Adviser as Adviser>⟧ b.vtable).replies b.value) panel.new.advisers.items)
        panel.old.answers.items panel.new.answers.items) }
    ensures begun { OnErr result (HasRun []
        (map (λ b. (⟦<dyn Adviser as Adviser>⟧ b.vtable).replies b.value) panel.old.advisers.items)
        (map (λ b. (⟦<dyn Adviser as Adviser>⟧ b.vtable).replies b.value) panel.new.advisers.items)
        panel.old.answers.items panel.new.answers.items) }
{
    if is_asked(live, method) {
        ask_one(alloc, program, class, method, panel, advice)?;
    }
    Ok(())
}

/// Asks about the methods of one class.
fn ask_class(
    alloc: Global,
    program: &Program,
    live: &LiveSet,
    class: &Class,
    panel: &mut Panel,
    advice: &mut Advice,
) -> Result<(), AllocError>
    ensures answered { OnOk result (AreAnswered (length panel.old.advisers.items) (asked_in live.now class.now) panel.old.answers.items panel.new.answers.items (verdict advice.old) (verdict advice.new)) }
    ensures count { length panel.new.advisers.items ≡ length panel.old.advisers.items }
    ensures run { OnOk result (HasRun (turns_in live.now program.now class.now)
        (map (λ b. (⟦<dyn Adviser as Adviser>⟧ b.vtable).replies b.value) panel.old.advisers.items)
        (map (λ b. (⟦<dyn Adviser as Adviser>⟧ b.vtable).replies b.value) panel.new.advisers.items)
        panel.old.answers.items panel.new.answers.items) }
    ensures begun { OnErr result (HaveTaken (AreFirstOf (turns_in live.now program.now class.now))
        (map (λ b. (⟦<dyn Adviser as Adviser>⟧ b.vtable).replies b.value) panel.old.advisers.items)
        (map (λ b. (⟦<dyn Adviser as Adviser>⟧ b.vtable).replies b.value) panel.new.advisers.items)
        panel.old.answers.items panel.new.answers.items) }
{
    for method in class.methods.as_slice() {
        ask_live(alloc, program, live, class, method, panel, advice)?;
    }
    Ok(())
}

/// No method admitted, and none asked about.
pub fn no_advice(alloc: Global, program: &Program) -> Result<Advice, AllocError>
    ensures { IfOk result (λ advice. verdict advice ≡ no_verdict program.now) }
{
    Ok(Advice {
        admitted: Admitted {
            methods: vec![in alloc; false; program.methods.len()]?,
        },
        spared: 0,
    })
}

/// Asks about each live method with code, in class and method order. A method is admitted where every adviser says
/// yes.
pub fn ask_all(
    alloc: Global,
    program: &Program,
    live: &LiveSet,
    panel: &mut Panel,
) -> Result<Advice, AllocError>
    ensures answered { IfOk result (λ advice. AreAnswered (length panel.old.advisers.items) (asked live.now program.now) panel.old.answers.items panel.new.answers.items (no_verdict program.now) (verdict advice)) }
    ensures count { IfOk result (λ advice. length panel.new.advisers.items ≡ length panel.old.advisers.items) }
    ensures run { OnOk result (HasRun (turns_about live.now program.now)
        (map (λ b. (⟦<dyn Adviser as Adviser>⟧ b.vtable).replies b.value) panel.old.advisers.items)
        (map (λ b. (⟦<dyn Adviser as Adviser>⟧ b.vtable).replies b.value) panel.new.advisers.items)
        panel.old.answers.items panel.new.answers.items) }
    ensures begun { OnErr result (HaveTaken (AreFirstOf (turns_about live.now program.now))
        (map (λ b. (⟦<dyn Adviser as Adviser>⟧ b.vtable).replies b.value) panel.old.advisers.items)
        (map (λ b. (⟦<dyn Adviser as Adviser>⟧ b.vtable).replies b.value) panel.new.advisers.items)
        panel.old.answers.items panel.new.answers.items) }
{
    let mut advice = no_advice(alloc, program)?;
    for class in program.classes.as_slice() {
        ask_class(alloc, program, live, class, panel, &mut advice)?;
    }
    Ok(advice)
}
