//! The asks about sites.

ghost use Rattle.std.specs.Prelude.{◌≡◌, length, map, IfOk, OnErr};
ghost use Rattle.redex_outside.specs.Panels.{AskedAll};
ghost use Rattle.inline_calls.specs.Accepting.{ask_of, IsAsked};
ghost use Rattle.inline_calls.specs.Asked.{Asks, NoAsks};

use crate::found::word;
use crate::site::Caller;
use crate::texts::{name_units, signature_text, type_units};
use dex_base::Text;
use program_model::Program;
use redex_outside::{Adviser, Ask, Panel};
use splice::Callee;
use std::alloc::{AllocError, Global};

/// The ask about a site: the caller's names, the position, and how many instructions the method has that is called there.
fn ask_of(
    alloc: Global,
    program: &Program,
    caller: Caller<'_>,
    position: usize,
    callee: Callee<'_>,
) -> Result<Ask, AllocError>
    ensures { IfOk result (λ ask. ask ≡ ask_of program.now caller.entry position callee.entry) }
{
    Ok(Ask {
        class: Text::from_units(alloc, type_units(program, caller.class.name))?,
        name: Text::from_units(alloc, name_units(program, caller.method.name))?,
        proto: signature_text(alloc, program, caller.method.name)?,
        instructions: word(callee.body.insns.len()),
        site: Some(word(position)),
    })
}

/// Asks about a site, and answers whether every adviser says yes.
pub fn ask_about(
    alloc: Global,
    program: &Program,
    caller: Caller<'_>,
    position: usize,
    callee: Callee<'_>,
    panel: &mut Panel,
) -> Result<bool, AllocError>
    ensures asked { IfOk result (λ yes.
        Asks (map (λ b. (⟦<dyn Adviser as Adviser>⟧ b.vtable).replies b.value) panel.old.advisers.items)
        (map (λ b. (⟦<dyn Adviser as Adviser>⟧ b.vtable).replies b.value) panel.new.advisers.items)
        panel.old.answers.items panel.new.answers.items (IsAsked program.now caller.entry position callee.entry yes)) }
    ensures unasked { OnErr result (
        Asks (map (λ b. (⟦<dyn Adviser as Adviser>⟧ b.vtable).replies b.value) panel.old.advisers.items)
        (map (λ b. (⟦<dyn Adviser as Adviser>⟧ b.vtable).replies b.value) panel.new.advisers.items)
        panel.old.answers.items panel.new.answers.items NoAsks) }
{
    let ask = ask_of(alloc, program, caller, position, callee)?;
    let yes = panel.ask(alloc, &ask)?;
    Ok(yes)
}
