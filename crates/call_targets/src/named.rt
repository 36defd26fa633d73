//! The methods that virtual and interface calls name.

ghost use Rattle.std.specs.Prelude.{◌≡◌, ◌≤◌, ◌++◌, ◌∷◌, [], ◌&&◌, nat_eq, nat_lt, ℕ, true, cond, slice_get, length, IfOk, OnOk};
ghost use Rattle.call_targets.specs.Called.{row_in, calls_on, AreSeen, NotesBy, IsThe, Makes, object_call, AmongInsns, InBody, AmongMethods, AmongClasses, AreNamed};
ghost use Rattle.call_targets.specs.Targeted.{interface_of};

use crate::kept::is_on;
use crate::looks::At;
use crate::table::{call_number, turn_on};
use call_graph::LiveSet;
use program_model::{Body, Class, Insn, InvokeKind, Method};
use seq::Seq;
use std::alloc::{AllocError, Global};

/// A call by its number and the method that it names.
#[derive(Clone, Copy, Drop)]
pub(crate) struct Call {
    pub(crate) number: u32,
    pub(crate) method: u32,
}

/// The calls of live bodies by the type that they name, each once.
#[derive(Drop)]
pub(crate) struct Named {
    pub(crate) on: Vec<Seq<Call>>,
    pub(crate) seen: Vec<bool>,
}

/// An empty list for each number.
fn empty_lists(alloc: Global, count: usize) -> Result<Vec<Seq<Call>>, AllocError>
    ensures long { IfOk result (λ lists. length lists.items ≡ count) }
    ensures empty { IfOk result (λ lists. (kind : ℕ) → row_in (slice_get lists.items kind) ≡ []) }
{
    let mut lists = Vec::with_capacity(alloc, count)?;
    for _number in 0..count {
        lists.push(Seq::new(alloc))?;
    }
    Ok(lists)
}

/// Whether calls of a kind find by the class of their receiver, and then whether they are those of an interface.
fn interface_of(kind: InvokeKind) -> Option<bool>
    ensures { result ≡ interface_of kind }
{
    match kind {
        InvokeKind::Virtual => Some(false),
        InvokeKind::Interface => Some(true),
        _ => None,
    }
}

/// The call that an instruction makes on an object: whether it is one of an interface, and the method that it names.
fn object_call(insn: &Insn) -> Option<(bool, u32)>
    ensures { result ≡ object_call insn.now }
{
    match insn {
        Insn::Invoke { kind, method, .. } => match interface_of(*kind) {
            Some(interface) => Some((interface, *method)),
            None => None,
        },
        _ => None,
    }
}

impl Named {
    /// The calls on a type.
    pub(crate) fn on(&self, kind: u32) -> &[Call]
        ensures { result.now ≡ calls_on self.now kind }
    {
        match self.on.as_slice().get(kind as usize) {
            Some(calls) => calls.as_slice(),
            None => &[],
        }
    }

    /// Lists a call under a type, unless that is past the table.
    fn list(&mut self, kind: u32, call: Call) -> Result<(), AllocError>
        ensures long { OnOk result (length self.new.on.items ≡ length self.old.on.items) }
        ensures seen { OnOk result (self.new.seen ≡ self.old.seen) }
        ensures rows { OnOk result ((n : ℕ) → calls_on self.new n ≡ cond (nat_eq n kind && nat_lt n (length self.old.on.items)) (calls_on self.old n ++ call ∷ []) (calls_on self.old n)) }
    {
        if let Some(calls) = self.on.get_mut(kind as usize) {
            calls.items.push(call)?;
        }
        Ok(())
    }

    /// Notes a call, unless it is noted.
    fn add(&mut self, at: &At<'_>, method: u32, interface: bool) -> Result<(), AllocError>
        ensures { length at.now.program.now.methods ≤ 65536 → AreSeen at.now.program.now self.old → OnOk result (NotesBy at.now.program.now (IsThe interface method) self.old self.new) }
    {
        match at.method_name(method) {
            Some(name) => {
                let number = call_number(method, interface);
                if is_on(&self.seen, number) {
                    return Ok(());
                }
                turn_on(&mut self.seen, number);
                self.list(name.class, Call { number, method })?;
                Ok(())
            }
            None => Ok(()),
        }
    }

    /// Notes the call of an instruction.
    fn add_insn(&mut self, at: &At<'_>, insn: &Insn) -> Result<(), AllocError>
        ensures { length at.now.program.now.methods ≤ 65536 → AreSeen at.now.program.now self.old → OnOk result (NotesBy at.now.program.now (Makes insn.now) self.old self.new) }
    {
        match object_call(insn) {
            Some(call) => {
                self.add(at, call.1, call.0)?;
                Ok(())
            }
            None => Ok(()),
        }
    }

    /// Notes the calls of a body.
    fn add_body(&mut self, at: &At<'_>, body: &Body) -> Result<(), AllocError>
        ensures { length at.now.program.now.methods ≤ 65536 → AreSeen at.now.program.now self.old → OnOk result (NotesBy at.now.program.now (AmongInsns body.now.insns) self.old self.new) }
    {
        for insn in body.insns.as_slice() {
            self.add_insn(at, insn)?;
        }
        Ok(())
    }

    /// Notes the calls of a method, where it is live.
    fn add_method(&mut self, at: &At<'_>, live: &LiveSet, method: &Method) -> Result<(), AllocError>
        ensures { length at.now.program.now.methods ≤ 65536 → AreSeen at.now.program.now self.old → OnOk result (NotesBy at.now.program.now (InBody live.now method.now) self.old self.new) }
    {
        if !is_on(&live.methods, method.name) {
            return Ok(());
        }
        match &method.body {
            Some(body) => {
                self.add_body(at, body)?;
                Ok(())
            }
            None => Ok(()),
        }
    }

    /// Notes the calls of the live methods of a class.
    fn add_class(&mut self, at: &At<'_>, live: &LiveSet, class: &Class) -> Result<(), AllocError>
        ensures { length at.now.program.now.methods ≤ 65536 → AreSeen at.now.program.now self.old → OnOk result (NotesBy at.now.program.now (AmongMethods live.now (length class.now.methods) class.now.methods) self.old self.new) }
    {
        for method in class.methods.as_slice() {
            self.add_method(at, live, method)?;
        }
        Ok(())
    }

    /// Nothing is noted.
    fn empty(alloc: Global, at: &At<'_>) -> Result<Named, AllocError>
        ensures seen { length at.now.program.now.methods ≤ 65536 → IfOk result (AreSeen at.now.program.now) }
        ensures none { IfOk result (λ n. (kind : ℕ) → calls_on n kind ≡ []) }
    {
        Ok(Named {
            on: empty_lists(alloc, at.program.types.len())?,
            seen: vec![in alloc; false; at.program.methods.len().saturating_mul(2)]?,
        })
    }

    /// The calls of all live bodies.
    pub(crate) fn new(alloc: Global, at: &At<'_>, live: &LiveSet) -> Result<Named, AllocError>
        ensures { length at.now.program.now.methods ≤ 65536 → IfOk result (AreNamed at.now.program.now live.now) }
    {
        let mut named = Named::empty(alloc, at)?;
        for class in at.program.classes.as_slice() {
            named.add_class(at, live, class)?;
        }
        Ok(named)
    }
}
