//! What changes in the frame on top of the stack.

ghost use Rattle.std.specs.Prelude.{◌≡◌, vec_capacity, vec_len};
ghost use Rattle.dalvik_state.specs.Frames.{with_item, GoesOn, Handles};
ghost use Rattle.dalvik_state.specs.States.{pending_top, with_pending, ChangesIn, ChangesTop, KeepsRest};

use crate::datum::Datum;
use crate::state::{State, Waiting};
use program_model::Item;

/// A method goes on.
fn next_in(waiting: &mut Waiting<'_>)
    ensures { ChangesIn (λ f g. GoesOn f g f.registers.items) waiting.old waiting.new }
{
    if let Waiting::Method(frame) = waiting {
        frame.next_alone();
    }
}

/// A method goes on with an item in a register.
fn next_with_in(waiting: &mut Waiting<'_>, item: Item, register: u16, datum: Datum)
    ensures { ChangesIn (λ f g. GoesOn f g (with_item item f.registers.items register datum)) waiting.old waiting.new }
{
    if let Waiting::Method(frame) = waiting {
        frame.next_with(item, register, datum);
    }
}

/// A method goes on at a handler.
fn handle_in(waiting: &mut Waiting<'_>, position: u32, caught: Datum)
    ensures { ChangesIn (λ f g. Handles f g position caught) waiting.old waiting.new }
{
    if let Waiting::Method(frame) = waiting {
        frame.handle(position, caught);
    }
}

/// The frame on top of a stack goes on.
fn next_on(stack: &mut Vec<Waiting<'_>>)
    ensures { ChangesTop (λ f g. GoesOn f g f.registers.items) stack.old.items stack.new.items }
{
    let count = stack.len();
    if count > 0 {
        next_in(&mut stack[count - 1]);
    }
}

/// The frame on top of a stack goes on with an item in a register.
fn next_with_on(stack: &mut Vec<Waiting<'_>>, item: Item, register: u16, datum: Datum)
    ensures { ChangesTop (λ f g. GoesOn f g (with_item item f.registers.items register datum)) stack.old.items stack.new.items }
{
    let count = stack.len();
    if count > 0 {
        next_with_in(&mut stack[count - 1], item, register, datum);
    }
}

/// The frame on top of a stack goes on at a handler.
fn handle_on(stack: &mut Vec<Waiting<'_>>, position: u32, caught: Datum)
    ensures { ChangesTop (λ f g. Handles f g position caught) stack.old.items stack.new.items }
{
    let count = stack.len();
    if count > 0 {
        handle_in(&mut stack[count - 1], position, caught);
    }
}

/// The framework's frame waits with the move at a place of the script, or with none.
fn set_pending_in(waiting: &mut Waiting<'_>, place: Option<usize>)
    ensures { waiting.new ≡ with_pending place waiting.old }
{
    if let Waiting::Outside { pending, .. } = waiting {
        *pending = place;
    }
}

/// So does the framework's frame on top of a stack.
fn set_pending_on(stack: &mut Vec<Waiting<'_>>, place: Option<usize>)
    ensures entries { stack.new.items ≡ pending_top place stack.old.items }
    ensures len { vec_len stack.new ≡ vec_len stack.old }
    ensures capacity { vec_capacity stack.new ≡ vec_capacity stack.old }
{
    let count = stack.len();
    if count > 0 {
        set_pending_in(&mut stack[count - 1], place);
    }
}

impl<'a> State<'a> {
    /// The framework's frame on top waits with the move at a place of the script, or with none. Any other stays.
    pub fn set_pending(&mut self, place: Option<usize>)
        ensures stack { self.new.stack.items ≡ pending_top place self.old.stack.items }
        ensures len { vec_len self.new.stack ≡ vec_len self.old.stack }
        ensures capacity { vec_capacity self.new.stack ≡ vec_capacity self.old.stack }
        ensures rest { KeepsRest self.old self.new }
    {
        set_pending_on(&mut self.stack, place);
    }

    /// The frame on top goes on.
    pub fn go_on(&mut self)
        ensures stack { ChangesTop (λ f g. GoesOn f g f.registers.items) self.old.stack.items self.new.stack.items }
        ensures rest { KeepsRest self.old self.new }
    {
        next_on(&mut self.stack);
    }

    /// The frame on top goes on with what an item of an array or a field held in a register.
    pub fn go_on_with(&mut self, item: Item, register: u16, datum: Datum)
        ensures stack { ChangesTop (λ f g. GoesOn f g (with_item item f.registers.items register datum)) self.old.stack.items self.new.stack.items }
        ensures rest { KeepsRest self.old self.new }
    {
        next_with_on(&mut self.stack, item, register, datum);
    }

    /// The frame on top goes on at a handler with what it catches.
    pub fn go_to_handler(&mut self, position: u32, caught: Datum)
        ensures stack { ChangesTop (λ f g. Handles f g position caught) self.old.stack.items self.new.stack.items }
        ensures rest { KeepsRest self.old self.new }
    {
        handle_on(&mut self.stack, position, caught);
    }
}
