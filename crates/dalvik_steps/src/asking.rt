//! Room for what a step does, and the framework that is asked.

ghost use Rattle.std.specs.Prelude.{OnOk};
ghost use Rattle.dalvik_state.specs.States.{HasPlaces, HasRoom};
ghost use Rattle.dalvik_steps.specs.Reaching.{IsAsked, IsReserved, SameItems};

use dalvik_lookups::Kind;
use dalvik_state::{State, Waiting, World};
use std::alloc::AllocError;

/// Makes room to expose so many objects.
pub(crate) fn reserve_exposed(world: &mut World, count: usize) -> Result<(), AllocError>
    ensures same { SameItems world.old world.new }
    ensures room { OnOk result (HasRoom world.new count) }
{
    world.exposed.reserve(count)?;
    Ok(())
}

/// Makes room for one entry of the stack.
fn reserve_entry(state: &mut State<'_>) -> Result<(), AllocError>
    ensures same { IsReserved state.old state.new }
    ensures places { OnOk result (HasPlaces state.new 1) }
{
    state.stack.reserve(1)?;
    Ok(())
}

/// Makes room to expose so many objects, and for one entry of the stack.
pub(crate) fn reserve(state: &mut State<'_>, count: usize) -> Result<(), AllocError>
    ensures same { IsReserved state.old state.new }
    ensures room { OnOk result (HasRoom state.new.world count) }
    ensures places { OnOk result (HasPlaces state.new 1) }
{
    reserve_entry(state)?;
    reserve_exposed(&mut state.world, count)?;
    Ok(())
}

/// The framework is asked for a value of a type; there is room for it on the stack.
pub(crate) fn asks(state: &mut State<'_>, kind: Kind)
    ensures { HasPlaces state.old 1 → IsAsked state.old state.new kind }
{
    let _ = state.stack.push(Waiting::Outside {
        owes: Some(kind),
        pending: None,
    });
}
