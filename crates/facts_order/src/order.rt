//! Comparing values.

ghost use Rattle.std.specs.Prelude.{◌≡◌, true};
ghost use Rattle.domains.specs.Values.{any_value};
ghost use Rattle.dom_frame.specs.Registers.{value_at};
ghost use Rattle.closed_facts.specs.Tables.{IsBelow};

use domains::Value;
use lattice_core::Lattice;
use pat_map::PatMap;

/// Whether a value is at or below another.
pub fn is_below(value: &Value, other: &Value) -> bool
    ensures { result ≡ true → IsBelow value.now other.now }
{
    value.leq(other)
}

/// Whether a value is at or above anything.
pub fn is_any(value: &Value) -> bool
    ensures { result ≡ true → IsBelow any_value value.now }
{
    is_below(&Value::any(), value)
}

/// The value of a register, that of nothing where it has none.
pub fn value_at(registers: &PatMap<Value>, register: u32) -> Value
    ensures { result ≡ value_at registers.now register }
{
    match registers.get(register) {
        Some(value) => value.same(),
        None => Value::none(),
    }
}
