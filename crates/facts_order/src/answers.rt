//! What is asked of a table of facts at a number.

ghost use Rattle.std.specs.Prelude.{◌≡◌, true};
ghost use Rattle.domains.specs.Values.{any_value};
ghost use Rattle.closed_facts.specs.Tables.{IsBelow, parameter_at, result_at, field_at};

use crate::order::{is_any, is_below};
use domains::Value;
use facts::Facts;

/// Whether a parameter word of a method is at or above a value that is passed there.
pub fn is_passed(facts: &Facts, method: u32, place: u32, value: &Value) -> bool
    ensures { result ≡ true → IsBelow value.now (parameter_at facts.now method place) }
{
    is_below(value, facts.parameter(method, place))
}

/// Whether a field may hold anything, as one that is kept must.
pub fn is_open_field(facts: &Facts, field: u32) -> bool
    ensures { result ≡ true → IsBelow any_value (field_at facts.now field) }
{
    is_any(facts.field(field))
}

/// Whether what a method gives is at or below what comes back from calls that may enter it.
pub fn is_answered(facts: &Facts, method: u32, answer: &Value) -> bool
    ensures { result ≡ true → IsBelow (result_at facts.now method) answer.now }
{
    is_below(facts.result(method), answer)
}
