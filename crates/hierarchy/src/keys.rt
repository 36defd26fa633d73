//! Numbers for the names and types of fields and for the names and protos of methods.

ghost use Rattle.std.specs.Prelude.{◌≡◌, ◌+◌, ◌<◌, ◌-◌, ◌^◌, length, IfOk, vec_len};
ghost use Rattle.hierarchy.specs.Membership.{AreKeys, field_pair, method_pair};

use crate::table::word;
use indexmap::IndexSet;
use program_model::{FieldName, MethodName};
use std::alloc::{AllocError, Global};

/// For each number of a table the key of what it names, which it shares with all of the same name and type or proto,
/// and the number of all keys.
#[derive(Drop)]
pub struct Keys {
    pub keys: Vec<u32>,
    pub count: usize,
}

/// The keys of the fields.
pub fn field_keys(alloc: Global, fields: &[FieldName]) -> Result<Keys, AllocError>
    ensures long { IfOk result (λ keys. vec_len keys.keys ≡ length fields.now) }
    ensures keys { length fields.now < 2 ^ 32 - 1 → IfOk result (λ keys. AreKeys field_pair fields.now keys.keys.items keys.count) }
{
    let mut known: IndexSet<(u32, u32)> = IndexSet::new(alloc);
    let mut keys = Vec::new(alloc);
    for field in fields {
        let (key, _added) = known.insert_full((field.name, field.kind))?;
        keys.push(word(key))?;
    }
    let count = known.len();
    Ok(Keys { keys, count })
}

/// The keys of the methods.
pub fn method_keys(alloc: Global, methods: &[MethodName]) -> Result<Keys, AllocError>
    ensures long { IfOk result (λ keys. vec_len keys.keys ≡ length methods.now) }
    ensures keys { length methods.now < 2 ^ 32 - 1 → IfOk result (λ keys. AreKeys method_pair methods.now keys.keys.items keys.count) }
{
    let mut known: IndexSet<(u32, u32)> = IndexSet::new(alloc);
    let mut keys = Vec::new(alloc);
    for method in methods {
        let (key, _added) = known.insert_full((method.name, method.proto))?;
        keys.push(word(key))?;
    }
    let count = known.len();
    Ok(Keys { keys, count })
}
