//! The tables of fields and methods.

ghost use Rattle.std.specs.Prelude.{◌≡◌, ◌+◌, ◌*◌, ◌<◌, ◌≤◌, ◌^◌, List, ℕ, [], All, length, IfOk, vec_len};
ghost use Rattle.dex_base.specs.Reading.{Gives, each};
ghost use Rattle.dex_pools.specs.Fault.{is_free};
ghost use Rattle.dex_pools.specs.InRange.{FieldInRange, MethodInRange};
ghost use Rattle.dex_pools.specs.Tables.{field_at, method_at};

use crate::fault::PoolFault;
use crate::header::Extents;
use crate::protos::letter_at;
use crate::word::{half_index_of, index_of};
use program_model::{FieldName, MethodName};
use std::alloc::Global;

/// The field of this number. `letters` are those of all types.
#[tactic(auto, unfolding(crate::specs::Tables::field_at))]
fn field_of(bytes: &[u8], tables: &Extents, letters: &[u16], i: u32) -> Result<FieldName, PoolFault>
    ensures gives { Gives is_free (λ f. f) result (field_at bytes.now tables.now letters.now i) }
    ensures range { IfOk result (FieldInRange tables.now.strings.size tables.now.types.size) }
{
    let at = tables.fields.entry(8, i);
    let class = half_index_of(bytes, at, tables.types.size)?;
    let kind = half_index_of(bytes, at + 2, tables.types.size)?;
    let name = index_of(bytes, at + 4, tables.strings.size)?;
    if letter_at(letters, kind) == 86 {
        return Err(PoolFault::BadDescriptor { at });
    }
    Ok(FieldName { class, kind, name })
}

/// The fields of the table. `BadDescriptor` names the entry whose type is `V`.
pub fn fields_of(
    alloc: Global,
    bytes: &[u8],
    tables: &Extents,
    letters: &[u16],
) -> Result<Vec<FieldName>, PoolFault>
    ensures gives { Gives is_free (λ v. v.items) result (each (field_at bytes.now tables.now letters.now) 0 tables.now.fields.size) }
    ensures sized { IfOk result (λ v. vec_len v ≡ tables.now.fields.size) }
    ensures numbered { IfOk result (λ v. vec_len v < 2 ^ 32) }
    ensures range { IfOk result (λ v. All (FieldInRange tables.now.strings.size tables.now.types.size) v.items) }
{
    let mut found = Vec::new(alloc);
    for i in 0..tables.fields.size {
        let field = field_of(bytes, tables, letters, i)?;
        found.push(field)?;
    }
    Ok(found)
}

/// The method of this number.
#[tactic(auto, unfolding(crate::specs::Tables::method_at))]
fn method_of(bytes: &[u8], tables: &Extents, i: u32) -> Result<MethodName, PoolFault>
    ensures gives { Gives is_free (λ m. m) result (method_at bytes.now tables.now i) }
    ensures range { IfOk result (MethodInRange tables.now.strings.size tables.now.types.size tables.now.protos.size) }
{
    let at = tables.methods.entry(8, i);
    let class = half_index_of(bytes, at, tables.types.size)?;
    let proto = half_index_of(bytes, at + 2, tables.protos.size)?;
    let name = index_of(bytes, at + 4, tables.strings.size)?;
    Ok(MethodName { class, proto, name })
}

/// The methods of the table.
pub fn methods_of(
    alloc: Global,
    bytes: &[u8],
    tables: &Extents,
) -> Result<Vec<MethodName>, PoolFault>
    ensures gives { Gives is_free (λ v. v.items) result (each (method_at bytes.now tables.now) 0 tables.now.methods.size) }
    ensures sized { IfOk result (λ v. vec_len v ≡ tables.now.methods.size) }
    ensures numbered { IfOk result (λ v. vec_len v < 2 ^ 32) }
    ensures range { IfOk result (λ v. All (MethodInRange tables.now.strings.size tables.now.types.size tables.now.protos.size) v.items) }
{
    let mut found = Vec::new(alloc);
    for i in 0..tables.methods.size {
        let method = method_of(bytes, tables, i)?;
        found.push(method)?;
    }
    Ok(found)
}
