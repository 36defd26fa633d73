//! All tables.

ghost use Rattle.std.specs.Prelude.{◌≡◌, ◌+◌, ◌*◌, ◌<◌, ◌≤◌, ◌^◌, List, ℕ, All, length, min, IfOk, Ok, vec_len};
ghost use Rattle.dex_base.specs.Reading.{Gives};
ghost use Rattle.dex_pools.specs.Fault.{is_free};
ghost use Rattle.dex_pools.specs.InRange.{ProtoInRange, FieldInRange, MethodInRange, PoolsInRange};
ghost use Rattle.dex_pools.specs.PoolTables.{strings_at, types_at, protos_at, fields_at, methods_at, pools_at};
ghost use Rattle.dex_pools.specs.declared.pools.Pools as p;
ghost use Rattle.dex_pools.specs.Spelled.{SpellsPools};
ghost use Rattle.dex_pools.specs.Fewer.{first};
ghost use Rattle.dex_pools.specs.Marks.{sizes_of};

use crate::fault::{PoolFault, Table};
use crate::header::{Extents, extents_of};
use crate::members::{fields_of, methods_of};
use crate::order::ascends;
use crate::protos::protos_of;
use crate::scalar::TableSizes;
use crate::strings::strings_of;
use crate::types::{letters_of, types_of};
use dex_base::Text;
use program_model::{Counted, FieldName, MethodName, Proto};
use seq::Seq;
use std::alloc::Global;

/// The tables of a file. A type is the number of its descriptor in `strings`.
#[derive(Drop)]
pub struct Pools {
    pub strings: Seq<Text>,
    pub types: Seq<u32>,
    pub protos: Seq<Proto>,
    pub fields: Seq<FieldName>,
    pub methods: Seq<MethodName>,
}

/// A length as a number of 32 bits, the greatest one where it has more.
fn size_of_len(len: usize) -> u32
    ensures { result ≡ min len 4294967295 }
{
    if len < 4_294_967_295 {
        len as u32
    } else {
        4_294_967_295
    }
}

impl Pools {
    /// How many entries the tables have that a value may name.
    pub fn sizes(&self) -> TableSizes
        ensures { result ≡ sizes_of self.now }
    {
        TableSizes {
            strings: size_of_len(self.strings.len()),
            types: size_of_len(self.types.len()),
            fields: size_of_len(self.fields.len()),
            methods: size_of_len(self.methods.len()),
        }
    }
}

/// The strings, which ascend and have 16,777,216 units at most.
#[tactic(auto, unfolding(crate::specs::PoolTables::strings_at))]
fn read_strings(alloc: Global, bytes: &[u8], tables: &Extents) -> Result<Vec<Text>, PoolFault>
    ensures gives { Gives is_free (λ v. v.items) result (strings_at bytes.now tables.now) }
    ensures sized { IfOk result (λ v. vec_len v ≡ tables.now.strings.size) }
    ensures few { IfOk result (λ v. All (λ text. length text < 2 ^ 32) v.items) }
{
    let mut left = 16_777_216;
    let strings = strings_of(alloc, bytes, &tables.strings, &mut left)?;
    ascends(&strings, Table::Strings)?;
    Ok(strings)
}

/// The types, which ascend.
#[tactic(auto, unfolding(crate::specs::PoolTables::types_at))]
fn read_types(
    alloc: Global,
    bytes: &[u8],
    tables: &Extents,
    strings: &[Text],
) -> Result<Vec<u32>, PoolFault>
    requires few { All (λ text. length text < 2 ^ 32) strings.now }
    requires sized { length strings.now ≡ tables.now.strings.size }
    ensures gives { Gives is_free (λ v. v.items) result (types_at bytes.now tables.now strings.now) }
    ensures sized { IfOk result (λ v. vec_len v ≡ tables.now.types.size) }
    ensures below { IfOk result (λ v. All (λ n. n < tables.now.strings.size) v.items) }
{
    let types = types_of(alloc, bytes, tables, strings)?;
    ascends(&types, Table::Types)?;
    Ok(types)
}

/// The protos, which ascend. `letters` are those of all types.
#[tactic(auto, unfolding(crate::specs::PoolTables::protos_at))]
fn read_protos(
    alloc: Global,
    bytes: &[u8],
    tables: &Extents,
    strings: &[Text],
    letters: &[u16],
    left: &mut u32,
) -> Result<Vec<Proto>, PoolFault>
    ensures gives { Gives is_free (λ v. (v.items, left.new)) result (protos_at bytes.now tables.now strings.now letters.now left.old) }
    ensures sized { IfOk result (λ v. vec_len v ≡ tables.now.protos.size) }
    ensures range { IfOk result (λ v. All (ProtoInRange tables.now.strings.size tables.now.types.size) v.items) }
{
    let protos = protos_of(alloc, bytes, tables, strings, letters, left)?;
    ascends(&protos, Table::Protos)?;
    Ok(protos)
}

/// The fields, which ascend. `letters` are those of all types.
#[tactic(auto, unfolding(crate::specs::PoolTables::fields_at))]
fn read_fields(
    alloc: Global,
    bytes: &[u8],
    tables: &Extents,
    letters: &[u16],
) -> Result<Vec<FieldName>, PoolFault>
    ensures gives { Gives is_free (λ v. v.items) result (fields_at bytes.now tables.now letters.now) }
    ensures sized { IfOk result (λ v. vec_len v ≡ tables.now.fields.size) }
    ensures range { IfOk result (λ v. All (FieldInRange tables.now.strings.size tables.now.types.size) v.items) }
{
    let fields = fields_of(alloc, bytes, tables, letters)?;
    ascends(&fields, Table::Fields)?;
    Ok(fields)
}

/// The methods, which ascend.
#[tactic(auto, unfolding(crate::specs::PoolTables::methods_at))]
fn read_methods(alloc: Global, bytes: &[u8], tables: &Extents) -> Result<Vec<MethodName>, PoolFault>
    ensures gives { Gives is_free (λ v. v.items) result (methods_at bytes.now tables.now) }
    ensures sized { IfOk result (λ v. vec_len v ≡ tables.now.methods.size) }
    ensures range { IfOk result (λ v. All (MethodInRange tables.now.strings.size tables.now.types.size tables.now.protos.size) v.items) }
{
    let methods = methods_of(alloc, bytes, tables)?;
    ascends(&methods, Table::Methods)?;
    Ok(methods)
}

/// The tables that the header names, as [`read_pools`] gives them. `left` is how many items may be read, and falls by
/// one for each parameter of each proto.
#[tactic(auto, unfolding(crate::specs::PoolTables::pools_at))]
pub fn read_pools_counted(alloc: Global, bytes: &[u8], left: &mut u32) -> Result<Pools, PoolFault>
    ensures gives { Gives is_free (λ pools. (pools, left.new)) result (pools_at bytes.now left.old) }
    ensures range { IfOk result PoolsInRange }
{
    let tables = extents_of(bytes)?;
    let strings = read_strings(alloc, bytes, &tables)?;
    let types = read_types(alloc, bytes, &tables, &strings)?;
    let letters = letters_of(alloc, &strings, &types)?;
    let protos = read_protos(alloc, bytes, &tables, &strings, &letters, left)?;
    let fields = read_fields(alloc, bytes, &tables, &letters)?;
    let methods = read_methods(alloc, bytes, &tables)?;
    Ok(Pools {
        strings: Seq::of_vec(strings),
        types: Seq::of_vec(types),
        protos: Seq::of_vec(protos),
        fields: Seq::of_vec(fields),
        methods: Seq::of_vec(methods),
    })
}

/// The tables that the header names at 56 to 95 (Dalvik executable format, "header_item" to "method_id_item").
///
/// Each table is looked at in this order, first each entry and then whether the entries ascend. `Short` names the
/// offset of a table, or the place of a number, a text or a list that passes the end; `LongLeb` and `BadText` the byte
/// that can't go on; `BadDescriptor` the byte of the string at which a type's text can't be a descriptor, or the
/// field_id of type `V`; `Index` an entry's number that is not below the size of its table; `Order` the first entry
/// that is not above the one before it; `Shorty` the proto_id with another shorty than its own or a parameter of type
/// `V`; `Limit` more than 16,777,216 UTF-16 units in all texts, or as many parameters in all protos. The other error
/// is want of memory.
pub fn read_pools(alloc: Global, bytes: &[u8]) -> Result<Pools, PoolFault>
    ensures gives { Gives is_free (λ pools. pools) result (first (pools_at bytes.now 16777216)) }
    // What is read is spelled.
    ensures found { IfOk result (SpellsPools bytes.now 16777216) }
    // What is spelled is read, unless memory runs out: so the bytes spell one list of tables at most.
    ensures only { (pools : p.Pools) → SpellsPools bytes.now 16777216 pools → Gives is_free (λ pools. pools) result (Ok pools) }
    ensures range { IfOk result PoolsInRange }
{
    let mut left = 16_777_216;
    read_pools_counted(alloc, bytes, &mut left)
}
