//! What the readers give and what the bytes spell are one: laws that tie the reading functions of `dex_pools`, `code_read` and
//! `dex_read` to the relations of `dex_defs`. Laws of code stand in `code_laws`, on which these build. The functions of this crate
//! have an empty body, and their contracts are the laws; what they cite beside those relations stands in `specs/`.

ghost use Rattle.std.specs.Prelude.{◌≡◌, ◌<◌, ◌^◌, ◌-◌, ◌≤◌, List, ℕ, length};
ghost use Rattle.dex_pools.specs.declared.header.Extent.{Extent};
ghost use Rattle.dex_pools.specs.declared.header.Extents.{Extents};
ghost use Rattle.dex_pools.specs.Finds.{Finds};
ghost use Rattle.dex_pools.specs.Items.{type_list_at};
ghost use Rattle.dex_pools.specs.PoolTables.{pools_at};
ghost use Rattle.dex_pools.specs.Spelled.{IsString, IsType, IsTypeList, IsProto, IsField, IsMethod, SpellsPools, parameter_count};
ghost use Rattle.dex_pools.specs.Tables.{string_at, type_at, proto_at, field_at, method_at};
ghost use Rattle.program_model.specs.declared.program.Version.{Version};
ghost use Rattle.dex_read.specs.Header.{header_at};
ghost use Rattle.dex_read.specs.File.{tables_at, head_at};
ghost use Rattle.program_model.specs.declared.program.Program.{Program};
ghost use Rattle.dex_read.specs.ClassData.{members_at};
ghost use Rattle.dex_read.specs.declared.members.Owner.{Owner};
ghost use Rattle.file_laws.specs.Founds.{Founds};
ghost use Rattle.dex_read.specs.declared.code.CodeItem.{CodeItem};
ghost use Rattle.dex_read.specs.Classes.{def_at, interfaces_at};
ghost use Rattle.dex_read.specs.Code.{item_at, body_at, lined_at};
ghost use Rattle.line_tables.specs.Text.{AscendsFrom};
ghost use Rattle.dex_defs.specs.DebugItems.{lines_of};
ghost use Rattle.dex_read.specs.Tables.{sizes_in};
ghost use Rattle.dex_pools.specs.Spelled.{AreParameters};
ghost use Rattle.file_laws.specs.Items.{IsItemBody};
ghost use Rattle.file_laws.specs.Class.{IsReadDef, IsReadItem};
ghost use Rattle.file_laws.specs.ClassData.{AreMembers};
ghost use Rattle.file_laws.specs.Header.{IsReadHeader};
ghost use Rattle.file_laws.specs.Tables.{IsTables, IsHead};

/// The header is read exactly where it stands and its tables keep their limits.
pub fn header_law()
    ensures { (bytes : List ℕ) → Finds (IsReadHeader bytes) (header_at bytes) }
{}

/// An entry of each table is read exactly where it stands. A string, a list of types and a proto are read where what they
/// count is left, and leave the rest.
pub fn entries_law()
    ensures strings { (bytes : List ℕ) (strings : Extent) (i left : ℕ) → Finds (λ r. IsString bytes strings i r.0 × (length r.0 ≤ left) × (r.1 ≡ left - length r.0)) (string_at bytes strings i left) }
    ensures types { (bytes : List ℕ) (tables : Extents) (strings : List (List ℕ)) (i : ℕ) → Finds (IsType bytes tables strings i) (type_at bytes tables strings i) }
    ensures lists { (bytes : List ℕ) (at size left : ℕ) → Finds (λ r. IsTypeList bytes at size r.0 × (length r.0 ≤ left) × (r.1 ≡ left - length r.0)) (type_list_at bytes at size left) }
    ensures protos { (bytes : List ℕ) (tables : Extents) (strings : List (List ℕ)) (letters : List ℕ) (i left : ℕ)
        → Finds (λ r. IsProto bytes tables strings letters i r.0 × (length r.0.parameters ≤ left) × (r.1 ≡ left - length r.0.parameters)) (proto_at bytes tables strings letters i left) }
    ensures fields { (bytes : List ℕ) (tables : Extents) (letters : List ℕ) (i : ℕ) → Finds (IsField bytes tables letters i) (field_at bytes tables letters i) }
    ensures methods { (bytes : List ℕ) (tables : Extents) (i : ℕ) → Finds (IsMethod bytes tables i) (method_at bytes tables i) }
{}

/// The five tables are read exactly where they stand, in order and within their limits, also behind the header.
pub fn tables_law()
    ensures pools { (bytes : List ℕ) (left : ℕ) → Finds (λ r. SpellsPools bytes left r.0 × (r.1 ≡ left - parameter_count r.0.protos)) (pools_at bytes left) }
    ensures tables { (bytes : List ℕ) (version : Version) → Finds (IsTables bytes version) (tables_at bytes version) }
    ensures head { (bytes : List ℕ) → Finds (IsHead bytes) (head_at bytes) }
{}

/// The members that are read of class data stand there, are those of the class, each in the list in which it belongs, and
/// ascend in each list.
pub fn class_data_law()
    ensures { (bytes : List ℕ) (p : Program) (owner : Owner) (at : ℕ) → Founds (AreMembers bytes p owner at) (members_at bytes p owner at) }
{}

/// The numbers that are read of a class_def stand there, and its type and source are entries of the tables; so do the
/// interfaces that it names.
pub fn class_def_law()
    ensures defs { (bytes : List ℕ) (p : Program) (at : ℕ) → Founds (IsReadDef bytes p at) (def_at bytes p at) }
    ensures interfaces { (bytes : List ℕ) (p : Program) (offset left : ℕ) → Founds (λ r. AreParameters bytes (length p.types) offset r.0) (interfaces_at bytes p offset left) }
{}

/// The numbers that are read of a code item stand there, and its body is the one that it spells.
pub fn code_item_law()
    ensures items { (bytes : List ℕ) (at : ℕ) → Founds (IsReadItem bytes at) (item_at bytes at) }
    ensures bodies { (bytes : List ℕ) (at : ℕ) (p : Program) (method left : ℕ) (item : CodeItem) → (is : IsReadItem bytes at item) → item.size < 2 ^ 32
        → Founds (IsItemBody bytes (sizes_in p).types at is.frame) (body_at bytes p method item left) }
{}

/// The lines that are read of a debug item for positions whose units ascend are those that the item says, whatever of the
/// items was left.
pub fn lines_law()
    ensures { (bytes : List ℕ) (debug : ℕ) (starts : List ℕ) (left : ℕ) → AscendsFrom 0 starts → Founds (λ r. r.0 ≡ lines_of bytes debug starts) (lined_at bytes debug starts left) }
{}
