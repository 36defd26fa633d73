//! Where the tables stand, as the header says.

ghost use Rattle.std.specs.Prelude.{◌≡◌, ◌+◌, ◌*◌, ◌<◌, ◌≤◌, ◌^◌, length, IfOk};
ghost use Rattle.dex_base.specs.Reading.{Gives};
ghost use Rattle.dex_pools.specs.Fault.{is_free};
ghost use Rattle.dex_pools.specs.Tables.{extent_at, extents_at};

use crate::fault::PoolFault;
use crate::word::word_of;

/// How many entries a table has, and where the first one begins.
#[derive(Clone, Copy, Drop)]
pub struct Extent {
    pub size: u32,
    pub offset: u32,
}

/// Where the tables stand.
#[derive(Clone, Copy, Drop)]
pub struct Extents {
    pub strings: Extent,
    pub types: Extent,
    pub protos: Extent,
    pub fields: Extent,
    pub methods: Extent,
}

impl Extent {
    /// Where the entry of this number begins.
    pub fn entry(&self, width: usize, number: u32) -> usize
        requires { width < 2 ^ 16 }
        ensures { result ≡ self.now.offset + width * number }
    {
        self.offset as usize + width * number as usize
    }
}

/// The size and the offset at `at` of a table with entries of `width` bytes. `Short` names the table's offset where it
/// passes the end.
#[tactic(auto, unfolding(crate::specs::Tables::extent_at))]
fn extent_of(bytes: &[u8], at: usize, width: usize) -> Result<Extent, PoolFault>
    requires wide { width < 2 ^ 16 }
    requires low { at < 2 ^ 16 }
    ensures { Gives is_free (λ t. t) result (extent_at bytes.now at width) }
{
    let size = word_of(bytes, at)?;
    let offset = word_of(bytes, at + 4)?;
    let extent = Extent { size, offset };
    if size == 0 || extent.entry(width, size) <= bytes.len() {
        Ok(extent)
    } else {
        Err(PoolFault::Short {
            at: offset as usize,
        })
    }
}

/// Where the tables stand (Dalvik executable format, "header_item").
#[tactic(auto, unfolding(crate::specs::Tables::extents_at))]
pub fn extents_of(bytes: &[u8]) -> Result<Extents, PoolFault>
    ensures { Gives is_free (λ t. t) result (extents_at bytes.now) }
{
    let strings = extent_of(bytes, 56, 4)?;
    let types = extent_of(bytes, 64, 4)?;
    let protos = extent_of(bytes, 72, 12)?;
    let fields = extent_of(bytes, 80, 8)?;
    let methods = extent_of(bytes, 88, 8)?;
    Ok(Extents {
        strings,
        types,
        protos,
        fields,
        methods,
    })
}
