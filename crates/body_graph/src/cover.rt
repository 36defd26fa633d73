//! Which region covers each position.

ghost use Rattle.std.specs.Prelude.{◌≡◌, ℕ, ◌<◌, ◌^◌, length, slice_index, IfOk, if◌then◌else◌};
ghost use Rattle.flow_cfg.specs.Walks.{covers};
ghost use Rattle.body_graph.specs.Graph.{covering};

use program_model::{Body, Region};
use std::alloc::{AllocError, Global};

/// Gives each position that a region covers the region's place.
fn cover(places: &mut Vec<u32>, region: &Region, place: u32)
    ensures long { length places.new.items ≡ length places.old.items }
    ensures given { (n : ℕ) → n < length places.old.items → slice_index places.new.items n ≡ (if covers n region.now then place else slice_index places.old.items n) }
{
    let end = (region.end as usize).min(places.len());
    for position in region.first as usize..end {
        places[position] = place;
    }
}

/// The place of the first region that covers each position, the number of regions where none does. The only error is want
/// of memory.
pub fn covers_of(alloc: Global, body: &Body) -> Result<Vec<u32>, AllocError>
    requires { length body.now.regions < 2 ^ 32 }
    ensures long { IfOk result (λ v. length v.items ≡ length body.now.insns) }
    ensures places { IfOk result (λ v. (n : ℕ) → n < length body.now.insns → slice_index v.items n ≡ covering body.now.regions n) }
{
    let regions = body.regions.as_slice();
    let mut places = vec![in alloc; regions.len() as u32; body.insns.len()]?;
    for place in (0..regions.len()).rev() {
        cover(&mut places, &regions[place], place as u32);
    }
    Ok(places)
}
