//! Lists that have each number once.

ghost use Rattle.std.specs.Prelude.{◌≡◌, ℕ, ◌<◌, ◌^◌, true, false, length, IfOk, OnOk, slice_index_or, All};
ghost use Rattle.flow_cfg.specs.Listing.{Lists, ListsOnce, ArePlaces};

use std::alloc::{AllocError, Global};

/// Lists a number that isn't listed yet.
fn list_once(node: u32, seen: &mut [bool], order: &mut Vec<u32>) -> Result<(), AllocError>
    requires { Lists seen.old order.old.items }
    ensures lists { OnOk result (Lists seen.new order.new.items) }
    ensures marked { OnOk result (node < length seen.old → slice_index_or seen.new node false ≡ true) }
    ensures stay { OnOk result ((n : ℕ) → slice_index_or seen.old n false ≡ true → slice_index_or seen.new n false ≡ true) }
{
    let place = node as usize;
    if place >= seen.len() || seen[place] {
        return Ok(());
    }
    seen[place] = true;
    order.push(node)?;
    Ok(())
}

/// The numbers below `nodes`: first those that were visited, in their order, and then the others.
pub(crate) fn each_once(alloc: Global, nodes: u32, visited: &[u32]) -> Result<Vec<u32>, AllocError>
    ensures { IfOk result (λ v. ListsOnce nodes v.items) }
{
    let mut seen = vec![in alloc; false; nodes as usize]?;
    let mut order = Vec::with_capacity(alloc, nodes as usize)?;
    for node in visited {
        list_once(*node, seen.as_mut_slice(), &mut order)?;
    }
    for unseen in 0..nodes {
        list_once(unseen, seen.as_mut_slice(), &mut order)?;
    }
    Ok(order)
}

/// The place of each number.
pub(crate) fn places_of(alloc: Global, order: &[u32]) -> Result<Vec<u32>, AllocError>
    requires small { length order.now < 2 ^ 32 }
    requires once { ListsOnce (length order.now) order.now }
    ensures long { IfOk result (λ v. length v.items ≡ length order.now) }
    ensures within { IfOk result (λ v. All (λ p. p < length v.items) v.items) }
    ensures places { IfOk result (λ v. ArePlaces order.now v.items) }
{
    let mut places = vec![in alloc; 0; order.len()]?;
    let mut place = 0;
    for node in order {
        places[*node as usize] = place;
        place += 1;
    }
    Ok(places)
}
