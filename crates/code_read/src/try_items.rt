//! Try items (Dalvik executable format, "try_item").

ghost use Rattle.std.specs.Prelude.{◌≡◌, ℕ, ◌*◌, ◌<◌, ◌≤◌, ◌^◌, drop, IsTrue};
ghost use Rattle.code_read.specs.Regions.{try_at, names_up_to};

use dex_base::{read_u16, read_u32};

/// A try item: the first unit, how many units, and the offset of the handler list from the count of the lists.
#[derive(Clone, Copy, Drop)]
pub(crate) struct TryItem {
    pub start: u32,
    pub count: u16,
    pub offset: u16,
}

/// The try item at this place in the bytes.
#[tactic(auto, unfolding(crate::specs::Regions::try_at))]
pub(crate) fn try_at(bytes: &[u8], at: usize) -> Option<TryItem>
    requires { at < 2 ^ 32 }
    ensures { result ≡ try_at bytes.now at }
{
    let Ok(start) = read_u32(bytes, at) else {
        return None;
    };
    let Ok(count) = read_u16(bytes, at + 4) else {
        return None;
    };
    let Ok(offset) = read_u16(bytes, at + 6) else {
        return None;
    };
    Some(TryItem {
        start,
        count,
        offset,
    })
}

/// The greater of an offset and that of a try item, if there is one.
fn greater(most: u16, item: Option<TryItem>) -> u16
    ensures same { most ≤ result }
    ensures named { IsTrue (names_up_to result item) }
{
    match item {
        Some(item) => {
            if item.offset <= most {
                most
            } else {
                item.offset
            }
        }
        None => most,
    }
}

/// The greatest offset of a handler list that the try items name.
pub(crate) fn greatest_offset(tries: &[u8], count: u16) -> u16
    ensures { (k : ℕ) → k < count → IsTrue (names_up_to result (try_at tries.now (8 * k))) }
{
    let mut most = 0;
    for place in 0..count {
        most = greater(most, try_at(tries, 8 * place as usize));
    }
    most
}

/// The bytes behind so many try items.
pub(crate) fn behind_items(tries: &[u8], count: u16) -> &[u8]
    ensures { result.now ≡ drop (8 * count) tries.now }
{
    let at = 8 * count as usize;
    if at <= tries.len() { &tries[at..] } else { &[] }
}
