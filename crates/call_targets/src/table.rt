//! The answer.

ghost use Rattle.std.specs.Prelude.{◌≡◌, ◌≤◌, ◌-◌, ◌^◌, true, min, slice_set, IfOk, Contains};
ghost use Rattle.call_targets.specs.Adding.{IsBlank};
ghost use Rattle.call_targets.specs.Targeted.{call_at};
ghost use Rattle.call_targets.specs.declared.table.Link.{Link};

use std::alloc::{AllocError, Global};

/// A call by its number, and the number of a method with code that it may find.
#[derive(Clone, Copy, PartialEq, Eq, PartialOrd, Ord, Drop)]
pub struct Link {
    pub call: u32,
    pub method: u32,
}

/// What virtual and interface calls may find, and what the framework may do before the program does anything.
///
/// `links` has each pair of a call and a method with code that some made class finds for it, once. `leaves` says by call
/// whether a call may leave the program's code. `entered` says by method number whether the framework may enter the
/// method, and `begun` by the place of a class whether the framework may need it, as it makes an object of it or enters
/// a static method of it.
#[derive(Drop)]
pub struct Targets {
    pub links: Vec<Link>,
    pub leaves: Vec<bool>,
    pub entered: Vec<bool>,
    pub begun: Vec<bool>,
}

/// The number of the virtual or interface calls that name a method: they are counted two by two, as far as 32 bits go.
pub fn call_number(method: u32, interface: bool) -> u32
    ensures { result ≡ min (call_at method interface) (2 ^ 32 - 1) }
{
    let first = method.saturating_mul(2);
    if interface {
        first.saturating_add(1)
    } else {
        first
    }
}

/// Turns a mark on, if there is such a number.
pub(crate) fn turn_on(marks: &mut [bool], number: u32)
    ensures { marks.new ≡ slice_set marks.old number true }
{
    let at = number as usize;
    if at < marks.len() {
        marks[at] = true;
    }
}

/// The pairs in order, each once.
pub(crate) fn each_once(mut links: Vec<Link>) -> Vec<Link>
    ensures kept { (l : Link) → Contains links.items l → Contains result.items l }
    ensures from { (l : Link) → Contains result.items l → Contains links.items l }
{
    links.sort_unstable();
    links.dedup();
    links
}

impl Targets {
    /// Nothing is found yet.
    pub(crate) fn new(alloc: Global, methods: usize, classes: usize) -> Result<Targets, AllocError>
        ensures { methods ≤ 65536 → IfOk result (IsBlank methods classes) }
    {
        Ok(Targets {
            links: Vec::new(alloc),
            leaves: vec![in alloc; false; methods.saturating_mul(2)]?,
            entered: vec![in alloc; false; methods]?,
            begun: vec![in alloc; false; classes]?,
        })
    }
}
