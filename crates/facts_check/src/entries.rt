//! What is entered with anything, what is known to be entered, and what virtual and interface calls may enter.

ghost use Rattle.std.specs.Prelude.{◌≡◌, true, ℕ, ◌<◌, List, [], Some, None, is_some, slice_get, slice_index_or};
ghost use Rattle.domains.specs.Values.{Parts, any_value};
ghost use Rattle.dom_frame.specs.Registers.{value_at};
ghost use Rattle.closed_facts.specs.Tables.{IsBelow};
ghost use Rattle.facts_check.specs.Bodies.{registers_of};
ghost use Rattle.facts_check.specs.Known.{AreKnown, is_marked, answer_at};
ghost use Rattle.facts_check.specs.Tables.{AreAny, TakesAny, IsOpened, IsOpenEnded, AreBare, Entries, IsLinkHeld, Links};

use crate::fields::is_on;
use crate::known::Known;
use call_targets::Link;
use dom_frame::Frame;
use domains::Value;
use facts_order::{is_answered, is_any, is_below, value_at};
use pat_map::PatMap;
use program_model::{Class, Method};
use seq::Seq;

/// Whether each of some values is anything.
fn are_any(values: &[Value]) -> bool
    ensures { result ≡ true → AreAny values.now }
{
    for value in values {
        if !is_any(value) {
            return false;
        }
    }
    true
}

/// The parameter words of a method number.
fn words_of<'a>(known: &'a Known<'_>, method: u32) -> &'a [Value]
    ensures { result.now ≡ slice_index_or known.now.facts.now.parameters.items method [] }
{
    match known.facts.parameters.as_slice().get(method as usize) {
        Some(words) => words.as_slice(),
        None => &[],
    }
}

/// Whether a method may be passed anything.
fn takes_any(known: &Known<'_>, method: u32) -> bool
    ensures { AreKnown known.now → result ≡ true → TakesAny known.now method }
{
    are_any(words_of(known, method))
}

/// Whether a run comes to the first of some positions.
fn is_reached(frames: &[Option<Frame>]) -> bool
    ensures { result ≡ is_some (registers_of frames.now 0) }
{
    match frames.first() {
        Some(Some(_)) => true,
        _ => false,
    }
}

/// Whether a run comes to the entry of a method.
fn is_entered(frames: &[Seq<Option<Frame>>], method: usize) -> bool
    ensures { result ≡ is_some (registers_of (slice_index_or frames.now method []) 0) }
{
    match frames.get(method) {
        Some(own) => is_reached(own.as_slice()),
        None => false,
    }
}

/// Whether a run comes to the entry of each marked method.
fn are_entered(frames: &[Seq<Option<Frame>>], marks: &[bool]) -> bool
    ensures { result ≡ true → (method : ℕ) → is_marked marks.now method ≡ true → is_some (registers_of (slice_index_or frames.now method []) 0) ≡ true }
{
    for method in 0..marks.len() {
        if marks[method] && !is_entered(frames, method) {
            return false;
        }
    }
    true
}

/// Whether each method that the framework may enter is marked, and takes anything.
fn are_opened(known: &Known<'_>) -> bool
    ensures { AreKnown known.now → result ≡ true → (method : ℕ)
        → slice_get known.now.targets.now.entered.items method ≡ Some true → IsOpened known.now method }
{
    let entered = known.targets.entered.as_slice();
    if entered.len() >= 4294967296 {
        return false;
    }
    for method in 0..entered.len() {
        if entered[method]
            && !(is_on(&known.marks.entered, method as u32) && takes_any(known, method as u32))
        {
            return false;
        }
    }
    true
}

/// Whether a method may be passed anything, and give anything.
fn is_open_ended(known: &Known<'_>, method: u32) -> bool
    ensures { AreKnown known.now → result ≡ true → IsOpenEnded known.now method }
{
    takes_any(known, method) && is_any(known.facts.result(method))
}

/// Whether a method takes and gives anything, if it has no code.
fn is_bare(known: &Known<'_>, method: &Method) -> bool
    ensures { AreKnown known.now → result ≡ true → method.now.body ≡ None → IsOpenEnded known.now method.now.name }
{
    match &method.body {
        Some(_) => true,
        None => is_open_ended(known, method.name),
    }
}

/// Whether the methods of a class that have no code take and give anything.
fn are_bare(known: &Known<'_>, methods: &[Method]) -> bool
    ensures { AreKnown known.now → result ≡ true → AreBare known.now methods.now }
{
    for method in methods {
        if !is_bare(known, method) {
            return false;
        }
    }
    true
}

/// Whether all methods without code take and give anything.
fn all_bare(known: &Known<'_>) -> bool
    ensures { AreKnown known.now → result ≡ true → (c : ℕ) (class : Class)
        → slice_get known.now.program.now.classes c ≡ Some class → AreBare known.now class.methods }
{
    for class in known.program.classes.as_slice() {
        if !are_bare(known, class.methods.as_slice()) {
            return false;
        }
    }
    true
}

/// Whether what is entered is known to be.
pub(crate) fn entries_hold(known: &Known<'_>, frames: &[Seq<Option<Frame>>]) -> bool
    ensures { AreKnown known.now → result ≡ true → Entries known.now frames.now }
{
    if !are_entered(frames, &known.marks.entered) {
        return false;
    }
    if !are_opened(known) {
        return false;
    }
    all_bare(known)
}

/// Whether parameter words are at or above a pool.
fn words_hold(words: &[Value], pool: &PatMap<Value>) -> bool
    ensures { result ≡ true → (i : ℕ) (v : Parts) → slice_get words.now i ≡ Some v → IsBelow (value_at pool.now i) v }
{
    if words.len() >= 4294967296 {
        return false;
    }
    for word in 0..words.len() {
        if !is_below(&value_at(pool, word as u32), &words[word]) {
            return false;
        }
    }
    true
}

/// Whether a method that a call may enter, if a run comes to such a call, is known to be entered and takes what is passed to
/// the pool of the call, and whether what it gives is among the call's answers.
fn link_holds(known: &Known<'_>, link: &Link) -> bool
    ensures { AreKnown known.now → result ≡ true → IsLinkHeld known.now link.now }
{
    let pools = known.pools;
    match (
        pools.calls.as_slice().get(link.call as usize),
        pools.answers.as_slice().get(link.call as usize),
    ) {
        (Some(pool), Some(answer)) => {
            is_answered(known.facts, link.method, answer)
                && (!is_on(&pools.reached, link.call)
                    || (is_on(&known.marks.entered, link.method)
                        && words_hold(words_of(known, link.method), pool)))
        }
        _ => false,
    }
}

/// Whether each link holds.
fn all_linked(known: &Known<'_>) -> bool
    ensures { AreKnown known.now → result ≡ true → (i : ℕ) (link : Link)
        → slice_get known.now.targets.now.links.items i ≡ Some link → IsLinkHeld known.now link }
{
    for link in known.targets.links.as_slice() {
        if !link_holds(known, link) {
            return false;
        }
    }
    true
}

/// Whether anything may come back from each call that may leave the program.
fn all_left(known: &Known<'_>) -> bool
    ensures { result ≡ true → (call : ℕ) → slice_get known.now.targets.now.leaves.items call ≡ Some true → IsBelow any_value (answer_at known.now call) }
{
    let leaves = known.targets.leaves.as_slice();
    for call in 0..leaves.len() {
        if leaves[call] {
            match known.pools.answers.as_slice().get(call) {
                Some(answer) if is_any(answer) => {}
                _ => return false,
            }
        }
    }
    true
}

/// Whether the pools of virtual and interface calls hold.
pub(crate) fn links_hold(known: &Known<'_>) -> bool
    ensures { AreKnown known.now → result ≡ true → Links known.now }
{
    all_linked(known) && all_left(known)
}
