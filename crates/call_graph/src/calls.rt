//! What the calls of a method may find.

use crate::above::climb;
use crate::at::At;
use crate::bases::is_object;
use crate::live_set::LiveSet;
use crate::marks::Marks;
use crate::supers::{is_interface, lists_above};
use hierarchy::{Given, Hierarchy, Walk};
use program_model::{Insn, InvokeKind, MethodAt, Program, Version};
use std::alloc::{AllocError, Global};

/// A call at a position, and a method that it may find.
#[derive(Clone, Drop)]
pub struct Edge {
    pub position: u32,
    pub target: MethodAt,
}

/// Whether a class is under a type by the program's own lists; every class is under `Ljava/lang/Object;`.
fn is_under_kind(
    alloc: Global,
    at: &At<'_>,
    class: u32,
    kind: u32,
    marks: &mut Marks,
) -> Result<bool, AllocError> {
    match at.hierarchy.place_of(kind) {
        Some(upper) => Ok(at.hierarchy.is_under(class, upper)),
        None if is_object(at.program, kind) => Ok(true),
        None => match at.class_at(class) {
            Some(defined) => {
                let above = climb(alloc, at, marks, defined.name, defined.name)?;
                Ok(above.as_slice().contains(&kind))
            }
            None => Ok(false),
        },
    }
}

/// What a class finds for a virtual or interface call: its first virtual method with the key, else what its candidates
/// give.
fn find_whole(
    alloc: Global,
    at: &At<'_>,
    class: u32,
    key: u32,
    walk: &mut Walk,
) -> Result<Option<MethodAt>, AllocError> {
    if let Some(found) = at.hierarchy.find_virtual(at.program, class, key) {
        return Ok(Some(found));
    }
    let mut candidates = Vec::new(alloc);
    at.hierarchy
        .candidates(at.program, class, key, walk, &mut candidates)?;
    given(at, candidates.as_slice(), walk)
}

/// The method that candidates give, if they give one.
fn given(
    at: &At<'_>,
    candidates: &[MethodAt],
    walk: &mut Walk,
) -> Result<Option<MethodAt>, AllocError> {
    match at.hierarchy.given(at.program, candidates, walk)? {
        Given::One(found) => Ok(Some(found)),
        _ => Ok(None),
    }
}

/// Whether a class is made.
fn is_made(at: &At<'_>, live: &LiveSet, class: u32) -> bool {
    match at.class_at(class) {
        Some(class) => live.made.as_slice().get(class.name as usize) == Some(&true),
        None => false,
    }
}

/// A virtual or interface call: the type and the key that it names.
#[derive(Clone, Copy)]
struct Call {
    kind: u32,
    key: u32,
}

/// What the look-ups of one method's calls use.
#[derive(Drop)]
struct Search<'a> {
    at: At<'a>,
    live: &'a LiveSet,
    walk: Walk,
    marks: Marks,
}

impl<'a> Search<'a> {
    /// Whether a class is a made one under the named one that finds just this method.
    fn finds(
        &mut self,
        alloc: Global,
        call: Call,
        class: u32,
        target: MethodAt,
    ) -> Result<bool, AllocError> {
        if !is_made(&self.at, self.live, class) {
            return Ok(false);
        }
        let found = find_whole(alloc, &self.at, class, call.key, &mut self.walk)?;
        if found != Some(target) {
            return Ok(false);
        }
        is_under_kind(alloc, &self.at, class, call.kind, &mut self.marks)
    }

    /// Whether one of the classes is a made one under the named one that finds just this method.
    fn one_finds(
        &mut self,
        alloc: Global,
        call: Call,
        classes: &[u32],
        target: MethodAt,
    ) -> Result<bool, AllocError> {
        for class in classes {
            if self.finds(alloc, call, *class, target)? {
                return Ok(true);
            }
        }
        Ok(false)
    }

    /// Whether a made class under the named one finds this method.
    fn is_found(
        &mut self,
        alloc: Global,
        call: Call,
        target: MethodAt,
    ) -> Result<bool, AllocError> {
        if self.finds(alloc, call, target.class, target)? {
            return Ok(true);
        }
        let below = self.at.hierarchy.own_subclasses(alloc, target.class)?;
        self.one_finds(alloc, call, below.as_slice(), target)
    }

    /// Adds what the made classes under the named one find.
    fn add_virtual(
        &mut self,
        alloc: Global,
        call: Call,
        position: u32,
        out: &mut Vec<Edge>,
    ) -> Result<(), AllocError> {
        for class in self.at.hierarchy.definers_of(call.key) {
            if let Some(target) = self
                .at
                .hierarchy
                .own_virtual(self.at.program, *class, call.key)
            {
                if self.is_found(alloc, call, target)? {
                    out.push(Edge { position, target })?;
                }
            }
        }
        Ok(())
    }

    /// The first method along the superclasses of a class.
    fn find_above(&self, caller: u32, key: u32) -> Option<MethodAt> {
        match self.at.hierarchy.super_of(caller) {
            Some(above) => self.at.hierarchy.find_from(above, key),
            None => None,
        }
    }

    /// What the candidates of one interface give.
    fn find_in_interface(
        &mut self,
        alloc: Global,
        interface: u32,
        key: u32,
    ) -> Result<Option<MethodAt>, AllocError> {
        let mut candidates = Vec::new(alloc);
        self.at.hierarchy.candidates_of(
            self.at.program,
            interface,
            key,
            &mut self.walk,
            &mut candidates,
        )?;
        given(&self.at, candidates.as_slice(), &mut self.walk)
    }

    /// What a super call of version 037 finds in a class.
    fn find_super_037(
        &mut self,
        alloc: Global,
        caller: u32,
        call: Call,
    ) -> Result<Option<MethodAt>, AllocError> {
        match self.at.hierarchy.place_of(call.kind) {
            Some(place) if is_interface(&self.at, place) => {
                self.find_in_interface(alloc, place, call.key)
            }
            Some(_) => Ok(self.find_above(caller, call.key)),
            None => {
                let kind = match self.at.class_at(caller) {
                    Some(class) => class.name,
                    None => return Ok(None),
                };
                if lists_above(alloc, &self.at, &mut self.marks, kind, call.kind)? {
                    Ok(None)
                } else {
                    Ok(self.find_above(caller, call.key))
                }
            }
        }
    }

    /// What a super call in a class finds.
    fn find_super(
        &mut self,
        alloc: Global,
        caller: u32,
        call: Call,
    ) -> Result<Option<MethodAt>, AllocError> {
        match self.at.program.version {
            Version::V035 => Ok(self.find_above(caller, call.key)),
            Version::V037 => self.find_super_037(alloc, caller, call),
        }
    }

    /// Adds what one call finds.
    fn add_call(
        &mut self,
        alloc: Global,
        caller: u32,
        kind: InvokeKind,
        method: u32,
        position: u32,
        out: &mut Vec<Edge>,
    ) -> Result<(), AllocError> {
        let call = match self.at.method_name(method) {
            Some(name) => Call {
                kind: name.class,
                key: self.at.hierarchy.key_of_method(method),
            },
            None => return Ok(()),
        };
        let found = match kind {
            InvokeKind::Static | InvokeKind::Direct => self
                .at
                .hierarchy
                .find_static(self.at.program, method),
            InvokeKind::Super => self.find_super(alloc, caller, call)?,
            InvokeKind::Virtual | InvokeKind::Interface => {
                return self.add_virtual(alloc, call, position, out);
            }
        };
        if let Some(target) = found {
            out.push(Edge { position, target })?;
        }
        Ok(())
    }
}

/// The program methods that the calls of a method may find, by position and in file order: what a static, direct or
/// super call finds, and what a made class of `live` under the named class finds for a virtual or interface call, where
/// a class is under another by the program's own lists. The only error is want of memory.
pub fn callees(
    alloc: Global,
    program: &Program,
    hierarchy: &Hierarchy,
    live: &LiveSet,
    method: MethodAt,
) -> Result<Vec<Edge>, AllocError> {
    let mut edges = Vec::new(alloc);
    let at = At { program, hierarchy };
    let body = match at.method_at(method) {
        Some(defined) => match &defined.body {
            Some(body) => body,
            None => return Ok(edges),
        },
        None => return Ok(edges),
    };
    let mut search = Search {
        at,
        live,
        walk: hierarchy.walk(alloc)?,
        marks: Marks::new(alloc, program.types.len())?,
    };
    let mut position: u32 = 0;
    for insn in body.insns.as_slice() {
        if let Insn::Invoke {
            kind,
            method: called,
            ..
        } = insn
        {
            search.add_call(alloc, method.class, *kind, *called, position, &mut edges)?;
        }
        position = position.saturating_add(1);
    }
    Ok(edges)
}
