//! Typings of methods.

ghost use Rattle.std.specs.Prelude.{◌≡◌, ◌≤◌, true, length, slice_get, All, Some, IfNone, IfSome, IfOk, IfErr, OnOk};
ghost use Rattle.std.specs.Option.{option_copied};
ghost use Rattle.verify.specs.Entry.{begun};
ghost use Rattle.verify.specs.Flow.{greatest, places_of};
ghost use Rattle.verify.specs.Typings.{IsShort, IsLeastTyping, kind_before, Refuses as RefusesBody};
ghost use Rattle.verify.specs.Meeting.{IsMeeting};
ghost use Rattle.verify.specs.Names.{parameters_of, result_of};
ghost use Rattle.verify.specs.Methods.{receiver_of, constructs, HasTyping, Refuses, RefusesCode, Types, HasTypings, TypesAt, TypesWith, RefusesAt, RefusesWith, RefusesIn, AllBelow, RefusesFirst, IsFor};
ghost use Rattle.verify.specs.Supers.{Serves};
ghost use Rattle.verify.specs.Frames.{kinds_of};
ghost use Rattle.verify.specs.Faults.{fault_of, fault_at, NoneBreaks};

use crate::calls::{Calls, Scratch, method_at};
use crate::fault::TypeFault;
use crate::flow::{Code, covering};
use crate::frames::Frame;
use crate::kinds::Kind;
use crate::methods::Passed;
use crate::setting::Setting;
use crate::tables::{Tables, word};
use hierarchy::Hierarchy;
use insn_set::Insn;
use program_model::{Body, Class, Flags, Method, MethodAt, Program};
use std::alloc::{AllocError, Global};

/// The kinds of all registers at the positions of one method.
#[derive(Drop)]
pub struct Typings {
    states: Vec<Option<Frame>>,
}

impl Typings {
    /// The kind of a register before the form at a position. It is undefined where the position has no state, since no
    /// walk from the entry reaches it, and past the last position and the last register. It takes no memory.
    #[tactic(auto, using(crate::proofs::Known::known_place))]
    pub fn at(&self, position: u32, register: u32) -> Kind
        ensures { result ≡ kind_before (places_of self.now.states.items) position register }
    {
        match self.states.as_slice().get(position as usize) {
            Some(Some(frame)) => frame.at(register),
            _ => Kind::Undefined,
        }
    }
}

/// The verifier of a program: its tables, made once, serve all its methods.
#[derive(Drop)]
pub struct Verifier<'a> {
    program: &'a Program,
    hierarchy: &'a Hierarchy,
    tables: Tables,
}

impl Setting<'_> {
    /// The lowest register at which a position breaks: 0 where the position is wrong whatever the registers hold.
    pub fn fault(&self, position: u32, frame: &Frame, insn: &Insn) -> Option<u32>
        ensures { result ≡ fault_of self.now position (kinds_of frame.now) insn.now }
    {
        if self.is_wrong(position, frame, insn) {
            Some(0)
        } else {
            self.refused(position, frame, insn)
        }
    }

    /// The lowest register at which a position of a table breaks.
    fn fault_at(&self, insns: &[Insn], states: &[Option<Frame>], position: u32) -> Option<u32>
        ensures { result ≡ fault_at self.now insns.now states.now position }
    {
        let at = position as usize;
        match insns.get(at) {
            Some(insn) => match states.get(at) {
                Some(Some(frame)) => self.fault(position, frame, insn),
                _ => None,
            },
            None => None,
        }
    }

    /// The first of so many positions at which a table breaks, with its register.
    fn first_fault(
        &self,
        insns: &[Insn],
        states: &[Option<Frame>],
        count: u32,
    ) -> Option<(u32, u32)>
        ensures none { IfNone result (NoneBreaks self.now insns.now states.now count) }
        ensures some { IfSome result (λ at. fault_at self.now insns.now states.now at.0 ≡ Some at.1) }
        ensures first { IfSome result (λ at. NoneBreaks self.now insns.now states.now at.0) }
    {
        for position in 0..count {
            if let Some(register) = self.fault_at(insns, states, position) {
                return Some((position, register));
            }
        }
        None
    }
}

/// Whether the positions and regions of a body have numbers of 32 bits.
fn is_short(body: &Body) -> bool
    ensures { result ≡ true → IsShort body.now }
{
    body.insns.len() <= u32::MAX as usize && body.regions.len() <= u32::MAX as usize
}

impl Setting<'_> {
    /// The least typing of a body that is entered with these kinds. `IllTyped` stands where there is none. A body whose
    /// positions have no numbers of 32 bits, which no well-formed program has, is more than memory is asked for.
    fn judge(
        &self,
        alloc: Global,
        method: u32,
        body: &Body,
        passed: &Passed<'_>,
    ) -> Result<Typings, TypeFault>
        requires { IsMeeting self.now.tables.now }
        ensures typed { IfOk result (λ x. IsLeastTyping self.now body.now (begun self.now body.now passed.now.receiver passed.now.kinds.now) (places_of x.states.items)) }
        ensures refused { IfErr result (λ e. RefusesBody self.now body.now (begun self.now body.now passed.now.receiver passed.now.kinds.now) method e) }
    {
        if !is_short(body) {
            return Err(TypeFault::NoMemory);
        }
        let covering = covering(alloc, body)?;
        let code = Code {
            setting: self,
            body,
            covering: covering.as_slice(),
        };
        let entry = self.begin(alloc, body, passed)?;
        let states = code.solve(alloc, entry)?;
        match self.first_fault(
            body.insns.as_slice(),
            states.as_slice(),
            word(body.insns.len()),
        ) {
            Some((position, register)) => Err(TypeFault::IllTyped {
                method,
                position,
                register,
            }),
            None => Ok(Typings { states }),
        }
    }
}

/// The receiver with which a method is entered.
fn receiver_of(class: &Class, at: u32, method: &Method, constructs: bool) -> Option<Kind>
    ensures { result ≡ receiver_of class.now at method.now constructs }
{
    if method.flags.has(Flags::STATIC) {
        None
    } else if constructs {
        Some(Kind::FreshThis)
    } else if class.flags.has(Flags::INTERFACE) {
        Some(Kind::Reference)
    } else {
        Some(Kind::Program { class: at })
    }
}

/// The parameters and the result of a method's proto.
fn proto_of<'b>(program: &'b Program, method: &Method) -> (&'b [u32], u32)
    ensures parameters { result.0.now ≡ parameters_of program.now method.now.name }
    ensures result { result.1 ≡ result_of program.now method.now.name }
{
    let name = match program.methods.as_slice().get(method.name as usize) {
        Some(name) => name,
        None => return (&[], u32::MAX),
    };
    match program.protos.as_slice().get(name.proto as usize) {
        Some(proto) => (proto.parameters.as_slice(), proto.result),
        None => (&[], u32::MAX),
    }
}

impl<'a> Verifier<'a> {
    /// The verifier of a program. The only error is want of memory.
    pub fn make(
        alloc: Global,
        program: &'a Program,
        hierarchy: &'a Hierarchy,
    ) -> Result<Verifier<'a>, AllocError>
        ensures { IfOk result (IsFor program.now hierarchy.now) }
    {
        Ok(Verifier {
            program,
            hierarchy,
            tables: Tables::make(alloc, program, hierarchy)?,
        })
    }

    /// Whether a method is a constructor.
    fn constructs(&self, method: &Method) -> bool
        ensures { result ≡ constructs self.now.tables method.now }
    {
        self.tables.is_constructor(method.name) && !method.flags.has(Flags::STATIC)
    }

    /// The look-up of this program's super calls.
    fn calls(&self) -> Calls<'_>
        ensures program { result.program.now ≡ self.now.program.now }
        ensures hierarchy { result.hierarchy.now ≡ self.now.hierarchy.now }
    {
        Calls {
            program: self.program,
            hierarchy: self.hierarchy,
        }
    }

    /// The typings of the code of a method of a class.
    fn of_body(
        &self,
        alloc: Global,
        scratch: &mut Scratch,
        class: (&Class, u32),
        method: &Method,
        body: &Body,
    ) -> Result<Typings, TypeFault>
        requires { IsMeeting self.now.tables }
        ensures serves { Serves self.now.hierarchy.now scratch.old.walk → OnOk result (Serves self.now.hierarchy.now scratch.new.walk) }
        ensures typed { Serves self.now.hierarchy.now scratch.old.walk → IfOk result (λ x. HasTyping self.now class.entry.0.now class.entry.1 method.now body.now (places_of x.states.items)) }
        ensures refused { Serves self.now.hierarchy.now scratch.old.walk → IfErr result (RefusesCode self.now class.entry.0.now class.entry.1 method.now body.now) }
    {
        let calls = self.calls();
        let found = calls.search_all(alloc, scratch, class.1, body.insns.as_slice())?;
        let (kinds, result) = proto_of(self.program, method);
        let constructs = self.constructs(method);
        let setting = Setting {
            program: self.program,
            hierarchy: self.hierarchy,
            tables: &self.tables,
            class: class.1,
            kind: class.0.name,
            superclass: class.0.superclass,
            result,
            constructs,
            found: found.as_slice(),
        };
        let passed = Passed {
            receiver: receiver_of(class.0, class.1, method, constructs),
            kinds,
        };
        setting.judge(alloc, method.name, body, &passed)
    }

    /// The class at a place.
    fn class_at(&self, place: u32) -> Option<&Class>
        ensures { option_copied result ≡ slice_get self.now.program.now.classes place }
    {
        self.program.classes.as_slice().get(place as usize)
    }

    /// The typings of a method: the least that there are. `IllTyped` stands where there are none. A method without code
    /// has no positions.
    pub fn typings(&self, alloc: Global, method: MethodAt) -> Result<Typings, TypeFault>
        requires { IsMeeting self.now.tables }
        ensures typed { IfOk result (λ x. TypesAt self.now method (places_of x.states.items)) }
        ensures refused { IfErr result (RefusesAt self.now method) }
    {
        let mut scratch = Scratch::new(alloc);
        let class = match self.class_at(method.class) {
            Some(class) => class,
            None => {
                return Ok(Typings {
                    states: Vec::new(alloc),
                });
            }
        };
        let found = match method_at(self.program, method) {
            Some(found) => found,
            None => {
                return Ok(Typings {
                    states: Vec::new(alloc),
                });
            }
        };
        self.of_method(alloc, &mut scratch, (class, method.class), found)
    }

    /// The typings that a method has with a body in place of its own: the least that there are. `IllTyped` stands where
    /// there are none. There are no positions where no method stands at the place.
    pub fn typings_with(
        &self,
        alloc: Global,
        method: MethodAt,
        body: &Body,
    ) -> Result<Typings, TypeFault>
        requires { IsMeeting self.now.tables }
        ensures typed { IfOk result (λ x. TypesWith self.now method body.now (places_of x.states.items)) }
        ensures refused { IfErr result (RefusesWith self.now method body.now) }
    {
        let mut scratch = Scratch::new(alloc);
        let class = match self.class_at(method.class) {
            Some(class) => class,
            None => {
                return Ok(Typings {
                    states: Vec::new(alloc),
                });
            }
        };
        let found = match method_at(self.program, method) {
            Some(found) => found,
            None => {
                return Ok(Typings {
                    states: Vec::new(alloc),
                });
            }
        };
        self.of_body(alloc, &mut scratch, (class, method.class), found, body)
    }

    /// The typings of a method, if it has code.
    fn of_method(
        &self,
        alloc: Global,
        scratch: &mut Scratch,
        class: (&Class, u32),
        method: &Method,
    ) -> Result<Typings, TypeFault>
        requires { IsMeeting self.now.tables }
        ensures serves { Serves self.now.hierarchy.now scratch.old.walk → OnOk result (Serves self.now.hierarchy.now scratch.new.walk) }
        ensures typed { Serves self.now.hierarchy.now scratch.old.walk → IfOk result (λ x. Types self.now class.entry.0.now class.entry.1 method.now (places_of x.states.items)) }
        ensures refused { Serves self.now.hierarchy.now scratch.old.walk → IfErr result (Refuses self.now class.entry.0.now class.entry.1 method.now) }
    {
        match &method.body {
            Some(body) => self.of_body(alloc, scratch, class, method, body),
            None => Ok(Typings {
                states: Vec::new(alloc),
            }),
        }
    }

    /// Refuses the first method of a class that is ill typed.
    fn verify_class(
        &self,
        alloc: Global,
        scratch: &mut Scratch,
        class: &Class,
        at: u32,
    ) -> Result<(), TypeFault>
        requires { IsMeeting self.now.tables }
        ensures serves { Serves self.now.hierarchy.now scratch.old.walk → OnOk result (Serves self.now.hierarchy.now scratch.new.walk) }
        ensures typed { Serves self.now.hierarchy.now scratch.old.walk → OnOk result (All (HasTypings self.now class.now at) class.now.methods) }
        ensures refused { Serves self.now.hierarchy.now scratch.old.walk → IfErr result (RefusesIn self.now class.now at) }
    {
        for method in class.methods.as_slice() {
            match self.of_method(alloc, scratch, (class, at), method) {
                Ok(_typings) => {}
                Err(fault) => return Err(fault),
            }
        }
        Ok(())
    }

    /// Refuses the first method, in class and method order, that is ill typed.
    pub fn verify_all(&self, alloc: Global) -> Result<(), TypeFault>
        requires { IsMeeting self.now.tables }
        ensures typed { OnOk result (length self.now.program.now.classes ≤ greatest → AllBelow self.now (length self.now.program.now.classes)) }
        ensures refused { IfErr result (λ e. length self.now.program.now.classes ≤ greatest → RefusesFirst self.now e) }
    {
        let mut scratch = Scratch::new(alloc);
        let mut at: u32 = 0;
        for class in self.program.classes.as_slice() {
            match self.verify_class(alloc, &mut scratch, class, at) {
                Ok(()) => {}
                Err(fault) => return Err(fault),
            }
            at = at.saturating_add(1);
        }
        Ok(())
    }
}
