//! Which reads of a form aren't allowed (Dalvik bytecode, "Summary of bytecode set").

ghost use Rattle.std.specs.Prelude.{◌≡◌, drop};
ghost use Rattle.verify.specs.Frames.{kinds_of};
ghost use Rattle.verify.specs.Reads.{refused_word, refused_wide, refused_argument, behind, refused_arguments, fits_search, is_receiver, refused_received, refused_call, refused_items, refused_array, refused_named, refused_several, refused_single, refused};

use crate::calls::Search;
use crate::frames::Frame;
use crate::kinds::Kind;
use crate::operands::{
    is_any_array, is_item, is_movable, is_number_or_pair, is_result, is_tested, is_tested_with,
    lower, unless,
};
use crate::setting::Setting;
use insn_set::{Insn, InvokeKind, Item};

/// The registers without so many at the front.
fn without(registers: &[u16], count: usize) -> &[u16]
    ensures { result.now ≡ drop count registers.now }
{
    if count <= registers.len() {
        &registers[count..]
    } else {
        &[]
    }
}

/// The lowest register of a wide argument whose read isn't allowed: its second register stands behind the first.
fn refused_wide(frame: &Frame, arguments: &[u16]) -> Option<u32>
    ensures { result ≡ refused_wide (kinds_of frame.now).registers arguments.now }
{
    match arguments {
        [one, second, ..] => lower(
            unless(frame.is_pair(*one), *one),
            unless(u32::from(*second) == u32::from(*one) + 1, *second),
        ),
        [one] => unless(frame.is_pair(*one), *one),
        _ => None,
    }
}

impl Setting<'_> {
    /// The register of an argument of one register whose read isn't allowed.
    fn refused_word(&self, frame: &Frame, kind: u32, arguments: &[u16]) -> Option<u32>
        ensures { result ≡ refused_word self.now (kinds_of frame.now).registers kind arguments.now }
    {
        match arguments {
            [one, ..] => unless(self.tables.fits(frame.of(*one), kind), *one),
            _ => None,
        }
    }

    /// The register of the next argument whose read isn't allowed.
    fn refused_argument(&self, frame: &Frame, kind: u32, arguments: &[u16]) -> Option<u32>
        ensures { result ≡ refused_argument self.now (kinds_of frame.now).registers kind arguments.now }
    {
        if self.tables.shape(kind).is_wide() {
            refused_wide(frame, arguments)
        } else {
            self.refused_word(frame, kind, arguments)
        }
    }

    /// The arguments behind the next one.
    fn behind<'b>(&self, kind: u32, arguments: &'b [u16]) -> &'b [u16]
        ensures { result.now ≡ behind self.now kind arguments.now }
    {
        if self.tables.shape(kind).is_wide() {
            without(arguments, 2)
        } else {
            without(arguments, 1)
        }
    }

    /// The lowest register of some arguments whose read isn't allowed, by the types of what is passed.
    fn refused_arguments(&self, frame: &Frame, kinds: &[u32], arguments: &[u16]) -> Option<u32>
        ensures { result ≡ refused_arguments self.now (kinds_of frame.now).registers kinds.now arguments.now }
    {
        let mut rest = arguments;
        let mut refused = None;
        for kind in kinds {
            refused = lower(refused, self.refused_argument(frame, *kind, rest));
            rest = self.behind(*kind, rest);
        }
        refused
    }

    /// Whether a kind fits the class of the method that a super call finds.
    fn fits_found(&self, kind: Kind, found: Search) -> bool
        ensures { result ≡ fits_search self.now kind found }
    {
        match found {
            Search::Nothing => true,
            Search::Finds { class, .. } => self.tables.fits(kind, class),
        }
    }

    /// Whether a register may be the receiver of a call.
    fn is_receiver(
        &self,
        position: u32,
        frame: &Frame,
        kind: InvokeKind,
        method: u32,
        register: u16,
    ) -> bool
        ensures { result ≡ is_receiver self.now position (kinds_of frame.now).registers kind method register }
    {
        let class = self.method_class(method);
        let holds = frame.of(register);
        match kind {
            InvokeKind::Super => {
                self.tables.fits(holds, class) && self.fits_found(holds, self.found_at(position))
            }
            _ => {
                if self.tables.is_constructor(method) {
                    self.is_constructed(holds, class)
                } else {
                    self.tables.fits(holds, class)
                }
            }
        }
    }

    /// The lowest register of a call with a receiver whose read isn't allowed.
    fn refused_received(
        &self,
        position: u32,
        frame: &Frame,
        kind: InvokeKind,
        method: u32,
        arguments: &[u16],
    ) -> Option<u32>
        ensures { result ≡ refused_received self.now position (kinds_of frame.now).registers kind method arguments.now }
    {
        match arguments {
            [receiver, rest @ ..] => lower(
                unless(
                    self.is_receiver(position, frame, kind, method, *receiver),
                    *receiver,
                ),
                self.refused_arguments(frame, self.parameters(method), rest),
            ),
            _ => None,
        }
    }

    /// The lowest register of a call whose read isn't allowed.
    fn refused_call(
        &self,
        position: u32,
        frame: &Frame,
        kind: InvokeKind,
        method: u32,
        arguments: &[u16],
    ) -> Option<u32>
        ensures { result ≡ refused_call self.now position (kinds_of frame.now).registers kind method arguments.now }
    {
        match kind {
            InvokeKind::Static => self.refused_arguments(frame, self.parameters(method), arguments),
            _ => self.refused_received(position, frame, kind, method, arguments),
        }
    }

    /// The lowest register that doesn't fit the items of a new array.
    fn refused_items(&self, frame: &Frame, kind: u32, arguments: &[u16]) -> Option<u32>
        ensures { result ≡ refused_items self.now (kinds_of frame.now).registers kind arguments.now }
    {
        let mut refused = None;
        for register in arguments {
            let fits = self.tables.fits_item(frame.of(*register), kind);
            refused = lower(refused, unless(fits, *register));
        }
        refused
    }

    /// The lowest register of a get or put of an array's item whose read isn't allowed.
    fn refused_array(&self, frame: &Frame, item: Item, array: u16, index: u16) -> Option<u32>
        ensures { result ≡ refused_array self.now (kinds_of frame.now).registers item array index }
    {
        lower(
            unless(self.is_array_of(frame.of(array), item), array),
            unless(frame.of(index).is_number(), index),
        )
    }

    /// The lowest register whose read isn't allowed, of a put of a field, a filled array and a call.
    fn refused_named(&self, position: u32, frame: &Frame, insn: &Insn) -> Option<u32>
        ensures { result ≡ refused_named self.now position (kinds_of frame.now).registers insn.now }
    {
        match insn {
            Insn::InstancePut {
                from,
                on,
                field,
                ..
            } => lower(
                unless(
                    self.is_of_type(frame, *from, self.field_kind(*field)),
                    *from,
                ),
                unless(self.is_holder(frame.of(*on), *field), *on),
            ),
            Insn::FilledNewArray { kind, args } => {
                self.refused_items(frame, *kind, args.as_slice())
            }
            Insn::Invoke { kind, method, args } => {
                self.refused_call(position, frame, *kind, *method, args.as_slice())
            }
            _ => None,
        }
    }

    /// The lowest register whose read isn't allowed, of the forms with several operands, or that name a member or a type.
    fn refused_several(&self, position: u32, frame: &Frame, insn: &Insn) -> Option<u32>
        ensures { result ≡ refused_several self.now position (kinds_of frame.now).registers insn.now }
    {
        match insn {
            Insn::Cmp { op, a, b, .. } => lower(
                unless(is_number_or_pair(op.compares_wide(), frame, *a), *a),
                unless(is_number_or_pair(op.compares_wide(), frame, *b), *b),
            ),
            Insn::If { test, a, b, .. } => lower(
                unless(is_tested(*test, frame.of(*a)), *a),
                unless(is_tested_with(*test, frame.of(*a), frame.of(*b)), *b),
            ),
            Insn::Binary { op, a, b, .. } => lower(
                unless(is_number_or_pair(op.is_wide(), frame, *a), *a),
                unless(is_number_or_pair(op.second_is_wide(), frame, *b), *b),
            ),
            Insn::ArrayGet {
                item,
                array,
                index,
                ..
            } => self.refused_array(frame, *item, *array, *index),
            Insn::ArrayPut {
                item,
                from,
                array,
                index,
            } => lower(
                unless(is_item(*item, frame, *from), *from),
                self.refused_array(frame, *item, *array, *index),
            ),
            _ => self.refused_named(position, frame, insn),
        }
    }

    /// The lowest register whose read isn't allowed, of the forms with one operand that isn't to be any object.
    fn refused_single(&self, position: u32, frame: &Frame, insn: &Insn) -> Option<u32>
        ensures { result ≡ refused_single self.now position (kinds_of frame.now).registers insn.now }
    {
        match insn {
            Insn::ArrayLength { from, .. } => unless(is_any_array(frame.of(*from)), *from),
            Insn::NewArray { size, .. } => unless(frame.of(*size).is_number(), *size),
            Insn::FillArray { on, width, .. } => unless(
                self.is_array_filled(frame.of(*on), *width),
                *on,
            ),
            Insn::PackedSwitch { on, .. } | Insn::SparseSwitch { on, .. } => unless(
                frame.of(*on).is_number(),
                *on,
            ),
            Insn::IfZero { test, a, .. } => unless(is_tested(*test, frame.of(*a)), *a),
            Insn::Literal { a, .. } => unless(frame.of(*a).is_number(), *a),
            Insn::Unary { op, from, .. } => unless(
                is_number_or_pair(op.reads_wide(), frame, *from),
                *from,
            ),
            Insn::InstanceGet { on, field, .. } => unless(
                self.tables
                    .fits_holder(frame.of(*on), self.field_class(*field)),
                *on,
            ),
            Insn::StaticPut { from, field, .. } => unless(
                self.is_of_type(frame, *from, self.field_kind(*field)),
                *from,
            ),
            _ => self.refused_several(position, frame, insn),
        }
    }

    /// The lowest register whose read isn't allowed; for the place of the last result, or that of the caught object, it
    /// is the register that the form writes.
    pub fn refused(&self, position: u32, frame: &Frame, insn: &Insn) -> Option<u32>
        ensures { result ≡ refused self.now position (kinds_of frame.now) insn.now }
    {
        match insn {
            Insn::Move { slot, from, .. } => unless(is_movable(*slot, frame, *from), *from),
            Insn::MoveResult { slot, to } => unless(is_result(*slot, frame.result), *to),
            Insn::MoveException { to } => unless(frame.caught.is_initialised(), *to),
            Insn::Return { from, .. } => unless(self.is_of_type(frame, *from, self.result), *from),
            Insn::MonitorEnter { on }
            | Insn::MonitorExit { on }
            | Insn::CheckCast { on, .. }
            | Insn::Throw { on } => unless(frame.of(*on).is_initialised(), *on),
            Insn::InstanceOf { from, .. } => unless(frame.of(*from).is_initialised(), *from),
            _ => self.refused_single(position, frame, insn),
        }
    }
}
