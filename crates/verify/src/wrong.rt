//! Positions that are wrong whatever the registers hold (this project's profile).

ghost use Rattle.std.specs.Prelude.{◌≡◌, slice_get};
ghost use Rattle.verify.specs.Frames.{kinds_of};
ghost use Rattle.verify.specs.Types.{shape_of};
ghost use Rattle.verify.specs.Wrong.{differ, wrong_item, wrong_access, wrong_first, is_static_call, finds_static, wrong_super, passed_words, wrong_call, is_unmade, wrong_instance, wrong_result, ends_early, is_wrong};

use crate::calls::Search;
use crate::frames::Frame;
use crate::setting::Setting;
use crate::shapes::Shape;
use insn_set::{Insn, InvokeKind, Item, Slot};
use program_model::Flags;

/// Whether a static flag is known and differs from this one.
fn is_other(is_static: bool, found: Option<bool>) -> bool
    ensures { result ≡ differ is_static found }
{
    match found {
        Some(flag) => { if is_static { !flag } else { flag } }
        None => false,
    }
}

/// Whether it is a static call.
fn is_static_call(kind: InvokeKind) -> bool
    ensures { result ≡ is_static_call kind }
{
    matches!(kind, InvokeKind::Static)
}

/// Whether a super call finds a static method.
fn finds_static(found: Search) -> bool
    ensures { result ≡ finds_static found }
{
    match found {
        Search::Finds { is_static, .. } => is_static,
        Search::Nothing => false,
    }
}

impl Setting<'_> {
    /// Whether a form of an item stands at a type of another width.
    fn is_wrong_item(&self, item: Item, kind: u32) -> bool
        ensures { result ≡ wrong_item item (shape_of self.now.tables.now kind) }
    {
        let shape = self.tables.shape(kind);
        match item {
            Item::Wide => !shape.is_wide(),
            Item::Object => !shape.is_reference(),
            _ => shape.is_wide() || shape.is_reference(),
        }
    }

    /// Whether a get or a put of a field is wrong.
    fn is_wrong_access(&self, is_static: bool, item: Item, field: u32) -> bool
        ensures { result ≡ wrong_access self.now is_static item field }
    {
        self.is_wrong_item(item, self.field_kind(field))
            || is_other(is_static, self.is_static_field(field))
    }

    /// Whether a get finds a field that has a text or a type first, and whose type is an array type or a program class
    /// that is no interface.
    fn is_wrong_first(&self, field: u32) -> bool
        ensures { result ≡ wrong_first self.now field }
    {
        let shape = self.tables.shape(self.field_kind(field));
        (shape.is_array() || shape.is_plain()) && self.begins_as_text_or_type(field)
    }

    /// Whether a super call names a constructor or finds a static method.
    fn is_wrong_super(&self, position: u32, kind: InvokeKind, method: u32) -> bool
        ensures { result ≡ wrong_super self.now position kind method }
    {
        match kind {
            InvokeKind::Super => {
                self.tables.is_constructor(method) || finds_static(self.found_at(position))
            }
            _ => false,
        }
    }

    /// How many words a call of a method passes.
    fn passed_words(&self, kind: InvokeKind, method: u32) -> u64
        ensures { result ≡ passed_words self.now kind method }
    {
        let receiver = if is_static_call(kind) { 0 } else { 1 };
        u64::from(self.parameter_words(method)) + receiver
    }

    /// Whether a call is wrong.
    fn is_wrong_call(&self, position: u32, kind: InvokeKind, method: u32, words: usize) -> bool
        ensures { result ≡ wrong_call self.now position kind method words }
    {
        is_other(is_static_call(kind), self.is_static_method(method))
            || self.is_wrong_super(position, kind, method)
            || words as u64 != self.passed_words(kind, method)
    }

    /// Whether the class at a place is abstract or an interface.
    fn is_unmade(&self, class: u32) -> bool
        ensures { result ≡ is_unmade (slice_get self.now.program.now.classes class) }
    {
        match self.program.classes.as_slice().get(class as usize) {
            Some(class) => { class.flags.has(Flags::ABSTRACT) || class.flags.has(Flags::INTERFACE) }
            None => false,
        }
    }

    /// Whether a type can't be made: no class type, or an abstract program class or an interface.
    fn is_wrong_instance(&self, kind: u32) -> bool
        ensures { result ≡ wrong_instance self.now (shape_of self.now.tables.now kind) }
    {
        match self.tables.shape(kind) {
            Shape::Class { place, .. } => match place {
                Some(class) => self.is_unmade(class),
                None => false,
            },
            _ => true,
        }
    }

    /// Whether the method's result type isn't that of a return.
    fn is_wrong_result(&self, slot: Slot) -> bool
        ensures { result ≡ wrong_result slot (shape_of self.now.tables.now self.now.result) }
    {
        let shape = self.tables.shape(self.result);
        match slot {
            Slot::Word => !shape.is_word(),
            Slot::Wide => !shape.is_wide(),
            Slot::Object => !shape.is_reference(),
        }
    }

    /// Whether this is a constructor that returns before another constructor was called on its receiver.
    fn ends_early(&self, frame: &Frame) -> bool
        ensures { result ≡ ends_early self.now (kinds_of frame.now) }
    {
        self.constructs && !frame.receiver.is_initialised()
    }

    /// Whether the position is wrong whatever the registers hold.
    pub fn is_wrong(&self, position: u32, frame: &Frame, insn: &Insn) -> bool
        ensures { result ≡ is_wrong self.now position (kinds_of frame.now) insn.now }
    {
        match insn {
            Insn::ReturnVoid => {
                !self.tables.shape(self.result).is_void() || self.ends_early(frame)
            }
            Insn::Return { slot, .. } => self.is_wrong_result(*slot) || self.ends_early(frame),
            Insn::NewInstance { kind, .. } => self.is_wrong_instance(*kind),
            Insn::NewArray { kind, .. } => !self.tables.shape(*kind).is_array(),
            Insn::FilledNewArray { kind, .. } => !self.tables.is_fillable(*kind),
            Insn::InstanceGet { item, field, .. } | Insn::InstancePut { item, field, .. } => {
                self.is_wrong_access(false, *item, *field)
            }
            Insn::StaticGet { item, field, .. } => {
                self.is_wrong_access(true, *item, *field) || self.is_wrong_first(*field)
            }
            Insn::StaticPut { item, field, .. } => self.is_wrong_access(true, *item, *field),
            Insn::Invoke { kind, method, args } => {
                self.is_wrong_call(position, *kind, *method, args.as_slice().len())
            }
            _ => false,
        }
    }
}
