//! What a form leaves in the registers (Dalvik bytecode, "Summary of bytecode set").

ghost use Rattle.std.specs.Prelude.{◌≡◌};
ghost use Rattle.verify.specs.Frames.{kinds_of};
ghost use Rattle.verify.specs.After.{constant_kind, moved, got_object, got, constructed, receiver_register, begun_call, called, called_by, after_typed, after};

use crate::frames::Frame;
use crate::kinds::{Kind, number_kind};
use crate::setting::Setting;
use insn_set::{Insn, InvokeKind, Item, Slot};

/// The kind of a constant.
fn constant_kind(value: i32) -> Kind
    ensures { result ≡ constant_kind value }
{
    if value == 0 { Kind::Zero } else { Kind::Word }
}

/// The kind of what is moved.
fn moved(slot: Slot, kind: Kind) -> Kind
    ensures { result ≡ moved slot kind }
{
    match slot {
        Slot::Wide => Kind::WideLow,
        _ => kind,
    }
}

/// The register of a call's receiver.
fn receiver_register(arguments: &[u16]) -> u16
    ensures { result ≡ receiver_register arguments.now }
{
    match arguments.first() {
        Some(register) => *register,
        None => 0,
    }
}

impl Setting<'_> {
    /// The kind of an item that is got from an array. An object that is got from null is null.
    fn got(&self, item: Item, array: Kind) -> Kind
        ensures { result ≡ got self.now.tables.now item array }
    {
        match item {
            Item::Object => self.got_object(array),
            _ => number_kind(item.is_wide()),
        }
    }

    /// The kind of an object that is got from an array.
    fn got_object(&self, array: Kind) -> Kind
        ensures { result ≡ got_object self.now.tables.now array }
    {
        match array {
            Kind::Array { depth, item } => self.tables.kind_of_item(depth, item),
            _ => Kind::Null,
        }
    }

    /// A constructor makes an object initialised, in every register that holds it.
    fn construct(&self, kind: Kind, frame: &mut Frame)
        ensures { kinds_of frame.new ≡ constructed self.now.tables.now self.now.kind kind (kinds_of frame.old) }
    {
        match kind {
            Kind::Fresh { class, .. } => frame.replace(kind, self.tables.kind_of(class)),
            Kind::FreshThis => frame.replace(kind, self.own_kind()),
            _ => {}
        }
    }

    /// A call of a constructor makes its receiver initialised.
    fn begin_call(&self, method: u32, arguments: &[u16], frame: &mut Frame)
        ensures { kinds_of frame.new ≡ begun_call self.now.tables.now self.now.kind method arguments.now (kinds_of frame.old) }
    {
        if self.tables.is_constructor(method) {
            let kind = frame.of(receiver_register(arguments));
            self.construct(kind, frame);
        }
    }

    /// A call leaves its result in its place.
    fn call(&self, method: u32, arguments: &[u16], frame: &mut Frame)
        ensures { kinds_of frame.new ≡ called self.now.program.now self.now.tables.now self.now.kind method arguments.now (kinds_of frame.old) }
    {
        self.begin_call(method, arguments, frame);
        frame.leave(self.tables.kind_of(self.result_of(method)));
    }

    /// A call of a kind: a static one has no receiver, whatever its name.
    fn call_by(&self, kind: InvokeKind, method: u32, arguments: &[u16], frame: &mut Frame)
        ensures { kinds_of frame.new ≡ called_by kind self.now.program.now self.now.tables.now self.now.kind method arguments.now (kinds_of frame.old) }
    {
        match kind {
            InvokeKind::Static => frame.leave(self.tables.kind_of(self.result_of(method))),
            _ => self.call(method, arguments, frame),
        }
    }

    /// The forms that write what another place holds or what a type says.
    fn write_typed(&self, position: u32, insn: &Insn, frame: &mut Frame)
        ensures { kinds_of frame.new ≡ after_typed self.now.program.now self.now.tables.now self.now.kind position insn.now (kinds_of frame.old) }
    {
        match insn {
            Insn::CheckCast { on, kind } => frame.write(*on, self.tables.cast_kind(*kind)),
            Insn::NewInstance { to, kind } => {
                frame.forget(position);
                frame.write(
                    *to,
                    Kind::Fresh {
                        class: *kind,
                        position,
                    },
                );
            }
            Insn::NewArray { to, kind, .. } => frame.write(*to, self.tables.kind_of(*kind)),
            Insn::FilledNewArray { kind, .. } => frame.leave(self.tables.kind_of(*kind)),
            Insn::ArrayGet {
                item,
                to,
                array,
                ..
            } => {
                let kind = self.got(*item, frame.of(*array));
                frame.write(*to, kind);
            }
            Insn::InstanceGet { to, field, .. } | Insn::StaticGet { to, field, .. } => {
                frame.write(*to, self.tables.kind_of(self.field_kind(*field)));
            }
            Insn::Invoke { kind, method, args } => {
                self.call_by(*kind, *method, args.as_slice(), frame)
            }
            _ => {}
        }
    }

    /// Changes the kinds before a form to those after it, where it doesn't throw.
    pub fn apply(&self, position: u32, insn: &Insn, frame: &mut Frame)
        ensures { kinds_of frame.new ≡ after self.now.program.now self.now.tables.now self.now.kind position insn.now (kinds_of frame.old) }
    {
        match insn {
            Insn::Move { slot, to, from } => {
                let kind = moved(*slot, frame.of(*from));
                frame.write(*to, kind);
            }
            Insn::MoveResult { to, .. } => {
                let kind = frame.result;
                frame.write(*to, kind);
            }
            Insn::MoveException { to } => {
                let kind = frame.caught;
                frame.write(*to, kind);
            }
            Insn::Const { to, value } => frame.write(*to, constant_kind(*value)),
            Insn::ConstWide { to, .. } => frame.write(*to, Kind::WideLow),
            Insn::ConstString { to, .. } | Insn::ConstClass { to, .. } => frame.write(
                *to,
                Kind::Reference,
            ),
            Insn::InstanceOf { to, .. }
            | Insn::ArrayLength { to, .. }
            | Insn::Cmp { to, .. }
            | Insn::Literal { to, .. } => frame.write(*to, Kind::Word),
            Insn::Unary { op, to, .. } => frame.write(*to, number_kind(op.writes_wide())),
            Insn::Binary { op, to, .. } => frame.write(*to, number_kind(op.is_wide())),
            _ => self.write_typed(position, insn, frame),
        }
    }
}
