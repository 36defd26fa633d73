//! Which moves of the framework are legal.

ghost use Rattle.std.specs.Prelude.{◌≡◌, ◌<◌, ◌∷◌, ◌++◌, ◌&&◌, ◌||◌, not, nat_eq, ℕ, List, length, map, slice_get, Bool, Option, Some, IfOk, OnOk};
ghost use Rattle.std.specs.Option.{option_and_then, option_copied, option_map};
ghost use Rattle.dalvik_defs.specs.Face.{is_concrete, is_plain_class, Place};
ghost use Rattle.dalvik_defs.specs.Find.{Found};
ghost use Rattle.dalvik_defs.specs.Gives.{all_fit, fits};
ghost use Rattle.dalvik_defs.specs.Legal.{answers_kept, calls_back, may_reach, on_fits, receiver_ok};
ghost use Rattle.dalvik_defs.specs.Naming.{field_at, method_at};
ghost use Rattle.dalvik_defs.specs.Outcome.{passed_types};
ghost use Rattle.dalvik_defs.specs.Outer.{methods_in, outer_of};
ghost use Rattle.dalvik_defs.specs.State.{World as NamedWorld};
ghost use Rattle.dalvik_defs.specs.declared.state.Value.{Value};
ghost use Rattle.dalvik_defs.specs.declared.script.Given.{Given};
ghost use Rattle.dalvik_lookups.specs.Playing.{IsGift};
ghost use Rattle.dalvik_lookups.specs.Walks.{IsKept};
ghost use Rattle.dalvik_state.specs.Drafts.{given_world};
ghost use Rattle.dalvik_state.specs.Giving.{finds_at, passed_numbers, receiver_numbers, AreTakenFrom, IsTakenFrom, IsFieldAt, IsGiven, IsGivenFine, OnTaken};
ghost use Rattle.dalvik_state.specs.Runs.{IsReach};
ghost use Rattle.dalvik_state.specs.States.{AreFineKinds, IsFineKind};
ghost use Rattle.dalvik_state.specs.Views.{names_in, value_of};
ghost use Rattle.name_bridge.specs.Named.{found_at};
ghost use Rattle.program_model.specs.Lookups as look;
ghost use Rattle.program_model.specs.MemberRules.{is_direct};
ghost use Rattle.class_defs.specs.Members.{is_common};
ghost use Rattle.program_model.specs.declared.pass.Outside.{Outside};
ghost use Rattle.program_model.specs.declared.pools.MethodName.{MethodName};
ghost use Rattle.program_model.specs.declared.pools.Proto.{Proto};
ghost use Rattle.dalvik_defs.specs.Names.{Text};
ghost use Rattle.dalvik_lookups.specs.Facing.{place_at, run_face};
ghost use Rattle.dalvik_lookups.specs.Tables.{kind_in, place_named, IsRight};
ghost use Rattle.dalvik_lookups.specs.Views.{type_text, IsKind};
ghost use Rattle.program_model.specs.declared.program.Class.{Class};

use crate::datum::Datum;
use crate::gifts::{Gifts, Taken, fits};
use crate::state::Tables;
use crate::world::World;
use dalvik_lookups::{FieldAt, Gift, Kind, Memo, Search};
use program_model::{Field, Flags, Method, MethodAt, MethodName, Proto};
use std::alloc::{AllocError, Global};

impl<'a> Tables<'a> {
    /// Whether a type is a program class that is no interface.
    #[tactic(auto, using(crate::proofs::Faced::plain_none, crate::proofs::Faced::plain_some))]
    pub fn is_plain_class(&self, kind: Kind) -> bool
        ensures { IsRight self.now.lookups → IsKind self.now.lookups.types kind → result ≡ is_plain_class (run_face self.now.lookups) (type_text self.now.lookups.types kind) }
    {
        match self.lookups.class_at(kind) {
            Some(class) => !self.lookups.has_flag(class, Flags::INTERFACE),
            None => false,
        }
    }

    /// Whether a class can have objects: it is neither an interface nor abstract.
    pub fn is_concrete(&self, class: u32) -> bool
        ensures { (t : Text) → IsRight self.now.lookups → place_named self.now.lookups.program.now t ≡ Some class → result ≡ is_concrete (run_face self.now.lookups) t }
    {
        if self.lookups.has_flag(class, Flags::INTERFACE) {
            return false;
        }
        !self.lookups.has_flag(class, Flags::ABSTRACT)
    }

    /// The field at a place of a class.
    pub fn field_at(&self, class: u32, place: u32) -> Option<&'a Field>
        ensures { option_copied result ≡ option_and_then (λ (c : Class). slice_get c.fields place) (slice_get self.now.lookups.program.now.classes class) }
    {
        match self.lookups.class(class) {
            Some(defined) => defined.fields.as_slice().get(place as usize),
            None => None,
        }
    }

    /// What a proto number names.
    fn proto(&self, proto: u32) -> Option<&'a Proto>
        ensures { option_copied result ≡ slice_get self.now.lookups.program.now.protos proto }
    {
        self.lookups.program.protos.as_slice().get(proto as usize)
    }

    /// What a method number names.
    fn method_name(&self, method: u32) -> Option<&'a MethodName>
        ensures { option_copied result ≡ slice_get self.now.lookups.program.now.methods method }
    {
        self.lookups.program.methods.as_slice().get(method as usize)
    }

    /// Adds the types of type numbers.
    fn add_kinds(&self, numbers: &[u32], kinds: &mut Vec<Kind>) -> Result<(), AllocError>
        ensures { OnOk result (kinds.new.items ≡ kinds.old.items ++ map (kind_in self.now.lookups.kinds.items) numbers.now) }
    {
        for number in numbers {
            kinds.push(self.lookups.kind(*number))?;
        }
        Ok(())
    }

    /// Adds the types of the parameters of a proto number, none where there is no such proto.
    fn add_parameters(&self, proto: u32, kinds: &mut Vec<Kind>) -> Result<(), AllocError>
        ensures { (q : Proto) → slice_get self.now.lookups.program.now.protos proto ≡ Some q → OnOk result (kinds.new.items ≡ kinds.old.items ++ map (kind_in self.now.lookups.kinds.items) q.parameters) }
    {
        match self.proto(proto) {
            Some(named) => self.add_kinds(named.parameters.as_slice(), kinds),
            None => Ok(()),
        }
    }

    /// Adds the type of a receiver of a class, unless what is called is static.
    fn add_receiver(
        &self,
        class: u32,
        is_static: bool,
        kinds: &mut Vec<Kind>,
    ) -> Result<(), AllocError>
        ensures { OnOk result (kinds.new.items ≡ kinds.old.items ++ map (kind_in self.now.lookups.kinds.items) (receiver_numbers is_static class)) }
    {
        if is_static {
            return Ok(());
        }
        kinds.push(self.lookups.kind(class))?;
        Ok(())
    }

    /// The types of what a call passes of the methods of a name, the receiver's first unless it is static.
    fn kinds_of_name(
        &self,
        alloc: Global,
        name: &MethodName,
        is_static: bool,
    ) -> Result<Vec<Kind>, AllocError>
        ensures { (q : Proto) → slice_get self.now.lookups.program.now.protos name.now.proto ≡ Some q → IfOk result (λ kinds. kinds.items ≡ map (kind_in self.now.lookups.kinds.items) (passed_numbers is_static name.now q)) }
    {
        let mut kinds = Vec::new(alloc);
        self.add_receiver(name.class, is_static, &mut kinds)?;
        self.add_parameters(name.proto, &mut kinds)?;
        Ok(kinds)
    }

    /// The types of what a call of a method number passes, the receiver's first unless it is static.
    pub fn passed_kinds(
        &self,
        alloc: Global,
        method: u32,
        is_static: bool,
    ) -> Result<Vec<Kind>, AllocError>
        ensures named { IsRight self.now.lookups → method < length self.now.lookups.program.now.methods → IfOk result (λ kinds. map (type_text self.now.lookups.types) kinds.items ≡ passed_types is_static (method_at self.now.lookups.program.now method)) }
        ensures fine { IsRight self.now.lookups → method < length self.now.lookups.program.now.methods → IfOk result (λ kinds. AreFineKinds self.now.lookups kinds.items) }
    {
        match self.method_name(method) {
            Some(name) => self.kinds_of_name(alloc, name, is_static),
            None => Ok(Vec::new(alloc)),
        }
    }

    /// The type of the result of a proto number, `Ljava/lang/Object;` where there is no such proto.
    fn proto_result(&self, proto: u32) -> Kind
        ensures { (q : Proto) → slice_get self.now.lookups.program.now.protos proto ≡ Some q → result ≡ kind_in self.now.lookups.kinds.items q.result }
    {
        match self.proto(proto) {
            Some(named) => self.lookups.kind(named.result),
            None => Kind::plain(dalvik_lookups::known::OBJECT),
        }
    }

    /// The type of a method number's result.
    pub fn result_kind(&self, method: u32) -> Kind
        ensures named { IsRight self.now.lookups → method < length self.now.lookups.program.now.methods → type_text self.now.lookups.types result ≡ (method_at self.now.lookups.program.now method).signature.result }
        ensures fine { IsRight self.now.lookups → method < length self.now.lookups.program.now.methods → IsFineKind self.now.lookups result }
    {
        match self.method_name(method) {
            Some(name) => self.proto_result(name.proto),
            None => Kind::plain(dalvik_lookups::known::OBJECT),
        }
    }
}

/// The type at a place.
fn kind_at(kinds: &[Kind], place: usize) -> Option<Kind>
    ensures { result ≡ slice_get kinds.now place }
{
    match kinds.get(place) {
        Some(kind) => Some(*kind),
        None => None,
    }
}

/// Whether there are as many values as types.
fn as_many(values: &[(Gift, Taken)], kinds: &[Kind]) -> bool
    ensures { result ≡ nat_eq (length values.now) (length kinds.now) }
{
    values.len() == kinds.len()
}

/// Whether a value may be given, and fits the type at a place.
fn fits_at(
    tables: &Tables<'_>,
    memo: &mut Memo,
    world: &World,
    gifts: &Gifts,
    value: (Gift, Taken),
    kinds: &[Kind],
    place: usize,
) -> Result<bool, AllocError>
    ensures kept { IsRight tables.now.lookups → IsKept tables.now.lookups memo.old → IsGiven tables.now.lookups world.now gifts.now → AreFineKinds tables.now.lookups kinds.now → IsKept tables.now.lookups memo.new }
    ensures is { (o : Outside) (before : NamedWorld) (g : Given) (k : Kind) → IsRight tables.now.lookups → IsKept tables.now.lookups memo.old → IsGiven tables.now.lookups world.now gifts.now → IsTakenFrom tables.now.lookups o world.now before gifts.now g value → AreFineKinds tables.now.lookups kinds.now → slice_get kinds.now place ≡ Some k
        → IfOk result (λ b. b ≡ fits (run_face tables.now.lookups) (outer_of tables.now.lookups.program.now o) before (given_world (names_in tables.now.lookups) world.now gifts.now) g (value_of (names_in tables.now.lookups) value.1.datum) (type_text tables.now.lookups.types k)) }
{
    match kind_at(kinds, place) {
        Some(kind) => fits(tables, memo, world, gifts, value, kind),
        None => Ok(false),
    }
}

/// The value at a place.
fn value_at(values: &[(Gift, Taken)], place: usize) -> Option<(Gift, Taken)>
    ensures { result ≡ slice_get values.now place }
{
    match values.get(place) {
        Some(value) => Some(*value),
        None => None,
    }
}

/// Whether the value at a place may be given, and fits the type there.
fn fits_in(
    tables: &Tables<'_>,
    memo: &mut Memo,
    world: &World,
    gifts: &Gifts,
    values: &[(Gift, Taken)],
    kinds: &[Kind],
    place: usize,
) -> Result<bool, AllocError>
    ensures kept { IsRight tables.now.lookups → IsKept tables.now.lookups memo.old → IsGiven tables.now.lookups world.now gifts.now → AreFineKinds tables.now.lookups kinds.now → IsKept tables.now.lookups memo.new }
    ensures is { (o : Outside) (before : NamedWorld) (g : Given) (v : Gift × Taken) (k : Kind) → IsRight tables.now.lookups → IsKept tables.now.lookups memo.old → IsGiven tables.now.lookups world.now gifts.now → slice_get values.now place ≡ Some v → IsTakenFrom tables.now.lookups o world.now before gifts.now g v → AreFineKinds tables.now.lookups kinds.now → slice_get kinds.now place ≡ Some k
        → IfOk result (λ b. b ≡ fits (run_face tables.now.lookups) (outer_of tables.now.lookups.program.now o) before (given_world (names_in tables.now.lookups) world.now gifts.now) g (value_of (names_in tables.now.lookups) v.1.datum) (type_text tables.now.lookups.types k)) }
{
    match value_at(values, place) {
        Some(value) => fits_at(tables, memo, world, gifts, value, kinds, place),
        None => Ok(true),
    }
}

/// Whether every value may be given and fits its type, and there are as many values as types.
pub fn all_fit(
    tables: &Tables<'_>,
    memo: &mut Memo,
    world: &World,
    gifts: &Gifts,
    values: &[(Gift, Taken)],
    kinds: &[Kind],
) -> Result<bool, AllocError>
    ensures kept { IsRight tables.now.lookups → IsKept tables.now.lookups memo.old → IsGiven tables.now.lookups world.now gifts.now → AreFineKinds tables.now.lookups kinds.now → IsKept tables.now.lookups memo.new }
    ensures is { (o : Outside) (before : NamedWorld) (gs : List Given) → IsRight tables.now.lookups → IsKept tables.now.lookups memo.old → IsGiven tables.now.lookups world.now gifts.now → AreTakenFrom tables.now.lookups o world.now before gifts.now gs values.now → AreFineKinds tables.now.lookups kinds.now
        → IfOk result (λ b. b ≡ all_fit (run_face tables.now.lookups) (outer_of tables.now.lookups.program.now o) before (given_world (names_in tables.now.lookups) world.now gifts.now) gs (map (λ t. value_of (names_in tables.now.lookups) t.1.datum) values.now) (map (type_text tables.now.lookups.types) kinds.now)) }
{
    if !as_many(values, kinds) {
        return Ok(false);
    }
    for place in 0..values.len() {
        let fit = fits_in(tables, memo, world, gifts, values, kinds, place)?;
        if !fit {
            return Ok(false);
        }
    }
    Ok(true)
}

/// Whether a search finds the method at a place.
fn finds(found: Search, at: MethodAt) -> bool
    ensures { result ≡ finds_at at found }
{
    match found {
        Search::Finds(one) => one.class == at.class && one.place == at.place,
        Search::Nothing | Search::Clash => false,
    }
}

/// Whether a method may be called back at all: it is virtual and not shut.
fn may_call_back(tables: &Tables<'_>, method: &Method) -> bool
    ensures { (o : Outside) → IsRight tables.now.lookups → IsReach tables.now.lookups o → method.now.name < length tables.now.lookups.program.now.methods → result ≡ (not (is_direct tables.now.lookups.program.now method.now) && not (methods_in tables.now.lookups.program.now o.shut (method_at tables.now.lookups.program.now method.now.name))) }
{
    tables.lookups.is_virtual(method) && !tables.lookups.outer.is_shut(method.name)
}

/// Whether a class has an ancestor of the framework other than `Ljava/lang/Object;`.
fn is_outward(tables: &Tables<'_>, memo: &mut Memo, receiver: Kind) -> Result<bool, AllocError>
    ensures kept { IsRight tables.now.lookups → IsKept tables.now.lookups memo.old → IsKept tables.now.lookups memo.new }
    ensures is { IsRight tables.now.lookups → IsKept tables.now.lookups memo.old → IsKind tables.now.lookups.types receiver → IfOk result (λ b. b ≡ (run_face tables.now.lookups).outward (type_text tables.now.lookups.types receiver)) }
{
    match tables.lookups.class_at(receiver) {
        Some(class) => { tables.lookups.is_outward(memo, class) }
        None => Ok(false),
    }
}

/// Whether a class has an ancestor of the framework other than `Ljava/lang/Object;`, or every object answers to the
/// method.
fn reaches_out(
    tables: &Tables<'_>,
    memo: &mut Memo,
    receiver: Kind,
    method: u32,
) -> Result<bool, AllocError>
    ensures kept { IsRight tables.now.lookups → IsKept tables.now.lookups memo.old → IsKept tables.now.lookups memo.new }
    ensures is { (q : MethodName) → IsRight tables.now.lookups → IsKept tables.now.lookups memo.old → IsKind tables.now.lookups.types receiver → slice_get tables.now.lookups.program.now.methods method ≡ Some q
        → IfOk result (λ b. b ≡ ((run_face tables.now.lookups).outward (type_text tables.now.lookups.types receiver) || is_common tables.now.lookups.program.now q.name q.proto)) }
{
    if tables.lookups.is_common(method) {
        return Ok(true);
    }
    is_outward(tables, memo, receiver)
}

/// Whether the framework calls the method back on an object of a class: it is virtual and not shut, the class finds it,
/// and the class has an ancestor of the framework other than `Ljava/lang/Object;`, or every object answers to it.
fn calls_back(
    tables: &Tables<'_>,
    memo: &mut Memo,
    receiver: Kind,
    at: MethodAt,
    method: &Method,
) -> Result<bool, AllocError>
    ensures kept { IsRight tables.now.lookups → IsKept tables.now.lookups memo.old → IsKind tables.now.lookups.types receiver → look.method_at tables.now.lookups.program.now at ≡ Some method.now → IsKept tables.now.lookups memo.new }
    ensures is { (o : Outside) (f : Found) → IsRight tables.now.lookups → IsReach tables.now.lookups o → IsKept tables.now.lookups memo.old → IsKind tables.now.lookups.types receiver → look.method_at tables.now.lookups.program.now at ≡ Some method.now → found_at tables.now.lookups.program.now at ≡ Some f
        → IfOk result (λ b. b ≡ calls_back (run_face tables.now.lookups) (outer_of tables.now.lookups.program.now o) (type_text tables.now.lookups.types receiver) f) }
{
    if !may_call_back(tables, method) {
        return Ok(false);
    }
    let found = tables.lookups.virtually(memo, receiver, method.name)?;
    if !finds(found, at) {
        return Ok(false);
    }
    reaches_out(tables, memo, receiver, method.name)
}

/// Whether the framework calls a method on an object of a class by a kept virtual one: it is virtual, the class finds it, and
/// the class stands under one with a kept virtual method of its name and signature.
fn answers_kept(
    tables: &Tables<'_>,
    memo: &mut Memo,
    receiver: Kind,
    at: MethodAt,
    method: &Method,
) -> Result<bool, AllocError>
    ensures kept { (o : Outside) → IsRight tables.now.lookups → IsReach tables.now.lookups o → IsKept tables.now.lookups memo.old → IsKind tables.now.lookups.types receiver → look.method_at tables.now.lookups.program.now at ≡ Some method.now → IsKept tables.now.lookups memo.new }
    ensures is { (o : Outside) (f : Found) → IsRight tables.now.lookups → IsReach tables.now.lookups o → IsKept tables.now.lookups memo.old → IsKind tables.now.lookups.types receiver → look.method_at tables.now.lookups.program.now at ≡ Some method.now → found_at tables.now.lookups.program.now at ≡ Some f
        → IfOk result (λ b. b ≡ answers_kept (run_face tables.now.lookups) (outer_of tables.now.lookups.program.now o) (type_text tables.now.lookups.types receiver) f) }
{
    if !tables.lookups.is_virtual(method) {
        return Ok(false);
    }
    let found = tables.lookups.virtually(memo, receiver, method.name)?;
    if !finds(found, at) {
        return Ok(false);
    }
    tables.lookups.has_keeper(memo, receiver, method.name)
}

/// Whether the framework reaches a method on an object of a class: it is kept, called by a kept virtual one, or called back.
fn may_reach(
    tables: &Tables<'_>,
    memo: &mut Memo,
    receiver: Kind,
    at: MethodAt,
    method: &Method,
) -> Result<bool, AllocError>
    ensures kept { (o : Outside) → IsRight tables.now.lookups → IsReach tables.now.lookups o → IsKept tables.now.lookups memo.old → IsKind tables.now.lookups.types receiver → look.method_at tables.now.lookups.program.now at ≡ Some method.now → IsKept tables.now.lookups memo.new }
    ensures is { (o : Outside) (f : Found) → IsRight tables.now.lookups → IsReach tables.now.lookups o → IsKept tables.now.lookups memo.old → IsKind tables.now.lookups.types receiver → look.method_at tables.now.lookups.program.now at ≡ Some method.now → found_at tables.now.lookups.program.now at ≡ Some f
        → IfOk result (λ b. b ≡ may_reach (run_face tables.now.lookups) (outer_of tables.now.lookups.program.now o) (type_text tables.now.lookups.types receiver) f) }
{
    if tables.lookups.outer.keeps_method(method.name) {
        return Ok(true);
    }
    let answers = answers_kept(tables, memo, receiver, at, method)?;
    if answers {
        return Ok(true);
    }
    calls_back(tables, memo, receiver, at, method)
}

/// Whether a method may be entered on its receiver, which isn't null and under its class.
pub fn receiver_ok(
    tables: &Tables<'_>,
    memo: &mut Memo,
    world: &World,
    gifts: &Gifts,
    receiver: Datum,
    found: (MethodAt, &Method),
) -> Result<bool, AllocError>
    ensures kept { (o : Outside) → IsRight tables.now.lookups → IsReach tables.now.lookups o → IsKept tables.now.lookups memo.old → IsGiven tables.now.lookups world.now gifts.now → look.method_at tables.now.lookups.program.now found.entry.0 ≡ Some found.entry.1.now → IsKept tables.now.lookups memo.new }
    ensures is { (o : Outside) (f : Found) (vs : List Value) → IsRight tables.now.lookups → IsReach tables.now.lookups o → IsKept tables.now.lookups memo.old → IsGiven tables.now.lookups world.now gifts.now → IsGivenFine tables.now.lookups world.now gifts.now receiver → look.method_at tables.now.lookups.program.now found.entry.0 ≡ Some found.entry.1.now → found_at tables.now.lookups.program.now found.entry.0 ≡ Some f
        → IfOk result (λ b. b ≡ receiver_ok (run_face tables.now.lookups) (outer_of tables.now.lookups.program.now o) (given_world (names_in tables.now.lookups) world.now gifts.now) f (value_of (names_in tables.now.lookups) receiver ∷ vs)) }
{
    let (at, method) = found;
    let own = match gifts.kind_of(world, receiver) {
        Some(own) => own,
        None => return Ok(false),
    };
    let class = tables.lookups.kind_of_class(at.class);
    let under = tables.lookups.is_under(memo, own, class)?;
    if under {
        may_reach(tables, memo, own, at, method)
    } else {
        Ok(false)
    }
}

/// Whether a field has a receiver, and this one may be given.
fn is_open(is_static: bool, taken: Taken) -> bool
    ensures { result ≡ (not is_static && taken.allowed) }
{
    !is_static && taken.allowed
}

/// Whether a move on a field has a receiver exactly where the field isn't static, which may be given, isn't null and is
/// under the field's class.
pub fn on_fits(
    tables: &Tables<'_>,
    memo: &mut Memo,
    world: &World,
    gifts: &Gifts,
    on: Option<Taken>,
    at: (FieldAt, &Field),
) -> Result<bool, AllocError>
    ensures kept { IsRight tables.now.lookups → IsKept tables.now.lookups memo.old → IsGiven tables.now.lookups world.now gifts.now → IsFieldAt tables.now.lookups.program.now at.entry.0 at.entry.1.now → IsKept tables.now.lookups memo.new }
    ensures is { (o : Outside) (before : NamedWorld) (g : Option Given) (place : Place) → IsRight tables.now.lookups → IsKept tables.now.lookups memo.old → IsGiven tables.now.lookups world.now gifts.now → OnTaken tables.now.lookups o world.now before gifts.now g on → IsFieldAt tables.now.lookups.program.now at.entry.0 at.entry.1.now → place_at tables.now.lookups.program.now (at.entry.0.class, at.entry.0.place) ≡ Some place
        → IfOk result (λ b. b ≡ on_fits (run_face tables.now.lookups) (outer_of tables.now.lookups.program.now o) before (given_world (names_in tables.now.lookups) world.now gifts.now) (field_at tables.now.lookups.program.now at.entry.1.now.name) place g (option_map (λ t. value_of (names_in tables.now.lookups) t.datum) on)) }
{
    let (place, field) = at;
    let is_static = field.flags.has(Flags::STATIC);
    match on {
        None => Ok(is_static),
        Some(taken) => {
            if !is_open(is_static, taken) {
                return Ok(false);
            }
            let kind = tables.lookups.kind_of_class(place.class);
            gifts.is_on(tables, memo, world, taken.datum, kind)
        }
    }
}
