//! Functions that the host doesn't offer.

ghost use Rattle.std.specs.Prelude.{◌≡◌, ◌++◌, IfOk, OnOk, flat_map, length, map, slice_get};
ghost use Rattle.std.specs.Option.{option_copied};
ghost use Rattle.std.specs.List.{list_any};
ghost use Rattle.machine_forms.specs.Asks as asked;
ghost use Rattle.machine_callables.specs.Callables as spec;
ghost use Rattle.machine_forms.specs.Units.{AreGroups};
ghost use Rattle.machine_forms.specs.Reading.{transform_use as use_of};
ghost use Rattle.node_core.specs.Bodies.{fields_in};
ghost use Rattle.machine_forms.specs.Setting.{called as called_by};

use base_core::{Items, Mem, TryClone};
use codegen_program::{
    Arm, DefaultSource, Derive, Forwarded, FuncName, Init, Magic, PostfixTransform, Program, Unit,
};
use machine_fields::{declared_type, slot_fields, variants_of};
use machine_forms::{
    Ask, Callable, Host, Place, Use, asks_of, fallback_call, named_type, push_unit, word_variant,
};
use machine_rows::element_among;
use node_core::{Data, DeriveInput, Field, Variant};
use node_expr::Type;
use node_span::Spanned;
use std::alloc::Global;
use tok_types::Span;

/// What asks for functions: a unit, by its derive and what it makes.
#[derive(Clone, Copy)]
struct Asker<'d> {
    derive: Derive,
    ty: &'d Type,
    body: &'d Data,
    /// The fields that have slots.
    fields: &'d [&'d Field],
}

/// The functions of a program, and the host that is asked for them.
pub struct Callables<'p, H: Host> {
    pub alloc: Global,
    pub program: &'p Program,
    pub host: &'p H,
}

impl<H: Host> Drop for Callables<'_, H> {
    fn drop(self) {
        let Self {
            alloc: _,
            program: _,
            host: _,
        } = self;
    }
}

impl<H: Host> Callables<'_, H> {
    /// The functions that the host doesn't offer.
    pub fn unknown_callables(&self, groups: &[Items<&Unit>]) -> Mem<Items<Span>>
        requires { AreGroups self.now.program.now.units (length self.now.program.now.decls) groups.now }
        ensures { IfOk result (λ places. places ≡ spec.unknown_callables (H.says self.now.host.now) self.now.program.now) }
    {
        let mut places = Items::new(self.alloc);
        let decls = self.program.decls.as_slice();
        for number in 0..decls.len() {
            self.push_callables_in(&mut places, groups[number].as_slice(), &decls[number])?;
        }
        Ok(places)
    }

    fn push_callables_in(
        &self,
        places: &mut Items<Span>,
        units: &[&Unit],
        decl: &DeriveInput,
    ) -> Mem<()>
        ensures { OnOk result (places.new
            ≡ places.old ++ spec.unknown_callables_in (H.says self.now.host.now) self.now.program.now (map (λ unit. unit.now) units.now) decl.now) }
    {
        let asks = asks_of(self.alloc, units)?;
        if self.lacks_ident(decl, asks.as_slice())? {
            places.push(decl.ident.span)?;
        }
        self.push_units(places, decl, units)
    }

    fn push_units(&self, places: &mut Items<Span>, decl: &DeriveInput, units: &[&Unit]) -> Mem<()>
        ensures { OnOk result (places.new
            ≡ places.old ++ flat_map (spec.unoffered_unit (H.says self.now.host.now) self.now.program.now decl.now) (map (λ unit. unit.now) units.now)) }
    {
        for unit in units {
            self.push_unit_of(places, decl, unit)?;
        }
        Ok(())
    }

    /// Adds the functions that a unit of the declaration asks.
    fn push_unit_of(&self, places: &mut Items<Span>, decl: &DeriveInput, unit: &Unit) -> Mem<()>
        ensures { OnOk result (places.new ≡ places.old ++ spec.unoffered_unit (H.says self.now.host.now) self.now.program.now decl.now unit.now) }
    {
        let mut asks = Items::new(self.alloc);
        push_unit(&mut asks, unit)?;
        let ty = named_type(self.alloc, decl.ident.text.as_str())?;
        let fields = slot_fields(self.alloc, asks.as_slice(), &decl.body)?;
        let asker = Asker {
            derive: unit.derive,
            ty: &ty,
            body: &decl.body,
            fields: fields.as_slice(),
        };
        self.push_unoffered(places, asker, asks.as_slice())
    }

    /// Whether an identifier is asked for the receiver, and makes none.
    fn lacks_ident(&self, decl: &DeriveInput, asks: &[Ask<'_>]) -> Mem<bool>
        ensures { IfOk result (λ lacks. lacks ≡ spec.lacks_ident (H.says self.now.host.now) self.now.program.now decl.now (map asked.seen asks.now)) }
    {
        if !asks_ident(asks) {
            return Ok(false);
        }
        let ty = named_type(self.alloc, decl.ident.text.as_str())?;
        Ok(!self.offers(None, Use::FromIdent, &ty)?)
    }

    /// Whether the host offers the function where it is asked for the type.
    fn offers(&self, callable: Option<&Callable>, at: Use, ty: &Type) -> Mem<bool>
        ensures { IfOk result (λ offers. offers ≡ spec.offers (H.says self.now.host.now) self.now.program.now (option_copied callable.entry) at ty.now) }
    {
        let ty = ty.try_clone(self.alloc)?;
        let place = Place { at, ty };
        Ok(self.host.offers(&self.program.decls, callable, &place))
    }

    /// Adds the functions that are asked.
    fn push_unoffered(
        &self,
        places: &mut Items<Span>,
        asker: Asker<'_>,
        asks: &[Ask<'_>],
    ) -> Mem<()>
        ensures { OnOk result (places.new ≡ places.old
            ++ flat_map (spec.unoffered_ask (H.says self.now.host.now) self.now.program.now
            asker.entry.derive asker.entry.ty.now asker.entry.body.now (map (λ field. field.now) asker.entry.fields.now))
            (map asked.seen asks.now)) }
    {
        for ask in asks {
            self.push_ask_of(places, asker, *ask)?;
        }
        Ok(())
    }

    fn push_ask_of(&self, places: &mut Items<Span>, asker: Asker<'_>, ask: Ask<'_>) -> Mem<()>
        ensures { OnOk result (places.new ≡ places.old ++ spec.unoffered_ask (H.says self.now.host.now) self.now.program.now
            asker.entry.derive asker.entry.ty.now asker.entry.body.now (map (λ field. field.now) asker.entry.fields.now) (asked.seen ask.entry)) }
    {
        match ask {
            Ask::Read(arm) => self.push_read(places, arm, field_at(asker.fields, arm.slot)),
            Ask::Whole(DefaultSource::Explicit(callable)) => {
                self.push_call(places, Use::Default, asker.ty, Some(callable))
            }
            Ask::Part(it) => self.push_part(places, asker.derive, asker.body.fields(), it),
            Ask::Member(init) => {
                self.push_member(places, init, field_at(asker.fields, init.slot))
            }
            Ask::Transform(post) => self.push_post(places, asker.ty, post),
            Ask::Called(callable, at) => {
                self.push_called(places, asker.ty, variants_of(asker.body), callable, at)
            }
            _ => Ok(()),
        }
    }

    /// Looks at what converts a part of the element for one of the fields.
    fn push_part(
        &self,
        places: &mut Items<Span>,
        derive: Derive,
        fields: &[Field],
        it: &Forwarded,
    ) -> Mem<()>
        ensures { OnOk result (places.new
            ≡ places.old ++ spec.unoffered_part (H.says self.now.host.now) self.now.program.now derive fields.now it.now) }
    {
        let Some(at) = part_use(derive, it.what) else {
            return Ok(());
        };
        match declared_type(self.alloc, fields, &it.member)? {
            Some(ty) => self.push_call(places, at, ty, it.with.as_ref()),
            None => Ok(()),
        }
    }

    /// Looks at a callable in the place of a function. The closure of a variant is none.
    fn push_called(
        &self,
        places: &mut Items<Span>,
        ty: &Type,
        variants: &[Variant],
        callable: &Callable,
        at: FuncName,
    ) -> Mem<()>
        ensures { OnOk result (places.new
            ≡ places.old ++ spec.unoffered_call (H.says self.now.host.now) self.now.program.now ty.now variants.now callable.now at) }
    {
        match at {
            FuncName::FromWord => match word_variant(self.alloc, callable, variants)? {
                Some(_) => Ok(()),
                None => self.push_call(places, Use::FromWord, ty, Some(callable)),
            },
            FuncName::FromNone => self.push_call(places, Use::FromNone, ty, Some(callable)),
            FuncName::FromExpr => self.push_call(places, Use::FromExpr, ty, Some(callable)),
            _ => Ok(()),
        }
    }

    /// Looks at the functions of an arm for this field.
    fn push_read(&self, places: &mut Items<Span>, arm: &Arm, field: Option<&Field>) -> Mem<()>
        ensures { OnOk result (places.new
            ≡ places.old ++ spec.unoffered_read (H.says self.now.host.now) self.now.program.now arm.now (option_copied field.entry)) }
    {
        match field {
            Some(field) => self.push_arm(places, arm, self.value_type(arm.many, &field.ty)),
            None => Ok(()),
        }
    }

    /// The type of one value of a field.
    fn value_type<'t>(&self, many: bool, ty: &'t Type) -> &'t Type
        ensures { result.now ≡ spec.value_type (H.says self.now.host.now) self.now.program.now many ty.now }
    {
        if !many {
            return ty;
        }
        match element_among(&self.program.decls, ty) {
            Some(element) => element,
            None => ty,
        }
    }

    /// Looks at the functions of an arm whose slot gets values of the type.
    fn push_arm(&self, places: &mut Items<Span>, arm: &Arm, ty: &Type) -> Mem<()>
        ensures { OnOk result (places.new ≡ places.old ++ spec.unoffered_arm (H.says self.now.host.now) self.now.program.now arm.now ty.now) }
    {
        let converted = self.converted(arm.post.as_ref(), ty);
        self.push_call(places, Use::With, converted, arm.with.as_ref())?;
        self.push_transform(places, ty, arm.post.as_ref())
    }

    /// The type that items are read at: what the transform takes, else the type itself.
    fn converted<'t>(&'t self, post: Option<&PostfixTransform>, ty: &'t Type) -> &'t Type
        ensures { result.now ≡ spec.converted (H.says self.now.host.now) self.now.program.now (option_copied post.entry) ty.now }
    {
        let Some(post) = post else {
            return ty;
        };
        match self.host.takes(&post.function) {
            Some(taken) => taken,
            None => ty,
        }
    }

    fn push_member(&self, places: &mut Items<Span>, init: &Init, field: Option<&Field>) -> Mem<()>
        ensures { OnOk result (places.new
            ≡ places.old ++ spec.unoffered_member (H.says self.now.host.now) self.now.program.now init.now (option_copied field.entry)) }
    {
        match field {
            Some(field) => {
                let fallback = fallback_call(&init.fallback);
                self.push_call(places, Use::Default, &field.ty, fallback)
            }
            None => Ok(()),
        }
    }

    fn push_call(
        &self,
        places: &mut Items<Span>,
        at: Use,
        ty: &Type,
        callable: Option<&Callable>,
    ) -> Mem<()>
        ensures { OnOk result (places.new
            ≡ places.old ++ spec.unoffered (H.says self.now.host.now) self.now.program.now at ty.now (option_copied callable.entry)) }
    {
        let Some(callable) = callable else {
            return Ok(());
        };
        if self.offers(Some(callable), at, ty)? {
            return Ok(());
        }
        places.push(callable.call.spanned())
    }

    /// Looks at what is called on a value of the type.
    fn push_post(&self, places: &mut Items<Span>, ty: &Type, post: &PostfixTransform) -> Mem<()>
        ensures { OnOk result (places.new ≡ places.old ++ spec.unoffered_post (H.says self.now.host.now) self.now.program.now ty.now post.now) }
    {
        let callable = called(self.alloc, post)?;
        if self.offers(Some(&callable), transform_use(self.alloc, post)?, ty)? {
            return Ok(());
        }
        places.push(post.function.spanned())
    }

    /// Looks at what is called on a value of a field, which takes a type that the host names.
    fn push_transform(
        &self,
        places: &mut Items<Span>,
        ty: &Type,
        post: Option<&PostfixTransform>,
    ) -> Mem<()>
        ensures { OnOk result (places.new ≡ places.old ++ spec.unknown_post (H.says self.now.host.now) self.now.program.now ty.now (option_copied post.entry)) }
    {
        let Some(post) = post else {
            return Ok(());
        };
        match self.host.takes(&post.function) {
            Some(_) => self.push_post(places, ty, post),
            None => places.push(post.function.spanned()),
        }
    }
}

/// What the function is asked for that converts a part of the element. Other parts stand as they are.
fn part_use(derive: Derive, what: Magic) -> Option<Use>
    ensures { result ≡ spec.part_use derive what }
{
    match (derive, what) {
        (Derive::FromField, Magic::Ident) => Some(Use::OptionalIdent),
        (_, Magic::Ident) => Some(Use::Ident),
        (_, Magic::Attrs) => Some(Use::Attrs),
        (_, Magic::Generics) => Some(Use::Generics),
        (_, Magic::Body) => Some(Use::Body),
        (_, Magic::Fields) => Some(Use::Fields),
        _ => None,
    }
}

/// Whether it is asked what an identifier makes.
fn asks_ident(asks: &[Ask<'_>]) -> bool
    ensures { result ≡ list_any asked.is_from_ident (map asked.seen asks.now) }
{
    for ask in asks {
        if ask.is_from_ident() {
            return true;
        }
    }
    false
}

/// The field that has the slot.
fn field_at<'f>(fields: &[&'f Field], slot: u32) -> Option<&'f Field>
    ensures { option_copied result ≡ slice_get (map (λ field. field.now) fields.now) slot }
{
    fields.get(slot as usize).copied()
}

/// What a transform calls.
fn called(alloc: Global, post: &PostfixTransform) -> Mem<Callable>
    ensures { IfOk result (λ callable. callable ≡ called_by post.now.function) }
{
    let path = post.function.try_clone(alloc)?;
    Callable::from_path(alloc, path)
}

/// Where a transform is asked for.
fn transform_use(alloc: Global, post: &PostfixTransform) -> Mem<Use>
    ensures { IfOk result (λ at. at ≡ use_of post.now) }
{
    let method = post.transformer.to_text(alloc)?;
    if method.is("and_then") {
        return Ok(Use::AndThen);
    }
    Ok(Use::Map)
}
