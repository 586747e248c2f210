//! Types that don't fit their places.

ghost use Rattle.std.specs.Prelude.{◌≡◌, ◌++◌, IfOk, OnOk, flat_map, length, map};
ghost use Rattle.std.specs.Option.{option_copied};
ghost use Rattle.std.specs.List.{list_all, list_any};
ghost use Rattle.machine_forms.specs.Asks as asked;
ghost use Rattle.machine_forms.specs.Places.{places_from};
ghost use Rattle.machine_fields.specs.Slots.{seen_reading, seen_slots};
ghost use Rattle.machine_fit.specs.Types as spec;
ghost use Rattle.machine_forms.specs.Units.{AreGroups};

use crate::checker::Checker;
use base_core::{Items, Mem};
use codegen_program::{PostfixTransform, Unit};
use machine_fields::{FieldsAt, MemberAt, Reading, Slots, place_at, readings_of};
use machine_forms::{Ask, Host, asks_of, named_type};
use node_core::{Data, DeriveInput, Field, Variant};
use node_expr::Type;
use node_span::Spanned;
use std::alloc::AllocError;
use tok_types::Span;

impl<H: Host> Checker<'_, H> {
    /// The types that don't fit their places.
    pub(crate) fn unknown_types(&self, groups: &[Items<&Unit>]) -> Mem<Items<Span>>
        requires { AreGroups self.now.program.now.units (length self.now.program.now.decls) groups.now }
        ensures { IfOk result (λ places. places ≡ spec.unknown_types (H.says self.now.host.now) self.now.program.now) }
    {
        let mut places = Items::new(self.alloc);
        let decls = self.program.decls.as_slice();
        for number in 0..decls.len() {
            self.push_types_in(
                &mut places,
                groups[number].as_slice(),
                number,
                &decls[number],
            )?;
        }
        Ok(places)
    }

    fn push_types_in(
        &self,
        places: &mut Items<Span>,
        units: &[&Unit],
        number: usize,
        decl: &DeriveInput,
    ) -> Mem<()>
        ensures { OnOk result (places.new
            ≡ places.old ++ spec.unknown_types_in (H.says self.now.host.now) self.now.program.now (map (λ unit. unit.now) units.now) number decl.now) }
    {
        let asks = asks_of(self.alloc, units)?;
        if self.lacks_default(decl, asks.as_slice())? {
            places.push(decl.ident.span)?;
        }
        let readings = readings_of(self.alloc, &decl.body, units)?;
        self.push_members(places, number, readings.as_slice(), &decl.body)?;
        self.push_taken(places, number, asks.as_slice())
    }

    /// Whether the default of the whole receiver is asked for, and its type has none.
    fn lacks_default(&self, decl: &DeriveInput, asks: &[Ask<'_>]) -> Mem<bool>
        ensures { IfOk result (λ lacks. lacks ≡ spec.lacks_default (H.says self.now.host.now) self.now.program.now decl.now (map asked.seen asks.now)) }
    {
        if !asks_whole_default(asks) {
            return Ok(false);
        }
        let ty = named_type(self.alloc, decl.ident.text.as_str())?;
        Ok(!self.has_default(&ty)?)
    }

    fn push_members(
        &self,
        places: &mut Items<Span>,
        here: usize,
        readings: &[Reading],
        body: &Data,
    ) -> Mem<()>
        ensures { OnOk result (places.new
            ≡ places.old ++ spec.unfit_members (H.says self.now.host.now) self.now.program.now here (map seen_reading readings.now) body.now) }
    {
        match body {
            Data::Struct(it) => self.push_fields(places, here, readings, 0, it.fields.as_slice()),
            Data::Enum(it) => self.push_variants(places, here, readings, it.variants.as_slice()),
            Data::Union(it) => {
                self.push_fields(places, here, readings, 0, it.fields.named.as_slice())
            }
        }
    }

    fn push_variants(
        &self,
        places: &mut Items<Span>,
        here: usize,
        readings: &[Reading],
        variants: &[Variant],
    ) -> Mem<()>
        ensures { OnOk result (places.new ≡ places.old
            ++ places_from (spec.unfit_variant (H.says self.now.host.now) self.now.program.now here (map seen_reading readings.now)) 0 variants.now) }
    {
        for number in 0..variants.len() {
            let fields = variants[number].fields.as_slice();
            self.push_fields(places, here, readings, number, fields)?;
        }
        Ok(())
    }

    /// Adds the types that don't fit what the units ask of the fields of a struct, or of the variant of the number.
    fn push_fields(
        &self,
        places: &mut Items<Span>,
        here: usize,
        readings: &[Reading],
        variant: usize,
        fields: &[Field],
    ) -> Mem<()>
        ensures { OnOk result (places.new
            ≡ places.old ++ spec.unfit_fields (H.says self.now.host.now) self.now.program.now here (map seen_reading readings.now) variant fields.now) }
    {
        for number in 0..fields.len() {
            self.push_field(places, here, readings, variant, number, &fields[number])?;
        }
        Ok(())
    }

    fn push_field(
        &self,
        places: &mut Items<Span>,
        here: usize,
        readings: &[Reading],
        variant: usize,
        number: usize,
        field: &Field,
    ) -> Mem<()>
        ensures { OnOk result (places.new
            ≡ places.old ++ spec.unfit_field (H.says self.now.host.now) self.now.program.now here (map seen_reading readings.now) variant number field.now) }
    {
        if self.fits_readings(here, readings, variant, number, &field.ty)? {
            return Ok(());
        }
        places.push(field.ty.spanned())
    }

    fn fits_readings(
        &self,
        here: usize,
        readings: &[Reading],
        variant: usize,
        number: usize,
        ty: &Type,
    ) -> Mem<bool>
        ensures { IfOk result (λ fits. fits
            ≡ list_all (spec.fits_unit (H.says self.now.host.now) self.now.program.now here variant number ty.now) (map seen_reading readings.now)) }
    {
        for reading in readings {
            if !self.fits_reading(here, reading, variant, number, ty)? {
                return Ok(false);
            }
        }
        Ok(true)
    }

    /// Whether the type of a field fits what a unit asks of it.
    fn fits_reading(
        &self,
        here: usize,
        reading: &Reading,
        variant: usize,
        number: usize,
        ty: &Type,
    ) -> Mem<bool>
        ensures { IfOk result (λ fits. fits
            ≡ spec.fits_unit (H.says self.now.host.now) self.now.program.now here variant number ty.now (seen_reading reading.now)) }
    {
        match place_at(reading.places.as_slice(), variant) {
            FieldsAt::Slots(first) => {
                let slot = first.checked_add(number).ok_or(AllocError)?;
                self.fits_asks(here, slot, ty, &reading.slots)
            }
            FieldsAt::Members => {
                let member = reading.members.get(number).copied();
                self.fits_member(here, ty, &reading.slots, member)
            }
            FieldsAt::Alone => self.type_fits(here, true, ty),
            FieldsAt::Nowhere => self.type_fits(here, false, ty),
        }
    }

    /// Whether the type of a field of a struct fits what a unit asks of it.
    fn fits_member(
        &self,
        here: usize,
        ty: &Type,
        asks: &Slots,
        member: Option<MemberAt>,
    ) -> Mem<bool>
        ensures { IfOk result (λ fits. fits
            ≡ spec.fits_member (H.says self.now.host.now) self.now.program.now here ty.now (seen_slots asks.now) member) }
    {
        match member {
            Some(MemberAt::Slot(slot)) => self.fits_asks(here, slot, ty, asks),
            Some(MemberAt::Part { at, with }) => self.part_fits(here, at, with, ty),
            None => self.type_fits(here, false, ty),
        }
    }

    /// Whether the type of a slot fits what a unit asks of it.
    fn fits_asks(&self, here: usize, slot: usize, ty: &Type, asks: &Slots) -> Mem<bool>
        ensures { IfOk result (λ fits. fits ≡ spec.fits_asks (H.says self.now.host.now) self.now.program.now here slot ty.now (seen_slots asks.now)) }
    {
        if !self.field_fits(here, asks.is_read(slot), asks.is_many(slot), ty)? {
            return Ok(false);
        }
        if !asks.is_default(slot) {
            return Ok(true);
        }
        self.has_default(ty)
    }

    /// Adds the transforms that take a type which doesn't fit.
    fn push_taken(&self, places: &mut Items<Span>, here: usize, asks: &[Ask<'_>]) -> Mem<()>
        ensures { OnOk result (places.new
            ≡ places.old ++ flat_map (spec.unfit_ask (H.says self.now.host.now) self.now.program.now here) (map asked.seen asks.now)) }
    {
        for ask in asks {
            self.push_ask(places, here, *ask)?;
        }
        Ok(())
    }

    fn push_ask(&self, places: &mut Items<Span>, here: usize, ask: Ask<'_>) -> Mem<()>
        ensures { OnOk result (places.new ≡ places.old ++ spec.unfit_ask (H.says self.now.host.now) self.now.program.now here (asked.seen ask.entry)) }
    {
        match ask {
            Ask::Read(arm) => self.push_taken_by(places, here, arm.post.as_ref()),
            _ => Ok(()),
        }
    }

    fn push_taken_by(
        &self,
        places: &mut Items<Span>,
        here: usize,
        post: Option<&PostfixTransform>,
    ) -> Mem<()>
        ensures { OnOk result (places.new ≡ places.old ++ spec.unfit_post (H.says self.now.host.now) self.now.program.now here (option_copied post.entry)) }
    {
        match post {
            Some(post) => self.push_takes(places, here, post, self.host.takes(&post.function)),
            None => Ok(()),
        }
    }

    fn push_takes(
        &self,
        places: &mut Items<Span>,
        here: usize,
        post: &PostfixTransform,
        taken: Option<&Type>,
    ) -> Mem<()>
        ensures { OnOk result (places.new
            ≡ places.old ++ spec.unfit_taken (H.says self.now.host.now) self.now.program.now here post.now (option_copied taken.entry)) }
    {
        let Some(ty) = taken else {
            return Ok(());
        };
        if self.type_fits(here, true, ty)? {
            return Ok(());
        }
        places.push(post.function.spanned())
    }
}

/// Whether the default of the receiver's type is asked for.
fn asks_whole_default(asks: &[Ask<'_>]) -> bool
    ensures { result ≡ list_any asked.is_whole_default (map asked.seen asks.now) }
{
    for ask in asks {
        if ask.is_whole_default() {
            return true;
        }
    }
    false
}
