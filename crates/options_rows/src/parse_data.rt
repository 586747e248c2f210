//! The walk over the members of a body.

ghost use Rattle.std.specs.Prelude.{ℕ, ◌≡◌, ◌++◌, List, take, IfOk, OnOk, OnErr, false};
ghost use Rattle.error_fault.specs.Outcome.{Outcome, faults_of};
ghost use Rattle.error_core.specs.Answers.{Answers};
ghost use Rattle.error_core.specs.ErrorView.{One, held};
ghost use Rattle.node_core.specs.Bodies.{is_union};
ghost use Rattle.options_rows.specs.Does.{Takes, TakesOwn};
ghost use Rattle.options_rows.specs.Members as spec;

use base_core::Mem;
use error_core::{Accumulator, Error, Fail, Result};
use node_core::{Data, Field, Variant};
use std::alloc::Global;
use util_table::RenameTable;

/// What reads the members of a body one by one, and checks what it read.
///
/// A type writes what it makes of a member itself, and its checks; a member that it has no reading for is refused.
pub trait ParseData: Sized + Drop {
    ghost use Rattle.std.specs.Prelude.{Option};
    ghost use Rattle.node_core.specs.declared.data.Field.{Field};
    ghost use Rattle.node_core.specs.declared.data.Variant.{Variant};
    ghost use Rattle.error_fault.specs.declared.fault.Fault.{Fault};
    ghost use Rattle.options_rows.specs.Values.{Rules};

    /// What stands behind a field, or what is wrong with it, where the type reads fields.
    ghost of_field: { Rules → Self → Field → Option (Outcome Self) };

    /// The same of a variant.
    ghost of_variant: { Rules → Self → Variant → Option (Outcome Self) };

    /// What is wrong with what stands behind all members.
    ghost checks: { Self → List Fault };

    /// What the type makes of a field itself. `None` where it reads no fields. Faults and want of memory change nothing.
    fn own_field(&mut self, alloc: Global, field: &Field, table: &RenameTable) -> Result<Option<()>>
        ensures { TakesOwn result (of_field table.now self.old field.now) self.old self.new };

    /// What the type makes of a variant itself. `None` where it reads no variants.
    fn own_variant(
        &mut self,
        alloc: Global,
        variant: &Variant,
        table: &RenameTable,
    ) -> Result<Option<()>>
        ensures { TakesOwn result (of_variant table.now self.old variant.now) self.old self.new };

    /// Checks what was read: all faults are collected or, for want of memory, none.
    fn validate_body(&self, alloc: Global, errors: &mut Accumulator) -> Mem<()>
        ensures ok { OnOk result (held errors.new ≡ held errors.old ++ checks self.now) }
        ensures err { OnErr result (errors.new ≡ errors.old) };

    /// Reads one field. One that has faults changes nothing, nor does want of memory.
    final fn parse_field(&mut self, alloc: Global, field: &Field, table: &RenameTable) -> Result<()>
        ensures { Takes result (spec.field_or of_field table.now self.old field.now) self.old self.new }
    {
        match self.own_field(alloc, field, table)? {
            Some(()) => Ok(()),
            None => Err(Fail::Faults(no_field(alloc, field)?)),
        }
    }

    /// Reads one variant. One that has faults changes nothing, nor does want of memory.
    final fn parse_variant(
        &mut self,
        alloc: Global,
        variant: &Variant,
        table: &RenameTable,
    ) -> Result<()>
        ensures { Takes result (spec.variant_or of_variant table.now self.old variant.now) self.old self.new }
    {
        match self.own_variant(alloc, variant, table)? {
            Some(()) => Ok(()),
            None => Err(Fail::Faults(no_variant(alloc, variant)?)),
        }
    }

    /// Reads all members, and checks what was read.
    ///
    /// Fails with the faults of all members in order, and with those of the checks behind them. What it read into is its
    /// own: want of memory drops it.
    final fn parse_body(self, alloc: Global, body: &Data, table: &RenameTable) -> Result<Self>
        requires { is_union body.now ≡ false }
        ensures { Answers (λ it. it) result (spec.read_body (spec.field_or of_field table.now) (spec.variant_or of_variant table.now) checks self body.now) }
    {
        let mut read = self;
        let mut errors = Error::accumulator(alloc);
        match read_body(alloc, &mut read, body, table, &mut errors) {
            Ok(()) => errors.finish_with(read),
            Err(_) => {
                drop(errors.into_inner());
                Err(Fail::NoMemory)
            }
        }
    }
}

#[tactic(auto, unfolding(crate::specs::Members::no_field))]
fn no_field(alloc: Global, field: &Field) -> Mem<Error>
    ensures { IfOk result (λ error. error ≡ One (spec.no_field field.now)) }
{
    Ok(Error::unsupported_format(alloc, "struct field")?.with_span(field))
}

#[tactic(auto, unfolding(crate::specs::Members::no_variant))]
fn no_variant(alloc: Global, variant: &Variant) -> Mem<Error>
    ensures { IfOk result (λ error. error ≡ One (spec.no_variant variant.now)) }
{
    Ok(Error::unsupported_format(alloc, "enum variant")?.with_span(variant))
}

/// Where memory is wanting, the first of the members are taken.
#[tactic(auto, using(crate::proofs::PrefixLemmas::stops_at_end))]
fn read_body<T: ParseData>(
    alloc: Global,
    target: &mut T,
    body: &Data,
    table: &RenameTable,
    errors: &mut Accumulator,
) -> Mem<()>
    requires { is_union body.now ≡ false }
    ensures ok { OnOk result
        ((target.new ≡ spec.after_body (spec.field_or T.of_field table.now) (spec.variant_or T.of_variant table.now) target.old body.now)
        × (held errors.new ≡ held errors.old
        ++ (spec.body_faults (spec.field_or T.of_field table.now) (spec.variant_or T.of_variant table.now) target.old body.now
        ++ T.checks (spec.after_body (spec.field_or T.of_field table.now) (spec.variant_or T.of_variant table.now) target.old body.now)))) }
    ensures err { OnErr result
        ((count : ℕ) × (target.new
        ≡ spec.after_first (spec.field_or T.of_field table.now) (spec.variant_or T.of_variant table.now) count target.old body.now)) }
{
    parse_members(alloc, target, body, table, errors)?;
    target.validate_body(alloc, errors)
}

#[tactic(auto, using(crate::proofs::PrefixLemmas::stops_in_fields, crate::proofs::PrefixLemmas::stops_in_variants))]
fn parse_members<T: ParseData>(
    alloc: Global,
    target: &mut T,
    body: &Data,
    table: &RenameTable,
    errors: &mut Accumulator,
) -> Mem<()>
    requires { is_union body.now ≡ false }
    ensures ok { OnOk result
        ((target.new ≡ spec.after_body (spec.field_or T.of_field table.now) (spec.variant_or T.of_variant table.now) target.old body.now)
        × (held errors.new ≡ held errors.old
        ++ spec.body_faults (spec.field_or T.of_field table.now) (spec.variant_or T.of_variant table.now) target.old body.now)) }
    ensures err { OnErr result
        ((count : ℕ) × (target.new
        ≡ spec.after_first (spec.field_or T.of_field table.now) (spec.variant_or T.of_variant table.now) count target.old body.now)) }
{
    match body {
        Data::Struct(it) => parse_fields(alloc, target, it.fields.as_slice(), table, errors),
        Data::Enum(it) => parse_variants(alloc, target, it.variants.as_slice(), table, errors),
        Data::Union(_) => unreachable!(),
    }
}

fn parse_fields<T: ParseData>(
    alloc: Global,
    target: &mut T,
    fields: &[Field],
    table: &RenameTable,
    errors: &mut Accumulator,
) -> Mem<()>
    ensures ok { OnOk result
        ((target.new ≡ spec.after_members (spec.field_or T.of_field table.now) target.old fields.now)
        × (held errors.new ≡ held errors.old
        ++ spec.members_faults (spec.field_or T.of_field table.now) target.old fields.now)) }
    ensures err { OnErr result
        ((count : ℕ) × (target.new ≡ spec.after_members (spec.field_or T.of_field table.now) target.old (take count fields.now))) }
{
    for field in fields {
        parse_one_field(alloc, target, field, table, errors)?;
    }
    Ok(())
}

#[tactic(auto, using(crate::proofs::HandleLemmas::takes_handled))]
fn parse_one_field<T: ParseData>(
    alloc: Global,
    target: &mut T,
    field: &Field,
    table: &RenameTable,
    errors: &mut Accumulator,
) -> Mem<()>
    ensures ok { let takes = spec.field_or T.of_field table.now in
        OnOk result
        ((target.new ≡ spec.after_outcome (takes target.old field.now) target.old)
        × (held errors.new ≡ held errors.old ++ faults_of (takes target.old field.now))) }
    ensures err { OnErr result (target.new ≡ target.old) }
{
    errors.handle(alloc, target.parse_field(alloc, field, table))?;
    Ok(())
}

fn parse_variants<T: ParseData>(
    alloc: Global,
    target: &mut T,
    variants: &[Variant],
    table: &RenameTable,
    errors: &mut Accumulator,
) -> Mem<()>
    ensures ok { OnOk result
        ((target.new ≡ spec.after_members (spec.variant_or T.of_variant table.now) target.old variants.now)
        × (held errors.new ≡ held errors.old
        ++ spec.members_faults (spec.variant_or T.of_variant table.now) target.old variants.now)) }
    ensures err { OnErr result
        ((count : ℕ) × (target.new ≡ spec.after_members (spec.variant_or T.of_variant table.now) target.old (take count variants.now))) }
{
    for variant in variants {
        parse_one_variant(alloc, target, variant, table, errors)?;
    }
    Ok(())
}

#[tactic(auto, using(crate::proofs::HandleLemmas::takes_handled))]
fn parse_one_variant<T: ParseData>(
    alloc: Global,
    target: &mut T,
    variant: &Variant,
    table: &RenameTable,
    errors: &mut Accumulator,
) -> Mem<()>
    ensures ok { let takes = spec.variant_or T.of_variant table.now in
        OnOk result
        ((target.new ≡ spec.after_outcome (takes target.old variant.now) target.old)
        × (held errors.new ≡ held errors.old ++ faults_of (takes target.old variant.now))) }
    ensures err { OnErr result (target.new ≡ target.old) }
{
    errors.handle(alloc, target.parse_variant(alloc, variant, table))?;
    Ok(())
}
