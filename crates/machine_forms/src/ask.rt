//! What a unit asks of types and of the host.

ghost use Rattle.std.specs.Prelude.{◌≡◌, ◌++◌, IfOk, OnOk, map};
ghost use Rattle.machine_forms.specs.Asks as spec;

use base_core::{Items, Mem};
use codegen_program::{
    Arm, Callable, DefaultSource, Fallback, Forwarded, FuncName, Init, MAX_NESTING,
    PostfixTransform, Stmt, Unit, VariantArm, VariantForm,
};
use std::alloc::AllocError;

/// What a statement asks of types and of the host.
#[derive(Clone, Copy)]
pub enum Ask<'p> {
    /// The slot takes a list of values.
    Many(u32),
    /// Items are read to a slot.
    Read(&'p Arm),
    /// The items that were kept are read to the slot.
    Flatten(u32),
    /// The default of the whole receiver is made.
    Whole(&'p DefaultSource),
    /// A member takes a part of the element.
    Part(&'p Forwarded),
    /// A member is filled.
    Member(&'p Init),
    /// What was built is handed on.
    Transform(&'p PostfixTransform),
    /// The receiver is read as its one field is.
    Alone,
    /// A variant is read.
    Variant(&'p VariantArm<Stmt>),
    /// The callable answers in the place of the function.
    Called(&'p Callable, FuncName),
}

/// What may be asked of a slot.
#[derive(Clone, Copy)]
pub enum Asked {
    /// It takes a list of values.
    Many,
    /// Items are read at its own type.
    Read,
    /// The default of its type may stand for its value.
    Default,
}

/// Adds what a unit asks, in the order in which its statements print. Statements in statements that stand deeper than
/// [`MAX_NESTING`] levels are want of memory.
pub fn push_unit<'p>(asks: &mut Items<Ask<'p>>, unit: &'p Unit) -> Mem<()>
    ensures { OnOk result (map spec.seen asks.new ≡ map spec.seen asks.old ++ spec.unit_asks unit.now) }
{
    for func in unit.funcs.as_slice() {
        push_stmts(asks, func.stmts.as_slice(), MAX_NESTING)?;
    }
    Ok(())
}

/// Adds what the statements ask.
#[cycle(asks)]
fn push_stmts<'p>(asks: &mut Items<Ask<'p>>, stmts: &'p [Stmt], nesting: usize) -> Mem<()>
    ensures { OnOk result (map spec.seen asks.new ≡ map spec.seen asks.old ++ spec.all_asks stmts.now) }
{
    for stmt in stmts {
        push_stmt(asks, stmt, nesting)?;
    }
    Ok(())
}

/// Adds what a statement asks, and the statements in it.
#[cycle(asks)]
fn push_stmt<'p>(asks: &mut Items<Ask<'p>>, stmt: &'p Stmt, nesting: usize) -> Mem<()>
    ensures { OnOk result (map spec.seen asks.new ≡ map spec.seen asks.old ++ spec.asks_in stmt.now) }
{
    match stmt {
        Stmt::DeclareMany { slot, .. } => asks.push(Ask::Many(*slot)),
        Stmt::ForAttributes { items, .. } => push_inside(asks, items.as_slice(), nesting),
        Stmt::ForItems { arms, .. } => push_arms(asks, arms.as_slice()),
        Stmt::ReadFlatten { slot, .. } => asks.push(Ask::Flatten(*slot)),
        Stmt::SetDefault { from } => asks.push(Ask::Whole(from)),
        Stmt::Build {
            forwarded,
            inits,
            ..
        } => push_built(asks, forwarded.as_slice(), inits.as_slice()),
        Stmt::Transform { post } => asks.push(Ask::Transform(post)),
        Stmt::Delegate { .. } => asks.push(Ask::Alone),
        Stmt::Variants { arms, .. } => push_variants(asks, arms.as_slice(), nesting),
        Stmt::Call { callable, at } => asks.push(Ask::Called(callable, *at)),
        Stmt::DeclareErrors
        | Stmt::DeclareOne { .. }
        | Stmt::DeclareBuffer
        | Stmt::CheckMissing { .. }
        | Stmt::CheckErrors { .. }
        | Stmt::DeclareForward { .. }
        | Stmt::ForwardDone { .. }
        | Stmt::CheckShape { .. }
        | Stmt::ReadBody { .. }
        | Stmt::ReadGenerics { .. }
        | Stmt::UnitNames { .. } => Ok(()),
    }
}

/// Adds that variants are read by these arms, each before what its statements ask.
#[cycle(asks)]
fn push_variants<'p>(
    asks: &mut Items<Ask<'p>>,
    arms: &'p [VariantArm<Stmt>],
    nesting: usize,
) -> Mem<()>
    ensures { OnOk result (map spec.seen asks.new ≡ map spec.seen asks.old ++ spec.asks_of_arms arms.now) }
{
    for arm in arms {
        asks.push(Ask::Variant(arm))?;
        push_form(asks, &arm.form, nesting)?;
    }
    Ok(())
}

/// Adds what the statements of a variant ask.
#[cycle(asks)]
fn push_form<'p>(asks: &mut Items<Ask<'p>>, form: &'p VariantForm<Stmt>, nesting: usize) -> Mem<()>
    ensures { OnOk result (map spec.seen asks.new ≡ map spec.seen asks.old ++ spec.asks_of_form form.now) }
{
    match form {
        VariantForm::Unit | VariantForm::Transparent { .. } => Ok(()),
        VariantForm::Struct(stmts) => push_inside(asks, stmts.as_slice(), nesting),
    }
}

/// Adds what the statements in a statement ask.
#[cycle(asks)]
fn push_inside<'p>(asks: &mut Items<Ask<'p>>, stmts: &'p [Stmt], nesting: usize) -> Mem<()>
    ensures { OnOk result (map spec.seen asks.new ≡ map spec.seen asks.old ++ spec.all_asks stmts.now) }
{
    if nesting == 0 {
        return Err(AllocError);
    }
    push_stmts(asks, stmts, nesting - 1)
}

fn push_arms<'p>(asks: &mut Items<Ask<'p>>, arms: &'p [Arm]) -> Mem<()>
    ensures { OnOk result (map spec.seen asks.new ≡ map spec.seen asks.old ++ map spec.Read arms.now) }
{
    for arm in arms {
        asks.push(Ask::Read(arm))?;
    }
    Ok(())
}

/// Adds what is asked of the members of what is built: those that take parts of the element, and the others.
fn push_built<'p>(
    asks: &mut Items<Ask<'p>>,
    forwarded: &'p [Forwarded],
    inits: &'p [Init],
) -> Mem<()>
    ensures { OnOk result (map spec.seen asks.new
        ≡ map spec.seen asks.old ++ (map spec.Part forwarded.now ++ map spec.Member inits.now)) }
{
    push_parts(asks, forwarded)?;
    push_members(asks, inits)
}

fn push_parts<'p>(asks: &mut Items<Ask<'p>>, forwarded: &'p [Forwarded]) -> Mem<()>
    ensures { OnOk result (map spec.seen asks.new ≡ map spec.seen asks.old ++ map spec.Part forwarded.now) }
{
    for it in forwarded {
        asks.push(Ask::Part(it))?;
    }
    Ok(())
}

fn push_members<'p>(asks: &mut Items<Ask<'p>>, inits: &'p [Init]) -> Mem<()>
    ensures { OnOk result (map spec.seen asks.new ≡ map spec.seen asks.old ++ map spec.Member inits.now) }
{
    for init in inits {
        asks.push(Ask::Member(init))?;
    }
    Ok(())
}

impl Ask<'_> {
    /// The slot of which this is asked. The one field as which a receiver is read counts as the first slot.
    pub fn slot(&self, what: Asked) -> Option<u32>
        ensures { result ≡ spec.asked_slot what (spec.seen self.now) }
    {
        match (what, self) {
            (Asked::Many, Ask::Many(slot)) => Some(*slot),
            (Asked::Read, Ask::Read(arm)) if arm.with.is_none() && arm.post.is_none() => {
                Some(arm.slot)
            }
            (Asked::Read, Ask::Flatten(slot)) => Some(*slot),
            (Asked::Read, Ask::Alone) => Some(0),
            (Asked::Default, Ask::Member(init)) if is_trait(&init.fallback) => Some(init.slot),
            _ => None,
        }
    }

    /// Whether the default of the receiver's type is asked for.
    pub fn is_whole_default(&self) -> bool
        ensures { result ≡ spec.is_whole_default (spec.seen self.now) }
    {
        match self {
            Ask::Whole(DefaultSource::Trait) => true,
            _ => false,
        }
    }

    /// Whether it is asked what an identifier makes.
    pub fn is_from_ident(&self) -> bool
        ensures { result ≡ spec.is_from_ident (spec.seen self.now) }
    {
        match self {
            Ask::Whole(DefaultSource::FromIdent) => true,
            _ => false,
        }
    }
}

fn is_trait(fallback: &Option<Fallback>) -> bool
    ensures { result ≡ spec.is_trait fallback.now }
{
    match fallback {
        Some(Fallback::Trait) => true,
        _ => false,
    }
}
