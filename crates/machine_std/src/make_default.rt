//! The default of a declaration, which is made field by field.

ghost use Rattle.std.specs.Prelude.{◌≡◌, IfOk, OnOk, ◌++◌, ◌∷◌, [], option_map, slice_get};
ghost use Rattle.std.specs.Option.{option_copied};
ghost use Rattle.machine_cells.specs.Defaults.{layer_default, leaf_default as default_of_leaf, row_default};
ghost use Rattle.machine_cells.specs.Values.{given, ignored as ignored_value, spanned as spanned_value};
ghost use Rattle.machine_host.specs.Override.TheVariants.{Inherit};
ghost use Rattle.machine_host.specs.Decls.{decl_names, member_name};
ghost use Rattle.machine_rows.specs.Heads.{seen_head};
ghost use Rattle.machine_rows.specs.Rows.{row_at};
ghost use Rattle.node_expr.specs.declared.ty.«Type».{«Type» as TypeSeen};
ghost use Rattle.tok_types.specs.Ident.{ident_text};
ghost use Rattle.tok_types.specs.declared.span.Span.TheVariants.{CallSite};
ghost use Rattle.machine_std.specs.Defaults as spec;
ghost use Rattle.machine_std.specs.Defaults.{none_of_host};
ghost use Rattle.machine_std.specs.Rests.{around_layer, head_default};

use base_core::{Items, Mem, Text};
use codegen_program::Decls;
use machine_rows::{Head, Leaf, Wrapper, head_of};
use machine_value::Value;
use node_core::{Data, DeriveInput, Field, Fields, Style};
use node_expr::Type;
use std::alloc::{AllocError, Global};
use tok_types::{Ident, Span};

/// How deep a type is looked into.
pub const MAX_LEVEL: usize = 256;

/// How deep a default may be, in levels of types and of declarations. A deeper one is as a want of memory: neither
/// its making nor its drop would find room on the stack.
pub const ROOM: usize = 1024;

/// The named fields of a struct. Nothing else has a default.
pub fn named_in(decl: &DeriveInput) -> Option<&[Field]>
    ensures { option_map (λ fields. fields.now) result ≡ spec.named_in decl.now.body }
{
    match &decl.body {
        Data::Struct(it) => match &it.fields {
            Fields::Named(it) => Some(it.named.as_slice()),
            _ => None,
        },
        _ => None,
    }
}

/// The declaration of the number.
pub fn declaration(decls: &Decls, number: usize) -> Option<&DeriveInput>
    ensures { option_copied result ≡ slice_get decls.now number }
{
    decls.get(number)
}

/// The default of the declaration of the number.
#[cycle(make_default)]
pub fn declaration_default(
    alloc: Global,
    decls: &Decls,
    number: usize,
    room: usize,
) -> Mem<Option<Value>>
    ensures { IfOk result (λ made. made ≡ spec.default_among decls.now number) }
{
    match declaration(decls, number) {
        Some(decl) => decl_made(alloc, decls, number, room, decl),
        None => Ok(None),
    }
}

#[cycle(make_default)]
fn decl_made(
    alloc: Global,
    decls: &Decls,
    below: usize,
    room: usize,
    decl: &DeriveInput,
) -> Mem<Option<Value>>
    ensures { IfOk result (λ made. made ≡ spec.decl_default (spec.type_default decls.now (spec.default_below decls.now below)) (Some decl.now)) }
{
    match named_in(decl) {
        Some(fields) => struct_default(alloc, decls, below, room, &decl.ident, fields),
        None => Ok(None),
    }
}

/// The default of a struct whose fields' types are of the declarations below the number.
#[cycle(make_default)]
fn struct_default(
    alloc: Global,
    decls: &Decls,
    below: usize,
    room: usize,
    ident: &Ident,
    fields: &[Field],
) -> Mem<Option<Value>>
    ensures { IfOk result (λ made. made ≡ spec.struct_default (spec.type_default decls.now (spec.default_below decls.now below)) ident.now fields.now) }
{
    let mut members = Items::new(alloc);
    for field in fields {
        match type_default(alloc, decls, below, MAX_LEVEL, room, &field.ty)? {
            Some(value) => push_member(alloc, &mut members, field, value)?,
            None => return Ok(None),
        }
    }
    struct_of(alloc, ident, members)
}

#[cycle(make_default)]
fn type_default(
    alloc: Global,
    decls: &Decls,
    below: usize,
    level: usize,
    room: usize,
    ty: &Type,
) -> Mem<Option<Value>>
    ensures { IfOk result (λ made. made ≡ row_default (spec.default_below decls.now below) none_of_host (row_at (decl_names decls.now) level ty.now)) }
{
    if room == 0 {
        return Err(AllocError);
    }
    if level == 0 {
        return Ok(None);
    }
    head_made(alloc, decls, below, level - 1, room - 1, head_of(decls, ty))
}

#[cycle(make_default)]
fn head_made(
    alloc: Global,
    decls: &Decls,
    below: usize,
    level: usize,
    room: usize,
    head: Head<&Type>,
) -> Mem<Option<Value>>
    ensures { (ty : TypeSeen) → IfOk result (λ made. made ≡ head_default (spec.default_below decls.now below) (λ inner. row_default (spec.default_below decls.now below) none_of_host (row_at (decl_names decls.now) level inner)) ty (seen_head head.entry)) }
{
    match head {
        Head::Unit => Ok(Some(Value::Unit)),
        Head::Leaf(leaf) => leaf_default(alloc, leaf),
        Head::Around(wrapper, inner) => {
            around_default(alloc, decls, below, level, room, wrapper, inner)
        }
        Head::Declared(number) => number_default(alloc, decls, below, number, room),
        Head::Host => Ok(None),
    }
}

/// The default of the declaration of the number, which has to stand below.
#[cycle(make_default)]
fn number_default(
    alloc: Global,
    decls: &Decls,
    below: usize,
    number: usize,
    room: usize,
) -> Mem<Option<Value>>
    ensures { IfOk result (λ made. made ≡ spec.default_below decls.now below number) }
{
    if number >= below {
        return Ok(None);
    }
    declaration_default(alloc, decls, number, room)
}

#[cycle(make_default)]
fn around_default(
    alloc: Global,
    decls: &Decls,
    below: usize,
    level: usize,
    room: usize,
    wrapper: Wrapper,
    inner: &Type,
) -> Mem<Option<Value>>
    ensures { IfOk result (λ made. made ≡ layer_default (spec.default_below decls.now below) none_of_host (around_layer wrapper (row_default (spec.default_below decls.now below) none_of_host (row_at (decl_names decls.now) level inner.now)))) }
{
    match wrapper {
        Wrapper::Option => Ok(Some(Value::Opt(None))),
        Wrapper::Box => type_default(alloc, decls, below, level, room, inner),
        Wrapper::SpannedValue => {
            spanned(
                alloc,
                type_default(alloc, decls, below, level, room, inner)?,
            )
        }
        Wrapper::Override => inherit(alloc),
        Wrapper::HashMap(_) => Ok(Some(Value::Map(Items::new(alloc)))),
        Wrapper::BTreeMap(_) => Ok(Some(Value::Map(Items::new(alloc)))),
        Wrapper::Vec => Ok(Some(Value::List(Items::new(alloc)))),
        Wrapper::Result => Ok(None),
        Wrapper::ResultMeta => Ok(None),
        Wrapper::WithOriginal => Ok(None),
    }
}

fn push_member(
    alloc: Global,
    members: &mut Items<(Text, Value)>,
    field: &Field,
    value: Value,
) -> Mem<()>
    ensures { OnOk result (members.new ≡ members.old ++ (member_name field.now, value) ∷ []) }
{
    let name = name_of(alloc, field)?;
    members.push((name, value))
}

fn name_of(alloc: Global, field: &Field) -> Mem<Text>
    ensures { IfOk result (λ name. name ≡ member_name field.now) }
{
    match &field.ident {
        Some(ident) => ident.to_text(alloc),
        None => Ok(Text::new(alloc)),
    }
}

fn struct_of(alloc: Global, ident: &Ident, fields: Items<(Text, Value)>) -> Mem<Option<Value>>
    ensures { IfOk result (λ made. made ≡ Some (Value.Struct (ident_text ident.now) Style.Struct fields)) }
{
    let name = ident.to_text(alloc)?;
    let style = Style::Struct;
    Ok(Some(Value::Struct {
        name,
        style,
        fields,
    }))
}

/// The value with the place of nowhere.
fn spanned(alloc: Global, value: Option<Value>) -> Mem<Option<Value>>
    ensures { IfOk result (λ made. made ≡ option_map (λ it. spanned_value it CallSite) value) }
{
    match value {
        Some(value) => Ok(Some(spanned_struct(alloc, value)?)),
        None => Ok(None),
    }
}

fn spanned_struct(alloc: Global, value: Value) -> Mem<Value>
    ensures { IfOk result (λ made. made ≡ spanned_value value CallSite) }
{
    let mut fields = Items::of(alloc, (Text::from_str(alloc, "value")?, value))?;
    fields.push((
        Text::from_str(alloc, "span")?,
        Value::Span(Some(Span::CallSite)),
    ))?;
    let name = Text::from_str(alloc, "SpannedValue")?;
    let style = Style::Struct;
    Ok(Value::Struct {
        name,
        style,
        fields,
    })
}

/// `Override::Inherit`
fn inherit(alloc: Global) -> Mem<Option<Value>>
    ensures { IfOk result (λ made. made ≡ Some (given Inherit)) }
{
    let ty = Text::from_str(alloc, "Override")?;
    let name = Text::from_str(alloc, "Inherit")?;
    let style = Style::Unit;
    let fields = Items::new(alloc);
    Ok(Some(Value::Variant {
        ty,
        name,
        style,
        fields,
    }))
}

fn ignored(alloc: Global) -> Mem<Option<Value>>
    ensures { IfOk result (λ made. made ≡ Some ignored_value) }
{
    let name = Text::from_str(alloc, "Ignored")?;
    let style = Style::Unit;
    let fields = Items::new(alloc);
    Ok(Some(Value::Struct {
        name,
        style,
        fields,
    }))
}

fn leaf_default(alloc: Global, leaf: Leaf) -> Mem<Option<Value>>
    ensures { IfOk result (λ made. made ≡ default_of_leaf leaf) }
{
    match leaf {
        Leaf::Ignored => ignored(alloc),
        Leaf::Bool => Ok(Some(Value::Bool(false))),
        Leaf::Char => Ok(Some(Value::Char('\0'))),
        Leaf::String | Leaf::PathBuf => Ok(Some(Value::Text(Text::new(alloc)))),
        Leaf::Integer(_) => Ok(Some(Value::Int {
            negative: false,
            digits: 0,
        })),
        Leaf::Flag => Ok(Some(Value::Opt(None))),
        Leaf::Vec(_) | Leaf::HashSet(_) | Leaf::PathList | Leaf::Punctuated(_) => {
            Ok(Some(Value::List(Items::new(alloc))))
        }
        _ => Ok(None),
    }
}
