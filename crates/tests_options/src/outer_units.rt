//! What the options of receivers that read elements compile to: a row `DECLARATION => FUNCTION`, with its statements as short
//! texts.

use crate::ask::{item_of, push_node, rows};
use crate::units::{name_of, push_all, push_plain};
use crate::values::table;
use codegen_outer::OuterFromImpl;
use codegen_program::{
    Callable, DataShape, DefaultSource, Forward, Forwarded, Init, Magic, ShapeSpec, Stmt,
};
use error_core::{Fail as Refusal, Text};
use node_core::Ident;
use options_core::{
    FdiOptions, FromAttributesOptions, FromFieldOptions, FromTypeParamOptions, FromVariantOptions,
};
use std::alloc::Global;
use std::test::Fail;
use tests_checks::Tested;

/// What the options of a declaration compile to under the derive that the kind names.
pub fn compiled_under(alloc: Global, kind: &str, row: &str) -> Tested<Text> {
    let item = item_of(alloc, row)?;
    let table = table(alloc)?;
    match kind {
        "unit of FromDeriveInput" => {
            let options = sound(row, FdiOptions::new(alloc, &item, &table))?;
            function(alloc, &options.as_impl(alloc)?)
        }
        "unit of FromField" => {
            let options = sound(row, FromFieldOptions::new(alloc, &item, &table))?;
            function(alloc, &options.as_impl(alloc)?)
        }
        "unit of FromTypeParam" => {
            let options = sound(row, FromTypeParamOptions::new(alloc, &item, &table))?;
            function(alloc, &options.as_impl(alloc)?)
        }
        "unit of FromVariant" => {
            let options = sound(row, FromVariantOptions::new(alloc, &item, &table))?;
            function(alloc, &options.as_impl(alloc)?)
        }
        _ => {
            let options = sound(row, FromAttributesOptions::new(alloc, &item, &table))?;
            function(alloc, &options.as_impl(alloc)?)
        }
    }
}

/// The shapes that `supports` holds: a row `TEST: WORDS => SHAPES`, with the name of the crate's test.
pub fn supported(alloc: Global, row: &str) -> Tested<Text> {
    let (_, words) = row.split_once(": ").unwrap_or(("", row));
    let row = format!(in alloc; "#[darling(supports({words}))] struct A;")?;
    let item = item_of(alloc, row.as_str())?;
    let options = sound(row.as_str(), FdiOptions::new(alloc, &item, &table(alloc)?))?;
    let Some(shapes) = &options.supports else {
        return Err(Fail::new(format_args!("{row} has no shapes")));
    };
    let mut text = Text::new(alloc);
    if shapes.any {
        text.push_str("any ")?;
    }
    push_shape(&mut text, "structs", &shapes.struct_values)?;
    push_shape(&mut text, " enums", &shapes.enum_values)?;
    Ok(text)
}

fn sound<T: Drop>(row: &str, answer: Result<T, Refusal>) -> Tested<T> {
    match answer {
        Ok(options) => Ok(options),
        Err(_) => Err(Fail::new(format_args!("{row} is refused"))),
    }
}

/// The statements of the one function.
fn function<'a, I: OuterFromImpl<'a>>(alloc: Global, left: &I) -> Tested<Text> {
    if !left.as_outer().base.has_few_fields() {
        return Err(Fail::new(format_args!("it has too many fields")));
    }
    let unit = left.unit_of(alloc, 0)?;
    let mut text = Text::new(alloc);
    for func in unit.funcs.as_slice() {
        push_all(&mut text, &[name_of(func.name), " "])?;
        for stmt in func.stmts.as_slice() {
            push_stmt(alloc, &mut text, stmt)?;
        }
    }
    Ok(text)
}

fn push_stmt(alloc: Global, text: &mut Text, stmt: &Stmt) -> Tested<()> {
    match stmt {
        Stmt::DeclareForward { ident } => push_ident(alloc, text, "kept ", ident)?,
        Stmt::ForwardDone { ident, with } => push_call(alloc, text, "done ", ident, with)?,
        Stmt::ForAttributes {
            names,
            items,
            forward,
        } => {
            text.push_str("attributes")?;
            for name in names.as_slice() {
                push_all(text, &[" ", name.as_str()])?;
            }
            push_forward(text, forward)?;
            text.push('{')?;
            for item in items.as_slice() {
                push_plain(alloc, text, item)?;
            }
            text.push('}')?;
        }
        Stmt::CheckShape { shapes } => push_shapes(text, shapes)?,
        Stmt::ReadBody { ident, with } => {
            match ident {
                Some(ident) => push_call(alloc, text, "body ", ident, with)?,
                None => text.push_str("no body")?,
            }
        }
        Stmt::ReadGenerics { ident, with } => push_call(alloc, text, "generics ", ident, with)?,
        Stmt::SetDefault { from } => push_default(alloc, text, from)?,
        Stmt::Delegate { member, ty, .. } => {
            push_all(text, &["as .", member.as_str(), ": "])?;
            push_node(alloc, text, ty)?;
        }
        Stmt::Build {
            forwarded,
            inits,
            ..
        } => push_build(alloc, text, forwarded.as_slice(), inits.as_slice())?,
        other => push_plain(alloc, text, other)?,
    }
    text.push(';')?;
    Ok(())
}

fn push_ident(alloc: Global, text: &mut Text, before: &str, ident: &Ident) -> Tested<()> {
    text.push_str(before)?;
    text.push_str(ident.to_text(alloc)?.as_str())?;
    Ok(())
}

fn push_call(
    alloc: Global,
    text: &mut Text,
    before: &str,
    ident: &Ident,
    with: &Option<Callable>,
) -> Tested<()> {
    push_ident(alloc, text, before, ident)?;
    if let Some(callable) = with {
        text.push_str(" by ")?;
        push_node(alloc, text, callable)?;
    }
    Ok(())
}

fn push_forward(text: &mut Text, forward: &Forward) -> Tested<()> {
    match forward {
        Forward::Nothing => {}
        Forward::All => text.push_str(" keeps all")?,
        Forward::Only(names) => {
            text.push_str(" keeps")?;
            for name in names.as_slice() {
                push_all(text, &[" ", name.as_str()])?;
            }
        }
    }
    Ok(())
}

fn push_shapes(text: &mut Text, shapes: &ShapeSpec) -> Tested<()> {
    match shapes {
        ShapeSpec::Any => text.push_str("every shape")?,
        ShapeSpec::Body { structs, enums } => {
            push_shape(text, "structs", structs)?;
            push_shape(text, " enums", enums)?;
        }
        ShapeSpec::Fields(shape) => push_shape(text, "fields", shape)?,
    }
    Ok(())
}

fn push_shape(text: &mut Text, before: &str, shape: &DataShape) -> Tested<()> {
    text.push_str(before)?;
    let words = [
        (shape.named, " named"),
        (shape.tuple, " tuple"),
        (shape.newtype, " newtype"),
        (shape.unit, " unit"),
        (shape.any, " any"),
    ];
    for (takes, word) in words {
        if takes {
            text.push_str(word)?;
        }
    }
    Ok(())
}

fn push_default(alloc: Global, text: &mut Text, from: &DefaultSource) -> Tested<()> {
    text.push_str("default")?;
    match from {
        DefaultSource::Trait => {}
        DefaultSource::FromIdent => text.push_str(" of ident")?,
        DefaultSource::Explicit(callable) => {
            text.push_str(" by ")?;
            push_node(alloc, text, callable)?;
        }
    }
    Ok(())
}

fn push_build(alloc: Global, text: &mut Text, parts: &[Forwarded], inits: &[Init]) -> Tested<()> {
    text.push_str("build")?;
    for part in parts {
        push_call(alloc, text, " ", &part.member, &part.with)?;
        push_all(text, &["=", part_name(part.what)])?;
        if let Some(ty) = &part.ty {
            text.push_str(": ")?;
            push_node(alloc, text, ty)?;
        }
    }
    for init in inits {
        let slot = init.slot;
        push_all(text, &[" ", init.member.as_str()])?;
        text.push_str(format!(in alloc; "={slot}")?.as_str())?;
    }
    Ok(())
}

fn part_name(what: Magic) -> &'static str {
    match what {
        Magic::Ident => "Ident",
        Magic::Attrs => "Attrs",
        Magic::Vis => "Vis",
        Magic::Generics => "Generics",
        Magic::Body => "Body",
        Magic::Ty => "Ty",
        Magic::Discriminant => "Discriminant",
        Magic::Fields => "Fields",
        Magic::Bounds => "Bounds",
        Magic::Default => "Default",
    }
}

// Every part, the attributes that are read and kept, and the shapes.
const DERIVE_INPUT: &str =
    r#"struct A { n: u8 } => from_derive_input errors;one 0;every shape;no body;check 0 n;finish;build n=0;
#[darling(attributes(a, b::c))] struct A { n: u8 } => from_derive_input errors;one 0;attributes a b::c{items n=>0
   else of n};every shape;no body;check 0 n;finish;build n=0;
#[darling(attributes(a), forward_attrs)] struct A { n: u8 } => from_derive_input errors;one 0;attributes a{items n=>0
   else of n};every shape;no body;check 0 n;finish;build n=0;
#[darling(attributes(a), forward_attrs(c, d::e))] struct A { attrs: Vec<Attribute>, n: u8 }
   => from_derive_input errors;one 0;kept attrs;attributes a keeps c d::e{items n=>0 else of n};done attrs;every
   shape;no body;check 0 n;finish;build attrs=Attrs: Vec < Attribute > n=0;
#[darling(forward_attrs)] struct A { #[darling(with = f)] attrs: B }
   => from_derive_input errors;kept attrs;attributes keeps all{};done attrs by f;every shape;no body;finish;build
   attrs by f=Attrs: B;
#[darling(forward_attrs())] struct A { attrs: Vec<Attribute> }
   => from_derive_input errors;kept attrs;done attrs;every shape;no body;finish;build attrs=Attrs: Vec < Attribute >;
#[darling(attributes(a), forward_attrs())] struct A { attrs: Vec<Attribute>, n: u8 }
   => from_derive_input errors;one 0;kept attrs;attributes a{items n=>0 else of n};done attrs;every shape;no body;
  check 0 n;finish;build attrs=Attrs: Vec < Attribute > n=0;
struct A { n: u8, data: Data<V, F>, generics: G, attrs2: H, vis: Visibility, #[darling(with = f)] ident: B, m: u8 }
   => from_derive_input errors;one 0;one 1;one 2;every shape;body data;generics generics;check 0 n;check 1 attrs2;
  check 2 m;finish;build ident by f=Ident: B vis=Vis generics=Generics: G data=Body: Data < V , F > n=0 attrs2=1 m=2;
#[darling(forward_attrs)] struct A { #[darling(with = f)] data: D, #[darling(with = g)] generics: G, attrs: H, vis:
   V, ident: I } => from_derive_input errors;kept attrs;attributes keeps all{};done attrs;every shape;body data by f;
  generics generics by g;finish;build ident=Ident: I vis=Vis attrs=Attrs: H generics by g=Generics: G data by f=Body:
   D;
#[darling(from_ident)] struct A { n: u8, #[darling(flatten)] m: B }
   => from_derive_input errors;one 0;one 1;buffer;every shape;no body;flatten 1;finish;default of ident;build n=0 m=1;
#[darling(default = f, map = g)] struct A { ident: I } => from_derive_input errors;every shape;no body;finish;default by f;build ident=Ident: I;transform;
#[darling(map = g)] struct A(u8); => from_derive_input as .0: u8;transform;
#[darling(transparent, attributes(a), from_ident)] struct A { n: u8 } => from_derive_input as .n: u8;
#[darling(transparent)] struct A { ident: I, n: u8 } => from_derive_input as .n: u8;
struct A(u8, u8); => from_derive_input errors;one 0;one 1;every shape;no body;check 0 __unnamed;check 1 __unnamed;finish;build __unnamed=0 __unnamed=1;
struct A; => from_derive_input errors;every shape;no body;finish;build;
enum A {} => from_derive_input errors;every shape;no body;finish;build;
#[darling(supports(any, struct_named))] struct A; => from_derive_input errors;every shape;no body;finish;build;
#[darling(supports(struct_named, struct_newtype, enum_unit))] struct A; => from_derive_input errors;structs named newtype enums unit;no body;finish;build;
#[darling(supports(struct_any))] struct A; => from_derive_input errors;structs named tuple newtype unit enums;no body;finish;build;
#[darling(supports(enum_any, enum_tuple, struct_tuple, struct_unit))] struct A;
   => from_derive_input errors;structs tuple unit enums named tuple newtype unit;no body;finish;build;
#[darling(supports())] struct A; => from_derive_input errors;structs enums;no body;finish;build;"#;

const FIELD: &str = r#"struct A { n: u8 } => from_field errors;one 0;check 0 n;finish;build n=0;
#[darling(attributes(a), forward_attrs)] struct A { n: u8, #[darling(with = f)] attrs: B, ty: Type, vis: Visibility,
   ident: Option<Ident> } => from_field errors;one 0;kept attrs;attributes a keeps all{items n=>0 else of n};done
   attrs by f;check 0 n;finish;build ident=Ident: Option < Ident > vis=Vis ty=Ty attrs by f=Attrs: B n=0;
#[darling(attributes(a), from_ident)] struct A { data: D, generics: G }
   => from_field errors;one 0;one 1;attributes a{items data=>0 generics=>1 else of data generics};finish;default of
   ident;build data=0 generics=1;
#[darling(map = g)] struct A(u8); => from_field errors;one 0;check 0 __unnamed;finish;build __unnamed=0;transform;
#[darling(transparent)] struct A { n: u8 } => from_field errors;one 0;check 0 n;finish;build n=0;"#;

const TYPE_PARAM: &str =
    r#"#[darling(forward_attrs(a))] struct A { n: u8, default: Option<Type>, bounds:
   Vec<TypeParamBound>, attrs: B, #[darling(with = f)] ident: I }
   => from_type_param errors;one 0;kept attrs;attributes keeps a{};done attrs;check 0 n;finish;build ident by
   f=Ident: I attrs=Attrs: B bounds=Bounds default=Default n=0;
#[darling(default)] struct A { vis: V, ty: T } => from_type_param errors;one 0;one 1;finish;default;build vis=0 ty=1;"#;

const VARIANT: &str =
    r#"#[darling(attributes(a), forward_attrs)] struct A { n: u8, #[darling(with = f)] fields: B,
   attrs: C, discriminant: D, ident: I } => from_variant errors;one 0;kept attrs;attributes a keeps all{items n=>0
   else of n};done attrs;every shape;body fields by f;check 0 n;finish;build ident=Ident: I discriminant=Discriminant
   attrs=Attrs: C fields by f=Fields: B n=0;
struct A { data: D } => from_variant errors;one 0;every shape;no body;check 0 data;finish;build data=0;
#[darling(supports(any))] struct A; => from_variant errors;fields named tuple newtype unit;no body;finish;build;
#[darling(supports(named, unit))] struct A; => from_variant errors;fields named unit;no body;finish;build;
#[darling(supports())] struct A; => from_variant errors;fields;no body;finish;build;
#[darling(supports(tuple, newtype), from_ident)] struct A { fields: Fields<F> }
   => from_variant errors;fields tuple newtype;body fields;finish;default of ident;build fields=Fields: Fields < F >;"#;

const ATTRIBUTES: &str = r#"#[darling(attributes(a))] struct A { n: u8 }
   => from_attributes errors;one 0;attributes a{items n=>0 else of n};check 0 n;finish;build n=0;
#[darling(attributes(a), forward_attrs, from_ident)] struct A { n: u8, vis: V, #[darling(with = f)] attrs: B }
   => from_attributes errors;one 0;one 1;kept attrs;attributes a keeps all{items n=>0 vis=>1 else of n vis};done
   attrs by f;finish;default;build attrs by f=Attrs: B n=0 vis=1;
#[darling(attributes(a))] struct A { ident: I } => from_attributes errors;attributes a{items else of};finish;build;
#[darling(and_then = g)] struct A(u8); => from_attributes as .0: u8;transform;
#[darling(transparent)] struct A { r#in: u8 } => from_attributes as .r#in: u8;
#[darling(attributes(a))] struct A; => from_attributes errors;attributes a{items else of};finish;build;"#;

// The words of `supports`.
const SUPPORTS: &str = r#"supports_any: any => any structs enums
supports_struct: struct_any, struct_newtype => structs newtype any enums
supports_mixed: struct_newtype, enum_newtype, enum_tuple => structs newtype enums tuple newtype"#;

#[test]
fn options_of_elements_compile(rt: HostRuntime) -> Tested<()> {
    let alloc = rt.alloc();
    rows(alloc, "unit of FromDeriveInput", DERIVE_INPUT)?;
    rows(alloc, "unit of FromField", FIELD)?;
    rows(alloc, "unit of FromTypeParam", TYPE_PARAM)?;
    rows(alloc, "unit of FromVariant", VARIANT)?;
    rows(alloc, "unit of FromAttributes", ATTRIBUTES)?;
    rows(alloc, "supports", SUPPORTS)
}
