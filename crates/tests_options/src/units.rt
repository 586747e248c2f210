//! What the options of `FromMeta` compile to: a row `DECLARATION => FUNCTIONS`, each with its statements, as short texts.

use crate::ask::{push_node, rows};
use crate::variants::options_of;
use codegen_program::{
    Alternatives, Arm, FuncName, Init, Rest, Stmt, Unit, UnitArm, UnitForm, VariantArm, VariantForm,
};
use error_core::Text;
use node_core::{Ident, Type};
use std::alloc::Global;
use std::test::Fail;
use tests_checks::Tested;

// Unit structs, structs that are read as their one field is, and those that are read field by field.
const STRUCTS: &str = r#"struct A; => from_word build A;
#[darling(default, allow_unknown_fields)] struct r#A; => from_word build r#A;
struct A(u8); => from_meta A.0: u8;
#[darling(transparent, default)] struct A(#[darling(skip, with = f)] Vec<u8>); => from_meta A.0: Vec < u8 >;
#[darling(transparent)] struct A { a: u8 } => from_meta A.a: u8;
#[darling(transparent, rename_all = "kebab")] struct A { #[darling(rename = "x", default)] r#in: a::B } => from_meta A.r#in: a :: B;
struct A { a: u8 } => from_list one 0;errors;items a=>0 else of a;check 0 a;finish;build A a=0;
struct A {} => from_list errors;items else of;finish;build A;
#[darling(default = f, map = g)] struct A { a: u8, #[darling(flatten)] b: B }
   => from_list one 0;one 1;buffer;errors;items a=>0 else keep;flatten 1;finish;default;build A a=0 b=1;transform;"#;

// Enums: what is read of a list, and of a string.
const ENUMS: &str = r#"enum A {} => from_list of;from_string of;
enum A { #[darling(skip)] B, #[darling(skip)] C { c: u8 } } => from_list of;from_string of;
enum A { B, #[darling(skip)] C, D(u8), #[darling(rename = "x")] E { a: u8 }, OneTwo }
   => from_list B=B D=D.0: u8 x=E{errors;one 0;items a=>0 else of a;check 0 a;finish at x;build A::E a=0;}
   one_two=OneTwo of B D x one_two;from_string B=B D=D.0: u8 x=E{..} one_two=OneTwo of B D x one_two;
enum A { B { a: u8, b: u8 }, #[darling(skip)] C { c: u8 }, D(u8), #[darling(transparent)] E { e: u8 }, F { f: u8 }, G
   {}, H { h: u8 } } => from_list B=B{errors;one 0;one 1;items a=>0 b=>1 else of a b;check 0 a;check 1 b;finish at B;
  build A::B a=0 b=1;} D=D.0: u8 E=E.e: u8 F=F{errors;one 2;items f=>2 else of f;check 2 f;finish at F;build A::F
   f=2;} G=G{errors;items else of;finish at G;build A::G;} H=H{errors;one 3;items h=>3 else of h;check 3 h;finish at
   H;build A::H h=3;} of B D E F G H;from_string B=B{..} D=D.0: u8 E=E.e: u8 F=F{..} G=G{..} H=H{..} of B D E F G H;
enum A { #[darling(transparent)] B { a: u8, b: u8 }, #[darling(transparent)] C }
   => from_list B=B{errors;one 0;one 1;items a=>0 b=>1 else of a b;check 0 a;check 1 b;finish at B;build A::B a=0
   b=1;} C=C of B C;from_string B=B{..} C=C of B C;
enum A { B { #[darling(multiple)] a: Vec<u8>, #[darling(skip)] b: u8, #[darling(rename = "x", default)] c: u8 } }
   => from_list B=B{errors;many 0;one 1;one 2;items a=>>0 x=>2 else of a x;finish at B;build A::B a=0 b=1 c=2;} of B;
  from_string B=B{..} of B;
enum A { B { a: u8, #[darling(flatten)] b: B } } => from_list B=B{errors;one 0;one 1;buffer;items a=>0 else keep;
  check 0 a;check 1 b;finish at B;build A::B a=0 b=1;} of B;from_string B=B{..} of B;
#[darling(allow_unknown_fields, rename_all = "kebab")] enum A { OneTwo { one_two: u8 }, C }
   => from_list one-two=OneTwo{errors;one 0;items one-two=>0 else nothing;check 0 one-two;finish at one-two;build
   A::OneTwo one_two=0;} C=C of one-two C;from_string one-two=OneTwo{..} C=C of one-two C;
#[darling(default = f)] enum r#A { r#B, C { #[darling(default)] c: u8 } }
   => from_list r#B=r#B C=C{errors;one 0;items c=>0 else of c;finish at C;build r#A::C c=0;} of r#B C;from_string
   r#B=r#B C=C{..} of r#B C;"#;

// What words, callables and the other options of the declaration become.
const CALLS: &str = r#"#[darling(from_word = f, from_none = a::g, from_expr = |x| h(x))] struct A {}
   => from_word f as from_word;from_none a :: g as from_none;from_expr | x | h (x) as from_expr;from_list errors;
  items else of;finish;build A;
#[darling(from_expr = h, from_none = g)] enum A { C(u8) } => from_list C=C.0: u8 of C;from_string C=C.0: u8 of C;
  from_none g as from_none;from_expr h as from_expr;
#[darling(from_word = f)] enum A { #[darling(word = false)] B } => from_list B=B of B;from_string B=B of B;from_word f as from_word;
enum A { #[darling(word = false)] B, C(u8), #[darling(word)] r#D }
   => from_list B=B C=C.0: u8 r#D=r#D of B C r#D;from_string B=B C=C.0: u8 r#D=r#D of B C r#D;from_word || _darling
   :: export :: Ok (Self :: r#D) as from_word;
enum A { #[darling(skip, word)] B } => from_list of;from_string of;from_word || _darling :: export :: Ok (Self :: B) as from_word;
enum A { #[darling(word = false)] B } => from_list B=B of B;from_string B=B of B;
#[darling(derive_syn_parse, crate = a::b)] struct A; => syn a :: b from_word build A;
#[darling(derive_syn_parse = false, crate = ::darling)] struct A; => from_word build A;"#;

/// What the options of a declaration compile to that derives `FromMeta`.
pub fn compiled(alloc: Global, row: &str) -> Tested<Text> {
    let unit = unit_of(alloc, row)?;
    let mut text = Text::new(alloc);
    if unit.parse_impl {
        text.push_str("syn ")?;
    }
    if let Some(path) = &unit.krate {
        push_node(alloc, &mut text, path)?;
        text.push(' ')?;
    }
    for func in unit.funcs.as_slice() {
        text.push_str(name_of(func.name))?;
        text.push(' ')?;
        for stmt in func.stmts.as_slice() {
            push_stmt(alloc, &mut text, stmt)?;
        }
    }
    Ok(text)
}

fn unit_of(alloc: Global, row: &str) -> Tested<Unit> {
    let options = options_of(alloc, row)?;
    let left = options.as_impl(alloc)?;
    if left.base.has_few_slots() {
        return Ok(left.unit_of(alloc, 0)?);
    }
    Err(Fail::new(format_args!("{row} has too many fields")))
}

pub fn name_of(name: FuncName) -> &'static str {
    match name {
        FuncName::FromMeta => "from_meta",
        FuncName::FromWord => "from_word",
        FuncName::FromList => "from_list",
        FuncName::FromString => "from_string",
        FuncName::FromNone => "from_none",
        FuncName::FromExpr => "from_expr",
        FuncName::FromAttributes => "from_attributes",
        FuncName::FromDeriveInput => "from_derive_input",
        FuncName::FromField => "from_field",
        FuncName::FromTypeParam => "from_type_param",
        FuncName::FromVariant => "from_variant",
    }
}

fn push_stmt(alloc: Global, text: &mut Text, stmt: &Stmt) -> Tested<()> {
    match stmt {
        Stmt::Delegate { name, member, ty } => {
            text.push_str(name.to_text(alloc)?.as_str())?;
            push_member(alloc, text, member.as_str(), ty)?;
        }
        Stmt::Variants { arms, names } => {
            for arm in arms.as_slice() {
                push_variant(alloc, text, arm)?;
            }
            push_names(text, "of", names)?;
        }
        Stmt::UnitNames { arms, names } => {
            for arm in arms.as_slice() {
                push_named(alloc, text, arm)?;
            }
            push_names(text, "of", names)?;
        }
        Stmt::Call { callable, at } => {
            push_node(alloc, text, callable)?;
            push_all(text, &[" as ", name_of(*at)])?;
        }
        other => push_plain(alloc, text, other)?,
    }
    text.push(';')?;
    Ok(())
}

/// Adds a statement in which no other stands.
pub fn push_plain(alloc: Global, text: &mut Text, stmt: &Stmt) -> Tested<()> {
    match stmt {
        Stmt::DeclareErrors => text.push_str("errors")?,
        Stmt::DeclareOne { slot, .. } => push_slot(alloc, text, "one ", *slot)?,
        Stmt::DeclareMany { slot, .. } => push_slot(alloc, text, "many ", *slot)?,
        Stmt::DeclareBuffer => text.push_str("buffer")?,
        Stmt::ForItems { arms, rest } => push_items(alloc, text, arms.as_slice(), rest)?,
        Stmt::ReadFlatten { slot, .. } => push_slot(alloc, text, "flatten ", *slot)?,
        Stmt::CheckMissing { slot, name, .. } => {
            push_slot(alloc, text, "check ", *slot)?;
            push_all(text, &[" ", name.as_str()])?;
        }
        Stmt::CheckErrors { location } => {
            text.push_str("finish")?;
            if let Some(location) = location {
                push_all(text, &[" at ", location.as_str()])?;
            }
        }
        Stmt::SetDefault { .. } => text.push_str("default")?,
        Stmt::Build {
            name,
            variant,
            inits,
            ..
        } => push_build(alloc, text, name, variant, inits.as_slice())?,
        Stmt::Transform { .. } => text.push_str("transform")?,
        _ => text.push_str("none of FromMeta")?,
    }
    Ok(())
}

fn push_variant(alloc: Global, text: &mut Text, arm: &VariantArm<Stmt>) -> Tested<()> {
    push_all(text, &[arm.name.as_str(), "="])?;
    text.push_str(arm.ident.to_text(alloc)?.as_str())?;
    match &arm.form {
        VariantForm::Unit => {}
        VariantForm::Transparent { member, ty } => push_member(alloc, text, member.as_str(), ty)?,
        VariantForm::Struct(stmts) => {
            text.push('{')?;
            for stmt in stmts.as_slice() {
                push_plain(alloc, text, stmt)?;
                text.push(';')?;
            }
            text.push('}')?;
        }
    }
    text.push(' ')?;
    Ok(())
}

fn push_named(alloc: Global, text: &mut Text, arm: &UnitArm) -> Tested<()> {
    push_all(text, &[arm.name.as_str(), "="])?;
    text.push_str(arm.ident.to_text(alloc)?.as_str())?;
    match &arm.form {
        UnitForm::Unit => {}
        UnitForm::Transparent { member, ty } => push_member(alloc, text, member.as_str(), ty)?,
        UnitForm::Other => text.push_str("{..}")?,
    }
    text.push(' ')?;
    Ok(())
}

/// Adds the one member as which something is read, and its type.
fn push_member(alloc: Global, text: &mut Text, member: &str, ty: &Type) -> Tested<()> {
    push_all(text, &[".", member, ": "])?;
    push_node(alloc, text, ty)
}

fn push_items(alloc: Global, text: &mut Text, arms: &[Arm], rest: &Rest) -> Tested<()> {
    text.push_str("items")?;
    for arm in arms {
        let arrow = if arm.many { "=>>" } else { "=>" };
        push_all(text, &[" ", arm.name.as_str()])?;
        push_slot(alloc, text, arrow, arm.slot)?;
    }
    match rest {
        Rest::Buffer => text.push_str(" else keep")?,
        Rest::Ignore => text.push_str(" else nothing")?,
        Rest::Unknown(names) => push_names(text, " else of", names)?,
    }
    Ok(())
}

fn push_build(
    alloc: Global,
    text: &mut Text,
    name: &Ident,
    variant: &Option<Ident>,
    inits: &[Init],
) -> Tested<()> {
    text.push_str("build ")?;
    text.push_str(name.to_text(alloc)?.as_str())?;
    if let Some(variant) = variant {
        text.push_str("::")?;
        text.push_str(variant.to_text(alloc)?.as_str())?;
    }
    for init in inits {
        push_all(text, &[" ", init.member.as_str()])?;
        push_slot(alloc, text, "=", init.slot)?;
    }
    Ok(())
}

fn push_slot(alloc: Global, text: &mut Text, before: &str, slot: u32) -> Tested<()> {
    text.push_str(format!(in alloc; "{before}{slot}")?.as_str())?;
    Ok(())
}

/// Adds the names that a fault may offer.
fn push_names(text: &mut Text, before: &str, names: &Alternatives) -> Tested<()> {
    text.push_str(before)?;
    for name in names.as_slice() {
        push_all(text, &[" ", name.as_str()])?;
    }
    Ok(())
}

pub fn push_all(text: &mut Text, parts: &[&str]) -> Tested<()> {
    for part in parts {
        text.push_str(part)?;
    }
    Ok(())
}

#[test]
fn options_compile(rt: HostRuntime) -> Tested<()> {
    let alloc = rt.alloc();
    rows(alloc, "units", STRUCTS)?;
    rows(alloc, "units", ENUMS)?;
    rows(alloc, "units", CALLS)
}
