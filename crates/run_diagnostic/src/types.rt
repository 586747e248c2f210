//! Types that do not fit their place.

use crate::place::{bytes_of, push_all, push_place, text_at};
use crate::similar::is_misspelled;
use base_core::{Items, Mem, Text};
use codegen_program::{Decls, Derive};
use machine_rows::{Row, row_among};
use node_core::{DeriveInput, Field, Meta};
use node_expr::Type;
use node_span::Spanned;
use run_accepted::derives_of;
use run_parts::Parts;
use std::alloc::{AllocError, Global};
use syn_core::{ParseFail, parse_items};
use tok_core::{LexError, MAX_LEN, lex};
use tok_types::{Span, TokenStream, TokenTree};

/// The names of the table of types.
const NAMES: [&str; 80] = [
    "bool",
    "char",
    "String",
    "PathBuf",
    "i8",
    "i16",
    "i32",
    "i64",
    "i128",
    "isize",
    "u8",
    "u16",
    "u32",
    "u64",
    "u128",
    "usize",
    "NonZeroI8",
    "NonZeroI16",
    "NonZeroI32",
    "NonZeroI64",
    "NonZeroI128",
    "NonZeroIsize",
    "NonZeroU8",
    "NonZeroU16",
    "NonZeroU32",
    "NonZeroU64",
    "NonZeroU128",
    "NonZeroUsize",
    "Flag",
    "Ident",
    "IdentString",
    "Path",
    "Expr",
    "PreservedStrExpr",
    "ExprArray",
    "ExprPath",
    "ExprRange",
    "TypePath",
    "Type",
    "TypeArray",
    "TypeFnPtr",
    "TypeGroup",
    "TypeImplTrait",
    "TypeInfer",
    "TypeNever",
    "TypeParam",
    "TypeParen",
    "TypePtr",
    "TypeReference",
    "TypeSlice",
    "TypeTraitObject",
    "TypeTuple",
    "Visibility",
    "WhereClause",
    "Vec",
    "WherePredicate",
    "Lit",
    "LitInt",
    "LitFloat",
    "LitStr",
    "LitByte",
    "LitByteStr",
    "LitChar",
    "LitBool",
    "HashSet",
    "PathList",
    "Punctuated",
    "Comma",
    "FnArg",
    "Callable",
    "Meta",
    "Ignored",
    "Option",
    "Box",
    "Result",
    "Override",
    "SpannedValue",
    "WithOriginal",
    "HashMap",
    "BTreeMap",
];

/// The declarations of a text; none where it is no list of items.
pub(crate) fn declarations(alloc: Global, text: &str) -> Mem<Items<DeriveInput>> {
    if text.len() > MAX_LEN {
        return Ok(Items::new(alloc));
    }
    match lex(alloc, 0, text) {
        Ok(tokens) => items_of(alloc, &tokens),
        Err(LexError::NoMemory) => Err(AllocError),
        Err(_) => Ok(Items::new(alloc)),
    }
}

fn items_of(alloc: Global, tokens: &TokenStream) -> Mem<Items<DeriveInput>> {
    match parse_items(alloc, tokens) {
        Ok(items) => Ok(items),
        Err(ParseFail::NoMemory) => Err(AllocError),
        Err(ParseFail::Syn(_)) => Ok(Items::new(alloc)),
    }
}

/// Adds what is told of a type that does not fit its place.
pub fn push_unknown_type(alloc: Global, out: &mut Text, parts: &Parts<'_>, span: Span) -> Mem<()> {
    let decls = Decls::new(alloc, declarations(alloc, parts.declarations)?)?;
    let name = text_at(parts.declarations, span);
    push_all(out, &["error: the type `", name, "` does not fit here\n"])?;
    push_place(alloc, out, parts, 1, bytes_of(span))?;
    match field_at(decls.as_slice(), span) {
        Some((here, field)) => push_reason(alloc, out, &decls, here, field),
        None => Ok(()),
    }
}

/// The field whose type stands at the span, and the number of its declaration.
fn field_at(decls: &[DeriveInput], span: Span) -> Option<(usize, &Field)> {
    for (number, decl) in decls.iter().enumerate() {
        for field in decl.body.fields() {
            if field.ty.spanned() == span {
                return Some((number, field));
            }
        }
    }
    None
}

/// Adds why the type of the field does not fit.
fn push_reason(
    alloc: Global,
    out: &mut Text,
    decls: &Decls,
    here: usize,
    field: &Field,
) -> Mem<()> {
    let row = row_among(alloc, decls, &field.ty)?;
    let decls = decls.as_slice();
    out.push_str("  = help: ")?;
    match innermost(&row) {
        Row::Host(ty) => push_unknown_name(out, decls, here, name_of(ty)),
        Row::Declared(number) if *number >= here => {
            push_named(
                out,
                decls,
                *number,
                " stands here or below; a type is declared above the one that has it",
            )
        }
        Row::Declared(number) if !is_meta(alloc, decls, *number)? => {
            push_named(
                out,
                decls,
                *number,
                " does not derive `FromMeta`, so no option is read as it",
            )
        }
        _ => push_shape(out, &row, is_multiple(field)),
    }
}

/// What the type is around.
fn innermost(row: &Row) -> &Row {
    match row {
        Row::Option(inner)
        | Row::Box(inner)
        | Row::Result(inner)
        | Row::ResultMeta(inner)
        | Row::Override(inner)
        | Row::SpannedValue(inner)
        | Row::WithOriginal(inner)
        | Row::HashMap(_, inner)
        | Row::BTreeMap(_, inner)
        | Row::Vec(inner) => innermost(inner.get()),
        Row::Unit | Row::Leaf(_) | Row::Declared(_) | Row::Host(_) => row,
    }
}

/// The last word of a type's path.
fn name_of(ty: &Type) -> &str {
    match ty {
        Type::Path(it) => match it.path.segments.last() {
            Some(segment) => segment.ident.text.as_str(),
            None => "",
        },
        _ => "",
    }
}

/// Adds what is told of a name that nothing has.
fn push_unknown_name(out: &mut Text, decls: &[DeriveInput], here: usize, name: &str) -> Mem<()> {
    if name.is_empty() {
        return out.push_str("types are read by their names; this one has none\n");
    }
    if name == "Tag" {
        return out.push_str("the type `Tag` has no default\n");
    }
    if name == "f32" || name == "f64" {
        return out.push_str(
            "floats are not read; a `LitFloat` is, as the literal that is written\n",
        );
    }
    if let Some(meant) = meant_by(name) {
        push_all(out, &["no type is named `", name, "`; `"])?;
        return push_all(out, &[meant, "` is one\n"]);
    }
    if let Some(meant) = declared_as(decls, here, name) {
        push_all(out, &["no type is named `", name, "`; `"])?;
        return push_all(out, &[meant, "` is declared above\n"]);
    }
    if is_among(name) {
        return push_all(
            out,
            &[
                "`",
                name,
                "` is not read behind this path, or not with these arguments\n",
            ],
        );
    }
    push_all(
        out,
        &[
            "`",
            name,
            "` is neither declared above nor among the types that are read\n",
        ],
    )
}

/// The name of the table that this one may be meant as.
fn meant_by(name: &str) -> Option<&'static str> {
    for known in NAMES {
        if is_misspelled(name, known) {
            return Some(known);
        }
    }
    None
}

/// The name of a declaration above that this one may be meant as.
fn declared_as<'d>(decls: &'d [DeriveInput], here: usize, name: &str) -> Option<&'d str> {
    for (number, decl) in decls.iter().enumerate() {
        if number < here && is_misspelled(name, decl.ident.text.as_str()) {
            return Some(decl.ident.text.as_str());
        }
    }
    None
}

fn is_among(name: &str) -> bool {
    for known in NAMES {
        if known == name {
            return true;
        }
    }
    false
}

/// Adds a sentence on the declaration of the number.
fn push_named(out: &mut Text, decls: &[DeriveInput], number: usize, sentence: &str) -> Mem<()> {
    match decls.get(number) {
        Some(decl) => {
            push_all(out, &["`", decl.ident.text.as_str(), "`"])?;
            push_all(out, &[sentence, "\n"])
        }
        None => Ok(()),
    }
}

/// Whether the declaration of the number derives `FromMeta`.
fn is_meta(alloc: Global, decls: &[DeriveInput], number: usize) -> Mem<bool> {
    let Some(decl) = decls.get(number) else {
        return Ok(false);
    };
    let derives = derives_of(alloc, decl.attrs.as_slice())?;
    for it in derives.as_slice() {
        if it.derive == Derive::FromMeta {
            return Ok(true);
        }
    }
    Ok(false)
}

/// Whether an attribute of the field has the word `multiple`.
fn is_multiple(field: &Field) -> bool {
    for attr in field.attrs.as_slice() {
        if let Meta::List(list) = &attr.meta
            && has_word(&list.tokens)
        {
            return true;
        }
    }
    false
}

fn has_word(tokens: &TokenStream) -> bool {
    for tree in tokens.trees.as_slice() {
        if let TokenTree::Ident(ident) = tree
            && ident.text.is("multiple")
        {
            return true;
        }
    }
    false
}

/// Adds what is told where all that the type names is read.
fn push_shape(out: &mut Text, row: &Row, is_multiple: bool) -> Mem<()> {
    let is_list = matches!(row, Row::Vec(_));
    if is_multiple && !is_list {
        return out.push_str(
            "a field with `multiple` is a `Vec` of a type that one item is read as\n",
        );
    }
    if is_list && !is_multiple {
        return out.push_str(
            "a `Vec` of this type is read with `#[darling(multiple)]`, an element for each item\n",
        );
    }
    out.push_str(
        "the type has no default, and a field that may be left out, or is skipped, wants one: give `default = FUNCTION`, or put the type in an `Option`\n",
    )
}
