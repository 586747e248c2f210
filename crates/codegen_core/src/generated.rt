//! What declarations may not have where code is generated for them: parameters, and paths that begin with the name by which
//! that code calls `darling`.

ghost use Rattle.std.specs.Prelude.{◌≡◌, ◌++◌, OnOk};
ghost use Rattle.std.specs.Option.{option_copied};
ghost use Rattle.codegen_core.specs.Forms as spec;

use crate::form::{Form, Unsupported};
use base_core::{Items, Mem};
use node_core::Generics;
use node_expr::{Expr, Path};
use tok_types::Ident;

/// Whether there are parameters or a `where` clause.
pub fn is_generic(generics: &Generics) -> bool
    ensures { result ≡ spec.is_generic generics.now }
{
    generics.params.len() != 0 || generics.where_clause.is_some()
}

/// Adds the form at the identifier, where a test holds.
pub fn push_form_if(
    test: bool,
    form: Form,
    ident: &Ident,
    places: &mut Items<Unsupported>,
) -> Mem<()>
    ensures { OnOk result (places.new ≡ places.old ++ spec.form_if test form ident.now) }
{
    if test {
        return places.push(Unsupported {
            form,
            span: ident.span,
        });
    }
    Ok(())
}

/// Adds the start of the path that is called, where it begins with `_darling` and no type is in front of it.
pub fn push_generated_call(call: &Expr, places: &mut Items<Unsupported>) -> Mem<()>
    ensures { OnOk result (places.new ≡ places.old ++ spec.generated_call call.now) }
{
    match call {
        Expr::Path(it) if it.qself.is_none() => push_generated_path(&it.path, places),
        _ => Ok(()),
    }
}

/// Adds the start of the path, where that is `_darling`.
pub fn push_generated_path(path: &Path, places: &mut Items<Unsupported>) -> Mem<()>
    ensures { OnOk result (places.new ≡ places.old ++ spec.generated_path path.now) }
{
    match first_ident(path) {
        Some(ident) => {
            push_form_if(
                ident.text.is("_darling"),
                Form::GeneratedName,
                ident,
                places,
            )
        }
        None => Ok(()),
    }
}

/// The identifier that the path begins with. What is behind a leading `::` is none.
fn first_ident(path: &Path) -> Option<&Ident>
    ensures { option_copied result ≡ spec.first_ident path.now }
{
    if path.leading_colon {
        return None;
    }
    match path.segments.first() {
        Some(segment) => Some(&segment.ident),
        None => None,
    }
}
