//! What a host asks of the functions and types that it is handed. The answers are the same without spans, as those of a host
//! have to be.

ghost use Rattle.std.specs.Prelude.{◌≡◌};
ghost use Rattle.std.specs.Option.{option_copied};
ghost use Rattle.law_spans.specs.Erased.{erased_type};
ghost use Rattle.machine_host.specs.HostSays.{erased_call, erased_decls};
ghost use Rattle.machine_std.specs.Functions as spec;

use crate::function::{leaf_in, path_in};
use crate::path_text::is_text_of;
use codegen_program::Decls;
use machine_host::Callable;
use machine_rows::Leaf;
use node_expr::Type;

/// Whether the option names the function of this path, as `text::trim`. A path with a type in front names none.
pub fn is_function(call: Option<&Callable>, name: &str) -> bool
    ensures { result ≡ spec.is_function name.now (erased_call call.entry) }
{
    is_path(call, name)
}

fn is_path(call: Option<&Callable>, name: &str) -> bool
    ensures { result ≡ spec.is_function name.now (option_copied call.entry) }
{
    let Some(callable) = call else {
        return false;
    };
    match path_in(callable) {
        Some(path) => is_text_of(name, path),
        None => false,
    }
}

/// The type of the table that the type is, as `String`, where it holds no type that is read on its own.
pub fn leaf_of(decls: &Decls, ty: &Type) -> Option<Leaf>
    ensures { result ≡ spec.leaf_in (erased_decls decls.now) (erased_type ty.now) }
{
    leaf_in(decls, ty)
}
