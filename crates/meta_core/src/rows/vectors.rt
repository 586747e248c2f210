//! Vectors of literals and of unsigned integers.

ghost use Rattle.std.specs.Prelude.{◌≡◌, map};
ghost use Rattle.node_expr.specs.declared.expr.Expr.{out-Expr};
ghost use Rattle.error_core.specs.Answers.{Answers};
ghost use Rattle.meta_nested.specs.Cells.{AnswersCell, cell_at};
ghost use Rattle.meta_nested.specs.Dispatch.{from_expr, from_nested_meta};
ghost use Rattle.meta_nested.specs.Groups.{in_group};
ghost use Rattle.error_core.specs.Each.{each};
ghost use Rattle.meta_core.specs.Lists as spec;

use crate::from_meta::FromMeta;
use error_core::{Error, Fail, Result};
use meta_nested::{Call, NestedMeta, without_groups};
use meta_reads::parse_text;
use node_expr::{
    Expr, ExprArray, Lit, LitBool, LitByte, LitByteStr, LitChar, LitFloat, LitInt, LitStr,
};
use std::alloc::Global;

/// A type whose vectors are read item by item, and element by element.
pub trait InList: FromMeta {}

impl InList for LitInt {}

impl InList for LitFloat {}

impl InList for LitStr {}

impl InList for LitByte {}

impl InList for LitByteStr {}

impl InList for LitChar {}

impl InList for LitBool {}

/// The items of a list, the elements of an array, or those of an array in a string literal.
impl<T: InList + Drop> FromMeta for Vec<T> {
    ghost use Rattle.std.specs.Prelude.{List, map};
    ghost use Rattle.meta_core.specs.Lists.{literals_cells};

    ghost Seen = { List T.Seen };

    ghost seen = { λ it. map T.seen it.items };

    ghost cells = { literals_cells T.cells };

    fn cell(alloc: Global, call: Call<'_>) -> Result<Option<Vec<T>>> {
        match call {
            Call::List(items) => Ok(Some(read_items(alloc, items)?)),
            Call::Value(Lit::Str(text)) => Ok(Some(read_quoted_elements(alloc, text)?)),
            Call::Expr(expr) => match without_groups(expr) {
                Expr::Array(array) => Ok(Some(read_elements(alloc, array.elems.as_slice())?)),
                _ => Ok(None),
            },
            _ => Ok(None),
        }
    }
}

fn read_items<T: FromMeta + Drop>(alloc: Global, items: &[NestedMeta]) -> Result<Vec<T>>
    ensures { Answers (λ it. map T.seen it.items) result (each (from_nested_meta T.cells) items.now) }
{
    let mut values = Vec::new(alloc);
    for item in items {
        values.push(T::from_nested_meta(alloc, item)?)?;
    }
    Ok(values)
}

fn read_elements<T: FromMeta + Drop>(alloc: Global, elements: &[Expr]) -> Result<Vec<T>>
    ensures { Answers (λ it. map T.seen it.items) result (each (from_expr T.cells) elements.now) }
{
    let mut values = Vec::new(alloc);
    for element in elements {
        values.push(T::from_expr(alloc, element)?)?;
    }
    Ok(values)
}

fn read_quoted_elements<T: FromMeta + Drop>(alloc: Global, text: &LitStr) -> Result<Vec<T>>
    ensures { Answers (λ it. map T.seen it.items) result (spec.quoted_elements (from_expr T.cells) text.now) }
{
    let array: ExprArray = parse_text(alloc, text.value.as_str(), text.span)?;
    read_elements(alloc, array.elems.as_slice())
}

impl FromMeta for Vec<u8> {
    ghost use Rattle.std.specs.Prelude.{ℕ, List};
    ghost use Rattle.meta_core.specs.Rows.{u8_cells};
    ghost use Rattle.meta_core.specs.Lists.{integers_cells};

    ghost Seen = { List ℕ };

    ghost seen = { λ it. it.items };

    ghost cells = { integers_cells u8_cells };

    fn cell(alloc: Global, call: Call<'_>) -> Result<Option<Vec<u8>>> {
        read_integers(alloc, call)
    }
}

impl FromMeta for Vec<u16> {
    ghost use Rattle.std.specs.Prelude.{ℕ, List};
    ghost use Rattle.meta_core.specs.Rows.{u16_cells};
    ghost use Rattle.meta_core.specs.Lists.{integers_cells};

    ghost Seen = { List ℕ };

    ghost seen = { λ it. it.items };

    ghost cells = { integers_cells u16_cells };

    fn cell(alloc: Global, call: Call<'_>) -> Result<Option<Vec<u16>>> {
        read_integers(alloc, call)
    }
}

impl FromMeta for Vec<u32> {
    ghost use Rattle.std.specs.Prelude.{ℕ, List};
    ghost use Rattle.meta_core.specs.Rows.{u32_cells};
    ghost use Rattle.meta_core.specs.Lists.{integers_cells};

    ghost Seen = { List ℕ };

    ghost seen = { λ it. it.items };

    ghost cells = { integers_cells u32_cells };

    fn cell(alloc: Global, call: Call<'_>) -> Result<Option<Vec<u32>>> {
        read_integers(alloc, call)
    }
}

impl FromMeta for Vec<u64> {
    ghost use Rattle.std.specs.Prelude.{ℕ, List};
    ghost use Rattle.meta_core.specs.Rows.{u64_cells};
    ghost use Rattle.meta_core.specs.Lists.{integers_cells};

    ghost Seen = { List ℕ };

    ghost seen = { λ it. it.items };

    ghost cells = { integers_cells u64_cells };

    fn cell(alloc: Global, call: Call<'_>) -> Result<Option<Vec<u64>>> {
        read_integers(alloc, call)
    }
}

impl FromMeta for Vec<usize> {
    ghost use Rattle.std.specs.Prelude.{ℕ, List};
    ghost use Rattle.meta_core.specs.Rows.{usize_cells};
    ghost use Rattle.meta_core.specs.Lists.{integers_cells};

    ghost Seen = { List ℕ };

    ghost seen = { λ it. it.items };

    ghost cells = { integers_cells usize_cells };

    fn cell(alloc: Global, call: Call<'_>) -> Result<Option<Vec<usize>>> {
        read_integers(alloc, call)
    }
}

/// The literals of an array, or of an array in a string literal.
fn read_integers<T: FromMeta + Drop>(alloc: Global, call: Call<'_>) -> Result<Option<Vec<T>>>
    ensures { AnswersCell (λ it. map T.seen it.items) result (cell_at (spec.integers_cells T.cells) call.entry) }
{
    match call {
        Call::Value(Lit::Str(text)) => Ok(Some(read_quoted_integers(alloc, text)?)),
        Call::Expr(expr) => match without_groups(expr) {
            Expr::Array(array) => Ok(Some(read_integer_elements(alloc, array.elems.as_slice())?)),
            _ => Ok(None),
        },
        _ => Ok(None),
    }
}

fn read_integer_elements<T: FromMeta + Drop>(alloc: Global, elements: &[Expr]) -> Result<Vec<T>>
    ensures { Answers (λ it. map T.seen it.items) result (each (spec.integer_element T.cells) elements.now) }
{
    let mut values = Vec::new(alloc);
    for element in elements {
        values.push(read_integer(alloc, element)?)?;
    }
    Ok(values)
}

fn read_quoted_integers<T: FromMeta + Drop>(alloc: Global, text: &LitStr) -> Result<Vec<T>>
    ensures { Answers (λ it. map T.seen it.items) result (spec.quoted_elements (spec.integer_element T.cells) text.now) }
{
    let array: ExprArray = parse_text(alloc, text.value.as_str(), text.span)?;
    read_integer_elements(alloc, array.elems.as_slice())
}

fn read_integer<T: FromMeta>(alloc: Global, element: &Expr) -> Result<T>
    ensures { Answers T.seen result (spec.integer_element T.cells element.now) }
{
    match in_one_group(element) {
        Expr::Lit(it) => T::from_value(alloc, it),
        _ => {
            let error = Error::custom(alloc, "Expected array of unsigned integers")?;
            Err(Fail::Faults(error.with_span(element)))
        }
    }
}

/// What stands in the invisible group that the expression is; another expression itself.
fn in_one_group(expr: &Expr) -> &Expr
    ensures { result.now ≡ in_group expr.now (out-Expr expr.now) }
{
    match expr {
        Expr::Group { expr, .. } => expr.get(),
        other => other,
    }
}
