//! Integers as values.

ghost use Rattle.std.specs.Prelude.{◌≡◌, ◌≤◌, ◌^◌};
ghost use Rattle.machine_cells.specs.Cells.{AnswersCell, cell_at};
ghost use Rattle.machine_cells.specs.Integers as row;
ghost use Rattle.machine_cells.specs.Leaves.{integer_cells, non_zero_cells};
ghost use Rattle.machine_cells.specs.Shown.{shown_cells};
ghost use Rattle.machine_cells.specs.Values.{integer, natural};

use crate::shown::{Shown, shown_answer};
use base_core::Mem;
use error_core::Result;
use machine_cells::{
    Call, read_non_zero_signed, read_non_zero_unsigned, read_signed, read_unsigned,
};
use machine_rows::Integer;
use machine_value::Value;
use std::alloc::Global;

impl Shown for u8 {
    ghost use Rattle.machine_cells.specs.Values.{natural};

    ghost shows = { natural };

    fn to_value(&self, _alloc: Global) -> Mem<Value> {
        Ok(natural_value(u128::from(*self)))
    }
}

impl Shown for u16 {
    ghost use Rattle.machine_cells.specs.Values.{natural};

    ghost shows = { natural };

    fn to_value(&self, _alloc: Global) -> Mem<Value> {
        Ok(natural_value(u128::from(*self)))
    }
}

impl Shown for u32 {
    ghost use Rattle.machine_cells.specs.Values.{natural};

    ghost shows = { natural };

    fn to_value(&self, _alloc: Global) -> Mem<Value> {
        Ok(natural_value(u128::from(*self)))
    }
}

impl Shown for u64 {
    ghost use Rattle.machine_cells.specs.Values.{natural};

    ghost shows = { natural };

    fn to_value(&self, _alloc: Global) -> Mem<Value> {
        Ok(natural_value(u128::from(*self)))
    }
}

impl Shown for usize {
    ghost use Rattle.machine_cells.specs.Values.{natural};

    ghost shows = { natural };

    fn to_value(&self, _alloc: Global) -> Mem<Value> {
        Ok(natural_value(*self as u128))
    }
}

impl Shown for u128 {
    ghost use Rattle.machine_cells.specs.Values.{natural};

    ghost shows = { natural };

    fn to_value(&self, _alloc: Global) -> Mem<Value> {
        Ok(natural_value(*self))
    }
}

impl Shown for i128 {
    ghost use Rattle.machine_cells.specs.Values.{integer};

    ghost shows = { integer };

    fn to_value(&self, _alloc: Global) -> Mem<Value> {
        Ok(integer_value(*self))
    }
}

fn natural_value(digits: u128) -> Value
    ensures { result ≡ natural digits }
{
    Value::Int {
        negative: false,
        digits,
    }
}

fn integer_value(number: i128) -> Value
    ensures { result ≡ integer number }
{
    Value::Int {
        negative: number < 0,
        digits: number.unsigned_abs(),
    }
}

/// What an integer of the width answers.
pub(crate) fn integer_cell(alloc: Global, width: Integer, call: Call<'_>) -> Result<Option<Value>>
    ensures { AnswersCell (λ it. it) result (cell_at (integer_cells width) call.entry) }
{
    match width {
        Integer::I8 => signed_cell(alloc, call, 1 << 7),
        Integer::I16 => signed_cell(alloc, call, 1 << 15),
        Integer::I32 => signed_cell(alloc, call, 1 << 31),
        Integer::I64 => signed_cell(alloc, call, 1 << 63),
        Integer::I128 => signed_cell(alloc, call, 1 << 127),
        Integer::Isize => signed_cell(alloc, call, 1 << 63),
        Integer::U8 => unsigned_cell(alloc, call, u8::MAX as u128),
        Integer::U16 => unsigned_cell(alloc, call, u16::MAX as u128),
        Integer::U32 => unsigned_cell(alloc, call, u32::MAX as u128),
        Integer::U64 => unsigned_cell(alloc, call, u64::MAX as u128),
        Integer::U128 => unsigned_cell(alloc, call, u128::MAX),
        Integer::Usize => unsigned_cell(alloc, call, usize::MAX as u128),
    }
}

/// What an integer of the width that is not zero answers.
pub(crate) fn non_zero_cell(alloc: Global, width: Integer, call: Call<'_>) -> Result<Option<Value>>
    ensures { AnswersCell (λ it. it) result (cell_at (non_zero_cells width) call.entry) }
{
    match width {
        Integer::I8 => non_zero_signed_cell(alloc, call, 1 << 7),
        Integer::I16 => non_zero_signed_cell(alloc, call, 1 << 15),
        Integer::I32 => non_zero_signed_cell(alloc, call, 1 << 31),
        Integer::I64 => non_zero_signed_cell(alloc, call, 1 << 63),
        Integer::I128 => non_zero_signed_cell(alloc, call, 1 << 127),
        Integer::Isize => non_zero_signed_cell(alloc, call, 1 << 63),
        Integer::U8 => non_zero_unsigned_cell(alloc, call, u8::MAX as u128),
        Integer::U16 => non_zero_unsigned_cell(alloc, call, u16::MAX as u128),
        Integer::U32 => non_zero_unsigned_cell(alloc, call, u32::MAX as u128),
        Integer::U64 => non_zero_unsigned_cell(alloc, call, u64::MAX as u128),
        Integer::U128 => non_zero_unsigned_cell(alloc, call, u128::MAX),
        Integer::Usize => non_zero_unsigned_cell(alloc, call, usize::MAX as u128),
    }
}

/// What a signed integer answers of which so many are below zero.
fn signed_cell(alloc: Global, call: Call<'_>, half: u128) -> Result<Option<Value>>
    requires { half ≤ 2 ^ 127 }
    ensures { AnswersCell (λ it. it) result (cell_at (shown_cells integer (row.signed_cells half)) call.entry) }
{
    shown_answer(alloc, read_signed(alloc, call, half))
}

/// What an unsigned integer up to `most` answers.
fn unsigned_cell(alloc: Global, call: Call<'_>, most: u128) -> Result<Option<Value>>
    ensures { AnswersCell (λ it. it) result (cell_at (shown_cells natural (row.unsigned_cells most)) call.entry) }
{
    shown_answer(alloc, read_unsigned(alloc, call, most))
}

/// As `signed_cell`, without zero.
fn non_zero_signed_cell(alloc: Global, call: Call<'_>, half: u128) -> Result<Option<Value>>
    requires { half ≤ 2 ^ 127 }
    ensures { AnswersCell (λ it. it) result (cell_at (shown_cells integer (row.non_zero_signed_cells half)) call.entry) }
{
    shown_answer(alloc, read_non_zero_signed(alloc, call, half))
}

/// As `unsigned_cell`, without zero.
fn non_zero_unsigned_cell(alloc: Global, call: Call<'_>, most: u128) -> Result<Option<Value>>
    ensures { AnswersCell (λ it. it) result (cell_at (shown_cells natural (row.non_zero_unsigned_cells most)) call.entry) }
{
    shown_answer(alloc, read_non_zero_unsigned(alloc, call, most))
}
