//! Signed integers that are not zero.

use crate::from_meta::FromMeta;
use error_core::Result;
use meta_nested::Call;
use meta_reads::read_non_zero_signed;
use std::alloc::Global;
use std::num::{NonZeroI8, NonZeroI16, NonZeroI32, NonZeroI64, NonZeroI128, NonZeroIsize};

impl FromMeta for NonZeroI8 {
    ghost use Rattle.std.specs.Prelude.{ℤ};
    ghost use Rattle.std.specs.Int.NonZero.{non_zero_i8_get};
    ghost use Rattle.meta_core.specs.Rows.{non_zero_i8_cells};

    ghost Seen = { ℤ };

    ghost seen = { non_zero_i8_get };

    ghost cells = { non_zero_i8_cells };

    fn cell(alloc: Global, call: Call<'_>) -> Result<Option<NonZeroI8>> {
        match read_non_zero_signed(alloc, call, 1 << 7)? {
            Some(number) => Ok(NonZeroI8::new(number as i8)),
            None => Ok(None),
        }
    }
}

impl FromMeta for NonZeroI16 {
    ghost use Rattle.std.specs.Prelude.{ℤ};
    ghost use Rattle.std.specs.Int.NonZero.{non_zero_i16_get};
    ghost use Rattle.meta_core.specs.Rows.{non_zero_i16_cells};

    ghost Seen = { ℤ };

    ghost seen = { non_zero_i16_get };

    ghost cells = { non_zero_i16_cells };

    fn cell(alloc: Global, call: Call<'_>) -> Result<Option<NonZeroI16>> {
        match read_non_zero_signed(alloc, call, 1 << 15)? {
            Some(number) => Ok(NonZeroI16::new(number as i16)),
            None => Ok(None),
        }
    }
}

impl FromMeta for NonZeroI32 {
    ghost use Rattle.std.specs.Prelude.{ℤ};
    ghost use Rattle.std.specs.Int.NonZero.{non_zero_i32_get};
    ghost use Rattle.meta_core.specs.Rows.{non_zero_i32_cells};

    ghost Seen = { ℤ };

    ghost seen = { non_zero_i32_get };

    ghost cells = { non_zero_i32_cells };

    fn cell(alloc: Global, call: Call<'_>) -> Result<Option<NonZeroI32>> {
        match read_non_zero_signed(alloc, call, 1 << 31)? {
            Some(number) => Ok(NonZeroI32::new(number as i32)),
            None => Ok(None),
        }
    }
}

impl FromMeta for NonZeroI64 {
    ghost use Rattle.std.specs.Prelude.{ℤ};
    ghost use Rattle.std.specs.Int.NonZero.{non_zero_i64_get};
    ghost use Rattle.meta_core.specs.Rows.{non_zero_i64_cells};

    ghost Seen = { ℤ };

    ghost seen = { non_zero_i64_get };

    ghost cells = { non_zero_i64_cells };

    fn cell(alloc: Global, call: Call<'_>) -> Result<Option<NonZeroI64>> {
        match read_non_zero_signed(alloc, call, 1 << 63)? {
            Some(number) => Ok(NonZeroI64::new(number as i64)),
            None => Ok(None),
        }
    }
}

impl FromMeta for NonZeroI128 {
    ghost use Rattle.std.specs.Prelude.{ℤ};
    ghost use Rattle.std.specs.Int.NonZero.{non_zero_i128_get};
    ghost use Rattle.meta_core.specs.Rows.{non_zero_i128_cells};

    ghost Seen = { ℤ };

    ghost seen = { non_zero_i128_get };

    ghost cells = { non_zero_i128_cells };

    fn cell(alloc: Global, call: Call<'_>) -> Result<Option<NonZeroI128>> {
        match read_non_zero_signed(alloc, call, 1 << 127)? {
            Some(number) => Ok(NonZeroI128::new(number)),
            None => Ok(None),
        }
    }
}

impl FromMeta for NonZeroIsize {
    ghost use Rattle.std.specs.Prelude.{ℤ};
    ghost use Rattle.std.specs.Int.NonZero.{non_zero_isize_get};
    ghost use Rattle.meta_core.specs.Rows.{non_zero_isize_cells};

    ghost Seen = { ℤ };

    ghost seen = { non_zero_isize_get };

    ghost cells = { non_zero_isize_cells };

    fn cell(alloc: Global, call: Call<'_>) -> Result<Option<NonZeroIsize>> {
        match read_non_zero_signed(alloc, call, 1 << 63)? {
            Some(number) => Ok(NonZeroIsize::new(number as isize)),
            None => Ok(None),
        }
    }
}
