//! Signed integers.

use crate::from_meta::FromMeta;
use error_core::Result;
use meta_nested::Call;
use meta_reads::read_signed;
use std::alloc::Global;

impl FromMeta for i8 {
    ghost use Rattle.std.specs.Prelude.{ℤ};
    ghost use Rattle.meta_core.specs.Rows.{i8_cells};

    ghost Seen = { ℤ };

    ghost seen = { λ number. number };

    ghost cells = { i8_cells };

    fn cell(alloc: Global, call: Call<'_>) -> Result<Option<i8>> {
        match read_signed(alloc, call, 1 << 7)? {
            Some(number) => Ok(Some(number as i8)),
            None => Ok(None),
        }
    }
}

impl FromMeta for i16 {
    ghost use Rattle.std.specs.Prelude.{ℤ};
    ghost use Rattle.meta_core.specs.Rows.{i16_cells};

    ghost Seen = { ℤ };

    ghost seen = { λ number. number };

    ghost cells = { i16_cells };

    fn cell(alloc: Global, call: Call<'_>) -> Result<Option<i16>> {
        match read_signed(alloc, call, 1 << 15)? {
            Some(number) => Ok(Some(number as i16)),
            None => Ok(None),
        }
    }
}

impl FromMeta for i32 {
    ghost use Rattle.std.specs.Prelude.{ℤ};
    ghost use Rattle.meta_core.specs.Rows.{i32_cells};

    ghost Seen = { ℤ };

    ghost seen = { λ number. number };

    ghost cells = { i32_cells };

    fn cell(alloc: Global, call: Call<'_>) -> Result<Option<i32>> {
        match read_signed(alloc, call, 1 << 31)? {
            Some(number) => Ok(Some(number as i32)),
            None => Ok(None),
        }
    }
}

impl FromMeta for i64 {
    ghost use Rattle.std.specs.Prelude.{ℤ};
    ghost use Rattle.meta_core.specs.Rows.{i64_cells};

    ghost Seen = { ℤ };

    ghost seen = { λ number. number };

    ghost cells = { i64_cells };

    fn cell(alloc: Global, call: Call<'_>) -> Result<Option<i64>> {
        match read_signed(alloc, call, 1 << 63)? {
            Some(number) => Ok(Some(number as i64)),
            None => Ok(None),
        }
    }
}

impl FromMeta for i128 {
    ghost use Rattle.std.specs.Prelude.{ℤ};
    ghost use Rattle.meta_core.specs.Rows.{i128_cells};

    ghost Seen = { ℤ };

    ghost seen = { λ number. number };

    ghost cells = { i128_cells };

    fn cell(alloc: Global, call: Call<'_>) -> Result<Option<i128>> {
        match read_signed(alloc, call, 1 << 127)? {
            Some(number) => Ok(Some(number)),
            None => Ok(None),
        }
    }
}

impl FromMeta for isize {
    ghost use Rattle.std.specs.Prelude.{ℤ};
    ghost use Rattle.meta_core.specs.Rows.{isize_cells};

    ghost Seen = { ℤ };

    ghost seen = { λ number. number };

    ghost cells = { isize_cells };

    fn cell(alloc: Global, call: Call<'_>) -> Result<Option<isize>> {
        match read_signed(alloc, call, 1 << 63)? {
            Some(number) => Ok(Some(number as isize)),
            None => Ok(None),
        }
    }
}
