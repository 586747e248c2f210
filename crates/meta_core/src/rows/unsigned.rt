//! Unsigned integers.

use crate::from_meta::FromMeta;
use error_core::Result;
use meta_nested::Call;
use meta_reads::read_unsigned;
use std::alloc::Global;

impl FromMeta for u8 {
    ghost use Rattle.std.specs.Prelude.{ℕ};
    ghost use Rattle.meta_core.specs.Rows.{u8_cells};

    ghost Seen = { ℕ };

    ghost seen = { λ number. number };

    ghost cells = { u8_cells };

    fn cell(alloc: Global, call: Call<'_>) -> Result<Option<u8>> {
        match read_unsigned(alloc, call, u8::MAX as u128)? {
            Some(number) => Ok(Some(number as u8)),
            None => Ok(None),
        }
    }
}

impl FromMeta for u16 {
    ghost use Rattle.std.specs.Prelude.{ℕ};
    ghost use Rattle.meta_core.specs.Rows.{u16_cells};

    ghost Seen = { ℕ };

    ghost seen = { λ number. number };

    ghost cells = { u16_cells };

    fn cell(alloc: Global, call: Call<'_>) -> Result<Option<u16>> {
        match read_unsigned(alloc, call, u16::MAX as u128)? {
            Some(number) => Ok(Some(number as u16)),
            None => Ok(None),
        }
    }
}

impl FromMeta for u32 {
    ghost use Rattle.std.specs.Prelude.{ℕ};
    ghost use Rattle.meta_core.specs.Rows.{u32_cells};

    ghost Seen = { ℕ };

    ghost seen = { λ number. number };

    ghost cells = { u32_cells };

    fn cell(alloc: Global, call: Call<'_>) -> Result<Option<u32>> {
        match read_unsigned(alloc, call, u32::MAX as u128)? {
            Some(number) => Ok(Some(number as u32)),
            None => Ok(None),
        }
    }
}

impl FromMeta for u64 {
    ghost use Rattle.std.specs.Prelude.{ℕ};
    ghost use Rattle.meta_core.specs.Rows.{u64_cells};

    ghost Seen = { ℕ };

    ghost seen = { λ number. number };

    ghost cells = { u64_cells };

    fn cell(alloc: Global, call: Call<'_>) -> Result<Option<u64>> {
        match read_unsigned(alloc, call, u64::MAX as u128)? {
            Some(number) => Ok(Some(number as u64)),
            None => Ok(None),
        }
    }
}

impl FromMeta for u128 {
    ghost use Rattle.std.specs.Prelude.{ℕ};
    ghost use Rattle.meta_core.specs.Rows.{u128_cells};

    ghost Seen = { ℕ };

    ghost seen = { λ number. number };

    ghost cells = { u128_cells };

    fn cell(alloc: Global, call: Call<'_>) -> Result<Option<u128>> {
        match read_unsigned(alloc, call, u128::MAX)? {
            Some(number) => Ok(Some(number)),
            None => Ok(None),
        }
    }
}

impl FromMeta for usize {
    ghost use Rattle.std.specs.Prelude.{ℕ};
    ghost use Rattle.meta_core.specs.Rows.{usize_cells};

    ghost Seen = { ℕ };

    ghost seen = { λ number. number };

    ghost cells = { usize_cells };

    fn cell(alloc: Global, call: Call<'_>) -> Result<Option<usize>> {
        match read_unsigned(alloc, call, usize::MAX as u128)? {
            Some(number) => Ok(Some(number as usize)),
            None => Ok(None),
        }
    }
}
