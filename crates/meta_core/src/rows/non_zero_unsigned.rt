//! Unsigned integers that are not zero.

use crate::from_meta::FromMeta;
use error_core::Result;
use meta_nested::Call;
use meta_reads::read_non_zero_unsigned;
use std::alloc::Global;
use std::num::{NonZeroU8, NonZeroU16, NonZeroU32, NonZeroU64, NonZeroU128, NonZeroUsize};

impl FromMeta for NonZeroU8 {
    ghost use Rattle.std.specs.Prelude.{ℕ};
    ghost use Rattle.std.specs.Int.NonZero.{non_zero_u8_get};
    ghost use Rattle.meta_core.specs.Rows.{non_zero_u8_cells};

    ghost Seen = { ℕ };

    ghost seen = { non_zero_u8_get };

    ghost cells = { non_zero_u8_cells };

    fn cell(alloc: Global, call: Call<'_>) -> Result<Option<NonZeroU8>> {
        match read_non_zero_unsigned(alloc, call, u8::MAX as u128)? {
            Some(number) => Ok(NonZeroU8::new(number as u8)),
            None => Ok(None),
        }
    }
}

impl FromMeta for NonZeroU16 {
    ghost use Rattle.std.specs.Prelude.{ℕ};
    ghost use Rattle.std.specs.Int.NonZero.{non_zero_u16_get};
    ghost use Rattle.meta_core.specs.Rows.{non_zero_u16_cells};

    ghost Seen = { ℕ };

    ghost seen = { non_zero_u16_get };

    ghost cells = { non_zero_u16_cells };

    fn cell(alloc: Global, call: Call<'_>) -> Result<Option<NonZeroU16>> {
        match read_non_zero_unsigned(alloc, call, u16::MAX as u128)? {
            Some(number) => Ok(NonZeroU16::new(number as u16)),
            None => Ok(None),
        }
    }
}

impl FromMeta for NonZeroU32 {
    ghost use Rattle.std.specs.Prelude.{ℕ};
    ghost use Rattle.std.specs.Int.NonZero.{non_zero_u32_get};
    ghost use Rattle.meta_core.specs.Rows.{non_zero_u32_cells};

    ghost Seen = { ℕ };

    ghost seen = { non_zero_u32_get };

    ghost cells = { non_zero_u32_cells };

    fn cell(alloc: Global, call: Call<'_>) -> Result<Option<NonZeroU32>> {
        match read_non_zero_unsigned(alloc, call, u32::MAX as u128)? {
            Some(number) => Ok(NonZeroU32::new(number as u32)),
            None => Ok(None),
        }
    }
}

impl FromMeta for NonZeroU64 {
    ghost use Rattle.std.specs.Prelude.{ℕ};
    ghost use Rattle.std.specs.Int.NonZero.{non_zero_u64_get};
    ghost use Rattle.meta_core.specs.Rows.{non_zero_u64_cells};

    ghost Seen = { ℕ };

    ghost seen = { non_zero_u64_get };

    ghost cells = { non_zero_u64_cells };

    fn cell(alloc: Global, call: Call<'_>) -> Result<Option<NonZeroU64>> {
        match read_non_zero_unsigned(alloc, call, u64::MAX as u128)? {
            Some(number) => Ok(NonZeroU64::new(number as u64)),
            None => Ok(None),
        }
    }
}

impl FromMeta for NonZeroU128 {
    ghost use Rattle.std.specs.Prelude.{ℕ};
    ghost use Rattle.std.specs.Int.NonZero.{non_zero_u128_get};
    ghost use Rattle.meta_core.specs.Rows.{non_zero_u128_cells};

    ghost Seen = { ℕ };

    ghost seen = { non_zero_u128_get };

    ghost cells = { non_zero_u128_cells };

    fn cell(alloc: Global, call: Call<'_>) -> Result<Option<NonZeroU128>> {
        match read_non_zero_unsigned(alloc, call, u128::MAX)? {
            Some(number) => Ok(NonZeroU128::new(number)),
            None => Ok(None),
        }
    }
}

impl FromMeta for NonZeroUsize {
    ghost use Rattle.std.specs.Prelude.{ℕ};
    ghost use Rattle.std.specs.Int.NonZero.{non_zero_usize_get};
    ghost use Rattle.meta_core.specs.Rows.{non_zero_usize_cells};

    ghost Seen = { ℕ };

    ghost seen = { non_zero_usize_get };

    ghost cells = { non_zero_usize_cells };

    fn cell(alloc: Global, call: Call<'_>) -> Result<Option<NonZeroUsize>> {
        match read_non_zero_unsigned(alloc, call, usize::MAX as u128)? {
            Some(number) => Ok(NonZeroUsize::new(number as usize)),
            None => Ok(None),
        }
    }
}
