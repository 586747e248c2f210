//! Literals.

use crate::from_meta::FromMeta;
use base_core::TryClone;
use error_core::Result;
use meta_nested::Call;
use node_expr::{Lit, LitBool, LitByte, LitByteStr, LitChar, LitFloat, LitInt, LitStr};
use std::alloc::Global;

impl FromMeta for Lit {
    ghost use Rattle.node_expr.specs.declared.lit.Lit.{Lit};
    ghost use Rattle.meta_core.specs.Rows.{lit_cells};

    ghost Seen = { Lit };

    ghost seen = { λ it. it };

    ghost cells = { lit_cells };

    fn cell(alloc: Global, call: Call<'_>) -> Result<Option<Lit>> {
        match call {
            Call::Value(it) => Ok(Some(it.try_clone(alloc)?)),
            _ => Ok(None),
        }
    }
}

impl FromMeta for LitInt {
    ghost use Rattle.node_expr.specs.declared.lit.LitInt.{LitInt};
    ghost use Rattle.meta_core.specs.Rows.{lit_int_cells};

    ghost Seen = { LitInt };

    ghost seen = { λ it. it };

    ghost cells = { lit_int_cells };

    fn cell(alloc: Global, call: Call<'_>) -> Result<Option<LitInt>> {
        match call {
            Call::Value(Lit::Int(it)) => Ok(Some(it.try_clone(alloc)?)),
            _ => Ok(None),
        }
    }
}

impl FromMeta for LitFloat {
    ghost use Rattle.node_expr.specs.declared.lit.LitFloat.{LitFloat};
    ghost use Rattle.meta_core.specs.Rows.{lit_float_cells};

    ghost Seen = { LitFloat };

    ghost seen = { λ it. it };

    ghost cells = { lit_float_cells };

    fn cell(alloc: Global, call: Call<'_>) -> Result<Option<LitFloat>> {
        match call {
            Call::Value(Lit::Float(it)) => Ok(Some(it.try_clone(alloc)?)),
            _ => Ok(None),
        }
    }
}

impl FromMeta for LitStr {
    ghost use Rattle.node_expr.specs.declared.lit.LitStr.{LitStr};
    ghost use Rattle.meta_core.specs.Rows.{lit_str_cells};

    ghost Seen = { LitStr };

    ghost seen = { λ it. it };

    ghost cells = { lit_str_cells };

    fn cell(alloc: Global, call: Call<'_>) -> Result<Option<LitStr>> {
        match call {
            Call::Value(Lit::Str(it)) => Ok(Some(it.try_clone(alloc)?)),
            _ => Ok(None),
        }
    }
}

impl FromMeta for LitByte {
    ghost use Rattle.node_expr.specs.declared.lit.LitByte.{LitByte};
    ghost use Rattle.meta_core.specs.Rows.{lit_byte_cells};

    ghost Seen = { LitByte };

    ghost seen = { λ it. it };

    ghost cells = { lit_byte_cells };

    fn cell(alloc: Global, call: Call<'_>) -> Result<Option<LitByte>> {
        match call {
            Call::Value(Lit::Byte(it)) => Ok(Some(it.try_clone(alloc)?)),
            _ => Ok(None),
        }
    }
}

impl FromMeta for LitByteStr {
    ghost use Rattle.node_expr.specs.declared.lit.LitByteStr.{LitByteStr};
    ghost use Rattle.meta_core.specs.Rows.{lit_byte_str_cells};

    ghost Seen = { LitByteStr };

    ghost seen = { λ it. it };

    ghost cells = { lit_byte_str_cells };

    fn cell(alloc: Global, call: Call<'_>) -> Result<Option<LitByteStr>> {
        match call {
            Call::Value(Lit::ByteStr(it)) => Ok(Some(it.try_clone(alloc)?)),
            _ => Ok(None),
        }
    }
}

impl FromMeta for LitChar {
    ghost use Rattle.node_expr.specs.declared.lit.LitChar.{LitChar};
    ghost use Rattle.meta_core.specs.Rows.{lit_char_cells};

    ghost Seen = { LitChar };

    ghost seen = { λ it. it };

    ghost cells = { lit_char_cells };

    fn cell(alloc: Global, call: Call<'_>) -> Result<Option<LitChar>> {
        match call {
            Call::Value(Lit::Char(it)) => Ok(Some(it.try_clone(alloc)?)),
            _ => Ok(None),
        }
    }
}

impl FromMeta for LitBool {
    ghost use Rattle.node_expr.specs.declared.lit.LitBool.{LitBool};
    ghost use Rattle.meta_core.specs.Rows.{lit_bool_cells};

    ghost Seen = { LitBool };

    ghost seen = { λ it. it };

    ghost cells = { lit_bool_cells };

    fn cell(alloc: Global, call: Call<'_>) -> Result<Option<LitBool>> {
        match call {
            Call::Value(Lit::Bool(it)) => Ok(Some(it.try_clone(alloc)?)),
            _ => Ok(None),
        }
    }
}
