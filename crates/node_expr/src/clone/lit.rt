//! Clones of literals.

use crate::lit::{Lit, LitBool, LitByte, LitByteStr, LitChar, LitFloat, LitInt, LitStr};
use base_core::{Mem, TryClone};
use std::alloc::Global;

impl TryClone for Lit {
    fn try_clone(&self, alloc: Global) -> Mem<Lit> {
        match self {
            Lit::Str(lit) => Ok(Lit::Str(lit.try_clone(alloc)?)),
            Lit::ByteStr(lit) => Ok(Lit::ByteStr(lit.try_clone(alloc)?)),
            Lit::Byte(lit) => Ok(Lit::Byte(lit.try_clone(alloc)?)),
            Lit::Char(lit) => Ok(Lit::Char(lit.try_clone(alloc)?)),
            Lit::Int(lit) => Ok(Lit::Int(lit.try_clone(alloc)?)),
            Lit::Float(lit) => Ok(Lit::Float(lit.try_clone(alloc)?)),
            Lit::Bool(lit) => Ok(Lit::Bool(lit.try_clone(alloc)?)),
            Lit::Verbatim(token) => Ok(Lit::Verbatim(token.try_clone(alloc)?)),
        }
    }
}

impl TryClone for LitStr {
    fn try_clone(&self, alloc: Global) -> Mem<LitStr> {
        Ok(LitStr {
            value: self.value.try_clone(alloc)?,
            token: self.token.try_clone(alloc)?,
            span: self.span,
        })
    }
}

impl TryClone for LitByteStr {
    fn try_clone(&self, alloc: Global) -> Mem<LitByteStr> {
        Ok(LitByteStr {
            value: self.value.try_clone(alloc)?,
            token: self.token.try_clone(alloc)?,
            span: self.span,
        })
    }
}

impl TryClone for LitByte {
    fn try_clone(&self, alloc: Global) -> Mem<LitByte> {
        Ok(LitByte {
            value: self.value,
            token: self.token.try_clone(alloc)?,
            span: self.span,
        })
    }
}

impl TryClone for LitChar {
    fn try_clone(&self, alloc: Global) -> Mem<LitChar> {
        Ok(LitChar {
            value: self.value,
            token: self.token.try_clone(alloc)?,
            span: self.span,
        })
    }
}

impl TryClone for LitInt {
    fn try_clone(&self, alloc: Global) -> Mem<LitInt> {
        Ok(LitInt {
            negative: self.negative,
            digits: self.digits,
            token: self.token.try_clone(alloc)?,
            span: self.span,
        })
    }
}

impl TryClone for LitFloat {
    fn try_clone(&self, alloc: Global) -> Mem<LitFloat> {
        Ok(LitFloat {
            negative: self.negative,
            token: self.token.try_clone(alloc)?,
            span: self.span,
        })
    }
}

impl TryClone for LitBool {
    fn try_clone(&self, _alloc: Global) -> Mem<LitBool> {
        Ok(LitBool {
            value: self.value,
            span: self.span,
        })
    }
}
