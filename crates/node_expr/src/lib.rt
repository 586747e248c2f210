//! The nodes of syntax that contain each other, with what they are made of: expressions, types,
//! paths, bounds and literals. They are `syn`'s types, as plain data.
//!
//! Each node that is a struct, and each variant with named parts, keeps the span of its tokens.
//! Equality and hashing ignore spans. Where `syn` has `Vec`, `Punctuated`, `Box` and `String`
//! stand [`Items`], [`Boxed`] and [`Text`], so a contract sees a whole tree as its value.
//!
//! The types that contain each other are one cycle: [`Expr`], [`GenericArgument`],
//! [`PathArguments`], [`Type`], [`TypeParamBound`], [`ExprPath`], [`Path`], [`PathSegment`],
//! [`TraitBound`], [`TypeArray`] and [`TypePath`]. A struct that leads to one of them alone has it
//! as a parameter with a default, as in `TypeSlice<T = Type>`, and stands outside the cycle: a
//! check costs more than linearly in the members of a cycle.
#![tactic(auto)]

mod clone;
mod expr;
mod generics;
mod lit;
mod path;
mod path_ident;
mod ty;

pub use expr::{BinOp, Expr, ExprArray, ExprClosure, ExprPath, ExprRange, Member, UnOp};
pub use generics::{TraitBound, TypeParamBound};
pub use lit::{Lit, LitBool, LitByte, LitByteStr, LitChar, LitFloat, LitInt, LitStr};
pub use path::{GenericArgument, Path, PathArguments, PathSegment, QSelf};
pub use ty::{
    FnArg, NamedArg, ReturnType, Type, TypeArray, TypeFnPtr, TypeGroup, TypeImplTrait, TypeInfer,
    TypeNever, TypeParen, TypePath, TypePtr, TypeReference, TypeSlice, TypeTraitObject, TypeTuple,
};
