//! Statements.

use crate::alternatives::Alternatives;
use crate::arm::{PostfixTransform, Rest};
use crate::arms::Arms;
use crate::callable::Callable;
use crate::forward::Forward;
use crate::forwarded::Forwarded;
use crate::init::{DefaultSource, Init};
use crate::program::FuncName;
use crate::shape::ShapeSpec;
use crate::unit_arms::UnitArms;
use crate::variant_arms::VariantArms;
use base_core::{Items, Text};
use node_expr::Type;
use tok_types::Ident;

/// How deep statements may stand in statements, where a program is looked through or run.
pub const MAX_NESTING: usize = 64;

/// A statement of a function that reads a receiver.
pub enum Stmt {
    /// No fault has been met yet.
    DeclareErrors,
    /// The slot of a field that takes one item.
    DeclareOne {
        slot: u32,
        ident: Ident,
        ty: Type,
    },
    /// The slot of a field that takes many items.
    DeclareMany {
        slot: u32,
        ident: Ident,
        ty: Type,
    },
    /// No item is kept for the flattened field yet.
    DeclareBuffer,
    /// No attribute is kept for this field yet.
    DeclareForward {
        ident: Ident,
    },
    /// The attributes that were kept fill this field, by the function where one is named.
    ForwardDone {
        ident: Ident,
        with: Option<Callable>,
    },
    /// Goes over the attributes: at those of these names the items are read, those to forward are kept.
    ForAttributes {
        names: Items<Text>,
        items: Items<Stmt>,
        forward: Forward,
    },
    /// Goes over the items of one attribute or list.
    ForItems {
        arms: Arms,
        rest: Rest,
    },
    /// Reads the flattened field from the items that were kept. The names are those of its siblings.
    ReadFlatten {
        slot: u32,
        names: Alternatives,
    },
    /// A slot that no item wrote gets the value of its type without item, or is a fault under this name.
    CheckMissing {
        slot: u32,
        ty: Type,
        name: Text,
    },
    /// Ends with the faults, where there are some.
    CheckErrors {
        location: Option<Text>,
    },
    /// Makes the default of the whole receiver.
    SetDefault {
        from: DefaultSource,
    },
    /// Builds the receiver of this name, or its variant, from parts of the element and from slots.
    Build {
        name: Ident,
        variant: Option<Ident>,
        forwarded: Items<Forwarded>,
        inits: Items<Init>,
    },
    /// Hands what was built to a function.
    Transform {
        post: PostfixTransform,
    },
    /// Another shape of the element is a fault.
    CheckShape {
        shapes: ShapeSpec,
    },
    /// Reads the body, or the fields, into this field, by the function where one is named.
    ReadBody {
        ident: Option<Ident>,
        with: Option<Callable>,
    },
    /// Reads the generics into this field, by the function where one is named.
    ReadGenerics {
        ident: Ident,
        with: Option<Callable>,
    },
    /// Reads the receiver of this name as the type of its one member is read.
    Delegate {
        name: Ident,
        member: Text,
        ty: Type,
    },
    /// Reads the variant whose name the one item of a list has. The names are what a fault may propose.
    Variants {
        arms: VariantArms<Stmt>,
        names: Alternatives,
    },
    /// Reads the variant that a string names. The names are what a fault may propose.
    UnitNames {
        arms: UnitArms,
        names: Alternatives,
    },
    /// Answers what the function gives, in this function of the trait.
    Call {
        callable: Callable,
        at: FuncName,
    },
}

impl Drop for Stmt {
    #[cycle(drops)]
    fn drop(self) {
        match self {
            Stmt::DeclareErrors | Stmt::DeclareBuffer | Stmt::CheckShape { shapes: _ } => {}
            Stmt::DeclareOne {
                slot: _,
                ident: _ident,
                ty: _ty,
            } => {}
            Stmt::DeclareMany {
                slot: _,
                ident: _ident,
                ty: _ty,
            } => {}
            Stmt::DeclareForward { ident: _ident } => {}
            Stmt::ForwardDone {
                ident: _ident,
                with: _with,
            } => {}
            Stmt::ForAttributes {
                names: _names,
                items: _items,
                forward: _forward,
            } => {}
            Stmt::ForItems {
                arms: _arms,
                rest: _rest,
            } => {}
            Stmt::ReadFlatten {
                slot: _,
                names: _names,
            } => {}
            Stmt::CheckMissing {
                slot: _,
                ty: _ty,
                name: _name,
            } => {}
            Stmt::CheckErrors {
                location: _location,
            } => {}
            Stmt::SetDefault { from: _from } => {}
            Stmt::Build {
                name: _name,
                variant: _variant,
                forwarded: _forwarded,
                inits: _inits,
            } => {}
            Stmt::Transform { post: _post } => {}
            Stmt::ReadBody {
                ident: _ident,
                with: _with,
            } => {}
            Stmt::ReadGenerics {
                ident: _ident,
                with: _with,
            } => {}
            Stmt::Delegate {
                name: _name,
                member: _member,
                ty: _ty,
            } => {}
            Stmt::Variants {
                arms: _arms,
                names: _names,
            } => {}
            Stmt::UnitNames {
                arms: _arms,
                names: _names,
            } => {}
            Stmt::Call {
                callable: _callable,
                at: _,
            } => {}
        }
    }
}
