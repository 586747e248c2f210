//! What an item means, as data.

use base_core::{Boxed, Items, Text};
use error_fault::Fault;
use node_core::Style;
use tok_types::{Span, TokenStream};

/// What an item means, as data. Each type that is read has its own variant, or shares that of its kind.
pub enum Value {
    /// `()`, and what carries nothing.
    Unit,
    /// A Boolean.
    Bool(bool),
    /// An integer of any type: its sign, and its distance from zero.
    Int {
        negative: bool,
        digits: u128,
    },
    /// A character.
    Char(char),
    /// A text, as that of a `String`.
    Text(Text),
    /// A list, as a `Vec`, in its order.
    List(Items<Value>),
    /// A map: the keys in order, each with its value.
    Map(Items<(Text, Value)>),
    /// An `Option`.
    Opt(Option<Boxed<Value>>),
    /// A struct of this name, with the members in the order of its declaration. A member by place has an
    /// empty name.
    Struct {
        name: Text,
        style: Style,
        fields: Items<(Text, Value)>,
    },
    /// A variant of the enum `ty`, with its members as those of a struct.
    Variant {
        ty: Text,
        name: Text,
        style: Style,
        fields: Items<(Text, Value)>,
    },
    /// A piece of syntax, by its tokens.
    Syntax(TokenStream),
    /// Faults that are kept as a value, as those of a `Result`.
    Faults(Items<Fault>),
    /// A place in the text. None stands where a node has none.
    Span(Option<Span>),
    /// A value of the host's own type `ty`, by its text.
    Host {
        ty: Text,
        text: Text,
    },
}

impl Drop for Value {
    #[cycle(drops)]
    fn drop(self) {
        match self {
            Value::Unit => {}
            Value::Bool(_) => {}
            Value::Int {
                negative: _,
                digits: _,
            } => {}
            Value::Char(_) => {}
            Value::Text(_text) => {}
            Value::List(_values) => {}
            Value::Map(_entries) => {}
            Value::Opt(_inner) => {}
            Value::Struct {
                name: _name,
                style: _,
                fields: _fields,
            } => {}
            Value::Variant {
                ty: _ty,
                name: _name,
                style: _,
                fields: _fields,
            } => {}
            Value::Syntax(_tokens) => {}
            Value::Faults(_faults) => {}
            Value::Span(_) => {}
            Value::Host {
                ty: _ty,
                text: _text,
            } => {}
        }
    }
}
