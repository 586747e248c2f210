//! The shape of fields, and sets of shapes.

ghost use Rattle.std.specs.Prelude.{◌≡◌, ◌↔◌, ◌⊎◌, IsTrue, Contains, false, length};
ghost use Rattle.error_core.specs.Answers.{Answers};
ghost use Rattle.body_core.specs.Shape as spec;

use crate::ast::{self, Style};
use base_core::{Mem, TryClone};
use error_core::{Error, Fail, Result};
use node_core::{DataStruct, Fields, FieldsNamed, FieldsUnnamed, Variant};
use std::alloc::Global;
use std::fmt::{self, Display};

/// What has a shape: a struct or a variant, by its fields.
pub trait AsShape {
    ghost use Rattle.std.specs.Prelude.{◌≡◌};
    ghost use Rattle.body_core.specs.declared.shape.Shape.{Shape};

    ghost shape: { Self → Shape };

    fn as_shape(&self) -> Shape
        ensures { result ≡ shape self.now };
}

/// How the fields of a struct or of a variant are laid out.
#[derive(Clone, Copy, PartialEq, Eq)]
pub enum Shape {
    /// `{ a: A, b: B }`
    Named,
    /// `(A, B)`
    Tuple,
    /// Nothing is written.
    Unit,
    /// `(A)`, which is a tuple too
    Newtype,
}

impl Shape {
    /// `no fields`, `one unnamed field`, `unnamed fields`, `named fields`
    pub fn description(&self) -> &'static str
        ensures { result.now ≡ spec.description self.now }
    {
        match *self {
            Self::Unit => "no fields",
            Self::Newtype => "one unnamed field",
            Self::Tuple => "unnamed fields",
            Self::Named => "named fields",
        }
    }
}

/// The [`description`](Shape::description).
impl Display for Shape {
    ghost use Rattle.std.specs.Prelude.{Some};

    ghost output = { λ shape. Some (spec.description shape) };

    fn fmt<W: fmt::Write>(&self, f: &mut fmt::Formatter<W>) -> fmt::Result {
        f.write_str(self.description())
    }
}

/// A set of shapes. A set of tuples contains newtypes too.
#[derive(Default, Drop)]
pub struct ShapeSet {
    named: bool,
    tuple: bool,
    unit: bool,
    newtype: bool,
}

impl ShapeSet {
    pub fn new(items: &[Shape]) -> ShapeSet
        ensures { (shape : Shape) → IsTrue (spec.has result shape) ↔ Contains items.now shape }
    {
        ShapeSet {
            named: items.contains(&Shape::Named),
            tuple: items.contains(&Shape::Tuple),
            unit: items.contains(&Shape::Unit),
            newtype: items.contains(&Shape::Newtype),
        }
    }

    pub fn insert_all(&mut self)
        ensures { (shape : Shape) → IsTrue (spec.has self.new shape) }
    {
        self.insert(Shape::Named);
        self.insert(Shape::Tuple);
        self.insert(Shape::Unit);
        self.insert(Shape::Newtype);
    }

    pub fn insert(&mut self, shape: Shape)
        ensures { (other : Shape) → IsTrue (spec.has self.new other) ↔ ((other ≡ shape) ⊎ IsTrue (spec.has self.old other)) }
    {
        match shape {
            Shape::Unit => self.unit = true,
            Shape::Newtype => self.newtype = true,
            Shape::Tuple => self.tuple = true,
            Shape::Named => self.named = true,
        }
    }

    /// Whether no shape was put in.
    #[tactic(auto, using(crate::proofs::ShapeLemmas::nothing_in))]
    pub fn is_empty(&self) -> bool
        ensures { IsTrue result ↔ ((shape : Shape) → spec.has self.now shape ≡ false) }
    {
        match (self.named, self.tuple, self.unit, self.newtype) {
            (false, false, false, false) => true,
            _ => false,
        }
    }

    /// Whether the shape of the fields is in the set.
    pub fn contains<A: AsShape>(&self, fields: &A) -> bool
        ensures { result ≡ spec.contains self.now (A.shape fields.now) }
    {
        match fields.as_shape() {
            Shape::Unit => self.unit,
            Shape::Newtype => self.newtype || self.tuple,
            Shape::Tuple => self.tuple,
            Shape::Named => self.named,
        }
    }

    /// Fails where the shape of the fields is not in the set.
    pub fn check<A: AsShape>(&self, alloc: Global, fields: &A) -> Result<()>
        ensures { Answers (λ it. it) result (spec.checked self.now (A.shape fields.now)) }
    {
        let shape = fields.as_shape();
        if self.contains(&shape) {
            return Ok(());
        }
        let expected = format!(in alloc; "{}", self)?;
        let error = Error::unsupported_shape_with_expected(
            alloc,
            shape.description(),
            expected.as_str(),
        )?;
        Err(Fail::Faults(error))
    }

    /// What the text shows of members in parentheses: tuples, else newtypes.
    fn widest_tuple(&self) -> Option<Shape>
        ensures { result ≡ spec.widest_tuple self.now }
    {
        if self.tuple {
            Some(Shape::Tuple)
        } else if self.newtype {
            Some(Shape::Newtype)
        } else {
            None
        }
    }
}

impl AsShape for Shape {
    ghost shape = { λ it. it };

    fn as_shape(&self) -> Shape {
        *self
    }
}

impl<T> AsShape for ast::Fields<T> {
    ghost shape = { spec.shape_of };

    fn as_shape(&self) -> Shape {
        match self.style {
            Style::Struct => Shape::Named,
            Style::Tuple => tuple_shape(self.len()),
            Style::Unit => Shape::Unit,
        }
    }
}

impl AsShape for Fields {
    ghost shape = { spec.shape_of_fields };

    fn as_shape(&self) -> Shape {
        match self {
            Fields::Named(it) => it.as_shape(),
            Fields::Unnamed(it) => it.as_shape(),
            Fields::Unit => Shape::Unit,
        }
    }
}

impl AsShape for FieldsNamed {
    ghost use Rattle.body_core.specs.declared.shape.Shape.TheVariants.{Named};

    ghost shape = { λ _. Named };

    fn as_shape(&self) -> Shape {
        Shape::Named
    }
}

impl AsShape for FieldsUnnamed {
    ghost shape = { λ it. spec.tuple_shape (length it.unnamed) };

    fn as_shape(&self) -> Shape {
        tuple_shape(self.unnamed.len())
    }
}

impl AsShape for DataStruct {
    ghost shape = { λ it. spec.shape_of_fields it.fields };

    fn as_shape(&self) -> Shape {
        self.fields.as_shape()
    }
}

impl AsShape for Variant {
    ghost shape = { λ it. spec.shape_of_fields it.fields };

    fn as_shape(&self) -> Shape {
        self.fields.as_shape()
    }
}

/// The shape of so many members in parentheses.
fn tuple_shape(count: usize) -> Shape
    ensures { result ≡ spec.tuple_shape count }
{
    if count == 1 {
        Shape::Newtype
    } else {
        Shape::Tuple
    }
}

impl TryClone for ShapeSet {
    fn try_clone(&self, _alloc: Global) -> Mem<ShapeSet> {
        Ok(ShapeSet {
            named: self.named,
            tuple: self.tuple,
            unit: self.unit,
            newtype: self.newtype,
        })
    }
}

/// `nothing`, `a`, `a or b`, `a, b, or c`: named fields, then unnamed ones (else one), then none.
impl Display for ShapeSet {
    ghost use Rattle.std.specs.Prelude.{Some};

    ghost output = { λ set. Some (spec.set_text set) };

    fn fmt<W: fmt::Write>(&self, f: &mut fmt::Formatter<W>) -> fmt::Result {
        match (self.named, self.widest_tuple(), self.unit) {
            (false, None, false) => f.write_str("nothing"),
            (true, None, false) => write!(f, "{}", Shape::Named),
            (false, Some(tuple), false) => write!(f, "{}", tuple),
            (false, None, true) => write!(f, "{}", Shape::Unit),
            (true, Some(tuple), false) => write!(f, "{} or {}", Shape::Named, tuple),
            (true, None, true) => write!(f, "{} or {}", Shape::Named, Shape::Unit),
            (false, Some(tuple), true) => write!(f, "{} or {}", tuple, Shape::Unit),
            (true, Some(tuple), true) => {
                write!(f, "{}, {}, or {}", Shape::Named, tuple, Shape::Unit)
            }
        }
    }
}
