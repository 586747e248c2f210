//! Bodies, generics and shapes.

use crate::ask::{faults, item_of, push_node};
use body_core::ast::{Data, Fields, GenericParam, Generics, Style};
use body_core::{
    Error, Fail as Refusal, FromField, FromGenerics, FromVariant, Result as Answer, Shape, ShapeSet,
};
use error_core::{Items, Text};
use node_core::{DeriveInput, Field, Ident, Variant};
use std::alloc::Global;
use std::test::Fail;
use tests_checks::{Tested, kind_of};

/// The fields of a struct.
fn fields_of(item: &DeriveInput) -> Tested<&node_core::Fields> {
    match &item.body {
        node_core::Data::Struct(it) => Ok(&it.fields),
        _ => Err(Fail::new(format_args!("it is no struct"))),
    }
}

/// The shapes of these words.
fn shapes(words: &str) -> ShapeSet {
    let mut set = ShapeSet::new(&[]);
    for word in words.split(' ') {
        match word {
            "named" => set.insert(Shape::Named),
            "tuple" => set.insert(Shape::Tuple),
            "unit" => set.insert(Shape::Unit),
            "newtype" => set.insert(Shape::Newtype),
            "all" => set.insert_all(),
            _ => {}
        }
    }
    set
}

/// The text of a set: a row `SHAPES => TEXT`.
pub fn shaped(alloc: Global, words: &str) -> Tested<Text> {
    let text = format!(in alloc; "{}", shapes(words))?;
    Ok(Text::from_str(alloc, text.as_str())?)
}

/// Whether a set has the shape of a struct: a row `SHAPES | STRUCT => ok`, or the fault.
pub fn taken(alloc: Global, row: &str) -> Tested<Text> {
    let (words, text) = kind_of(row)?;
    let item = item_of(alloc, text)?;
    let fields = fields_of(&item)?;
    let set = shapes(words);
    let told = faults(alloc, set.check(alloc, fields))?;
    if told.is("ok") == set.contains(fields) {
        return Ok(told);
    }
    Err(Fail::new(format_args!("{row} has two answers")))
}

/// The members of a struct as they print.
pub fn printed_members(alloc: Global, text: &str) -> Tested<Text> {
    let item = item_of(alloc, text)?;
    let mut told = Text::new(alloc);
    match Fields::<Field>::try_from(alloc, fields_of(&item)?) {
        Ok(fields) => push_node(alloc, &mut told, &fields)?,
        Err(_) => told.push_str("refused")?,
    }
    Ok(told)
}

/// The first five type parameters of an item, which stand among others: a row `ITEM => NAMES of NUMBER`.
pub fn names_of(alloc: Global, text: &str) -> Tested<Text> {
    let item = item_of(alloc, text)?;
    let Ok(generics) = Generics::<GenericParam<Ident>>::from_generics(alloc, &item.generics) else {
        return Err(Fail::new(format_args!("the generics are refused")));
    };
    let mut told = Text::new(alloc);
    let mut names = generics.type_params();
    for _name in 0..5 {
        if let Some(name) = names.next() {
            told.push_str(name.text.as_str())?;
            told.push(' ')?;
        }
    }
    told.push_str(format!(in alloc; "of {}", generics.params.len())?.as_str())?;
    if generics.where_clause.is_some() {
        told.push_str(", where")?;
    }
    Ok(told)
}

/// The faults of an item whose parts are read as [`Nothing`].
pub fn read_nothing(alloc: Global, text: &str) -> Tested<Text> {
    let item = item_of(alloc, text)?;
    faults(alloc, Data::<Nothing, Nothing>::try_from(alloc, &item.body))
}

/// A type that takes no field and no variant.
#[derive(Drop)]
struct Nothing;

impl FromField for Nothing {
    ghost use Rattle.std.specs.Prelude.{codes};
    ghost use Rattle.error_fault.specs.Outcome.{refused};
    ghost use Rattle.error_fault.specs.declared.kind.FaultKind.TheVariants.{Custom};

    ghost Seen = { Unit {0} };

    ghost seen = { λ _. tt };

    ghost meaning = { λ _. refused (Custom (codes "no")) };

    fn from_field(alloc: Global, _field: &Field) -> Answer<Nothing> {
        Err(Refusal::Faults(Error::custom(alloc, "no")?))
    }
}

impl FromVariant for Nothing {
    ghost use Rattle.std.specs.Prelude.{codes};
    ghost use Rattle.error_fault.specs.Outcome.{refused};
    ghost use Rattle.error_fault.specs.declared.kind.FaultKind.TheVariants.{Custom};

    ghost Seen = { Unit {0} };

    ghost seen = { λ _. tt };

    ghost meaning = { λ _. refused (Custom (codes "no")) };

    fn from_variant(alloc: Global, _variant: &Variant) -> Answer<Nothing> {
        Err(Refusal::Faults(Error::custom(alloc, "no")?))
    }
}

fn is_eq<T: Eq>(one: &T, other: &T) -> bool {
    one == other
}

/// Maps keep order and style.
#[test]
fn members_are_mapped(rt: HostRuntime) -> Tested<()> {
    let alloc = rt.alloc();
    let fields = Fields::new(Style::Tuple, vec![in alloc; 3u8, 4]?);
    let shown = fields.as_ref(alloc)?;
    assert!(rt; shown.is_tuple() && shown.len() == 2);
    drop(shown);
    let twice = fields.map(alloc, |n: u8| n / 2)?;
    let (style, members) = twice.split();
    assert!(rt; is_eq(&style, &Style::Tuple));
    assert!(rt; members.as_slice() == [1, 2].as_slice());
    Ok(())
}

/// What a function makes of the variants or of the members of a body; those of the other kind stay.
#[test]
fn bodies_are_mapped(rt: HostRuntime) -> Tested<()> {
    let alloc = rt.alloc();
    let halved = |n: u8| n / 2;
    let members = Fields::new(Style::Tuple, vec![in alloc; 6u8, 8]?);
    let body = Data::<u8, u8>::Struct(members);
    assert!(rt; body.as_struct().is_some() && body.as_enum().is_none());
    let body = body.map_enum_variants(alloc, halved)?;
    let body = body.map_struct_fields(alloc, halved)?;
    let body = body.map_struct(|fields: Fields<u8>| fields);
    let Some(members) = body.take_struct() else {
        return Err(Fail::new(format_args!("the struct is none")));
    };
    assert!(rt; members.fields.as_slice() == [3, 4].as_slice());
    let body = Data::<u8, u8>::Enum(Items::from_vec(vec![in alloc; 6u8, 8]?));
    assert!(rt; body.as_struct().is_none() && body.as_enum() == Some([6, 8].as_slice()));
    let body = body.map_struct_fields(alloc, halved)?;
    let body = body.map_enum_variants(alloc, halved)?;
    assert!(rt;
        body.take_enum()
            .is_some_and(|variants| variants.as_slice() == [3, 4].as_slice())
    );
    Ok(())
}
