//! Programs of texts of declarations, and what is told of them.

use crate::ask::places;
use crate::sources::{derive_name, item_of, items_of};
use crate::statements::looked_up;
use body_core::ast::{Data, Fields, Style};
use codegen_core::{Field, OverrideableCallable, TraitImpl};
use codegen_outer::{ForwardAttrs, FromDeriveInputImpl, OuterFromImpl, OuterImpl};
use codegen_program::{Decls, Program, Unit};
use error_fault::fault_line;
use machine_execute::{Element, Outcome, try_execute};
use machine_fit::refusals;
use machine_forms::repeated_names;
use machine_std::StdHost;
use meta_core::PathList;
use node_core::{DeriveInput, Items, Path, Span, Text, TryClone};
use run_accepted::{CompileFail, compile, unbuilt};
use run_text::value_text;
use std::alloc::Global;
use std::test::Fail;
use syn_core::parse_path;
use tests_checks::{Tested, given, kind_of, tokens};
use util_core::Callable;
use util_table::RenameTable;

fn tried(alloc: Global, decls: &Items<DeriveInput>) -> Tested<Result<Program, CompileFail>> {
    if decls.len() > 10_000 {
        return Err(Fail::new(format_args!("there are too many declarations")));
    }
    Ok(compile(alloc, decls.as_slice(), &RenameTable::empty(alloc)))
}

fn compiled(alloc: Global, decls: &Items<DeriveInput>) -> Tested<Program> {
    match tried(alloc, decls)? {
        Ok(program) => Ok(program),
        Err(CompileFail::Rejected(_)) => Err(Fail::new(format_args!("options have faults"))),
        Err(CompileFail::NoMemory) => Err(Fail::new(format_args!("no memory is left"))),
    }
}

/// What declarations come to: `unbuilt at` the places of forms that no run reads, or the number of declarations, and
/// each unit with the number of its own.
pub fn come_of(alloc: Global, text: &str) -> Tested<Text> {
    let decls = items_of(alloc, text)?;
    let spans = unbuilt(alloc, decls.as_slice())?;
    if !spans.is_empty() {
        let mut text = Text::from_str(alloc, "unbuilt at ")?;
        text.push_str(places(alloc, spans.as_slice())?.as_str())?;
        return Ok(text);
    }
    units_text(alloc, &compiled(alloc, &decls)?)
}

/// The units of declarations, whether a run reads their forms or not; or how many faults their options have, and under which
/// derive.
pub fn units_of(alloc: Global, text: &str) -> Tested<Text> {
    let decls = items_of(alloc, text)?;
    match tried(alloc, &decls)? {
        Ok(program) => units_text(alloc, &program),
        Err(CompileFail::Rejected(it)) => {
            let count = it.faults.len();
            let derive = derive_name(it.derive).trim_end();
            let told = format!(in alloc; "{count} faults under {derive}")?;
            Ok(Text::from_str(alloc, told.as_str())?)
        }
        Err(CompileFail::NoMemory) => Err(Fail::new(format_args!("no memory is left"))),
    }
}

/// The program of the declarations, whether a run reads their forms or not.
pub fn any_program(alloc: Global, text: &str) -> Tested<Program> {
    compiled(alloc, &items_of(alloc, text)?)
}

fn units_text(alloc: Global, program: &Program) -> Tested<Text> {
    let count = program.decls.len();
    let mut text = Text::new(alloc);
    text.push_str(format!(in alloc; "{count} decls:")?.as_str())?;
    for unit in program.units.as_slice() {
        let decl = unit.decl;
        let name = derive_name(unit.derive).trim_end();
        text.push_str(format!(in alloc; " {decl} {name}")?.as_str())?;
    }
    Ok(text)
}

/// The program of the declarations of a text. Those of forms that no run reads yet have no units.
pub fn program_of(alloc: Global, text: &str) -> Tested<Program> {
    let decls = items_of(alloc, text)?;
    let mut units = Items::new(alloc);
    for (number, decl) in decls.as_slice().iter().enumerate() {
        match u32::try_from(number) {
            Ok(number) => push_units(alloc, number, decl, &mut units)?,
            Err(_) => return Err(Fail::new(format_args!("there are too many declarations"))),
        }
    }
    let decls = Decls::new(alloc, decls)?;
    Ok(Program { decls, units })
}

fn push_units(
    alloc: Global,
    number: u32,
    decl: &DeriveInput,
    units: &mut Items<Unit>,
) -> Tested<()> {
    let decls = Items::of(alloc, decl.try_clone(alloc)?)?;
    if !unbuilt(alloc, decls.as_slice())?.is_empty() {
        return Ok(());
    }
    let program = compiled(alloc, &decls)?;
    for unit in program.units.as_slice() {
        let mut unit = unit.try_clone(alloc)?;
        unit.decl = number;
        units.push(unit)?;
    }
    Ok(())
}

fn path_of(alloc: Global, text: &str) -> Tested<Path> {
    given(parse_path(alloc, &tokens(alloc, 0, text)?), text)
}

/// The fields of a struct; one named `with` is read by the function.
fn fields<'a>(
    alloc: Global,
    item: &'a DeriveInput,
    function: &'a Callable,
) -> Tested<Vec<Field<'a>>> {
    let mut fields = Vec::new(alloc);
    let node_core::Data::Struct(body) = &item.body else {
        return Err(Fail::new(format_args!("it is no struct")));
    };
    let node_core::Fields::Named(named) = &body.fields else {
        return Err(Fail::new(format_args!("it has no names")));
    };
    for node in named.named.as_slice() {
        let Some(ident) = &node.ident else {
            return Err(Fail::new(format_args!("it has no name")));
        };
        let with_callable = if ident.text.is("with") {
            OverrideableCallable::Custom(function)
        } else {
            OverrideableCallable::Default(Span::CallSite)
        };
        fields.push(Field {
            name_in_attr: ident.text.as_str(),
            ident,
            ty: &node.ty,
            default_expression: None,
            with_callable,
            post_transform: None,
            skip: false,
            multiple: false,
            flatten: false,
        })?;
    }
    Ok(fields)
}

/// The program of one struct that derives `FromDeriveInput` with the option `from_ident`, which no run reads yet, and
/// allows unknown fields: a row `ATTRIBUTE | STRUCT`, or `STRUCT`.
pub fn by_hand(alloc: Global, row: &str) -> Tested<Program> {
    let (attribute, text) = row.split_once(" | ").unwrap_or(("", row));
    let item = item_of(alloc, 0, text)?;
    let function = Callable::from_path(alloc, path_of(alloc, "function")?)?;
    let fields = fields(alloc, &item, &function)?;
    if fields.len() > 100 {
        return Err(Fail::new(format_args!("it has too many fields")));
    }
    let mut names = Vec::new(alloc);
    if !attribute.is_empty() {
        names.push(path_of(alloc, attribute)?)?;
    }
    let attr_names = PathList::new(names);
    let usual = path_of(alloc, "::darling")?;
    let outer = OuterImpl {
        base: TraitImpl {
            ident: &item.ident,
            generics: &item.generics,
            body: Data::Struct(Fields::new(Style::Struct, fields)),
            default: None,
            post_transform: None,
            allow_unknown_fields: true,
            transparent: false,
            krate: Some(&usual),
        },
        attr_names: &attr_names,
        forward_attrs: ForwardAttrs {
            filter: None,
            field: None,
        },
        ident: None,
        from_ident: true,
    };
    let receiver = FromDeriveInputImpl {
        outer,
        vis: None,
        generics: None,
        body: None,
        supports: None,
    };
    let units = Items::of(alloc, receiver.unit_of(alloc, 0)?)?;
    let decls = Decls::new(alloc, Items::of(alloc, item.try_clone(alloc)?)?)?;
    Ok(Program { decls, units })
}

/// What the last unit makes of an item, a row `DECLARATIONS | ITEM`: the value, the lines of the faults, or `no memory`.
pub fn outcome(alloc: Global, row: &str) -> Tested<Text> {
    let (decls, subject) = kind_of(row)?;
    let input = item_of(alloc, 1, subject)?;
    ran(alloc, &program_of(alloc, decls)?, Element::Input(&input))
}

/// What the last unit of a program makes of an element: the value, the lines of the faults, or `no memory`.
pub fn ran(alloc: Global, program: &Program, element: Element<'_>) -> Tested<Text> {
    let host = StdHost::new(alloc)?;
    let Ok(unit) = u32::try_from(program.units.len().saturating_sub(1)) else {
        return Err(Fail::new(format_args!("there are too many units")));
    };
    match try_execute(alloc, program, unit, element, &host) {
        Ok(Some(outcome)) => shown(alloc, &outcome),
        Ok(None) => Err(Fail::new(format_args!("it has no outcome"))),
        Err(_) => Ok(Text::from_str(alloc, "no memory")?),
    }
}

/// How an arm of the last unit is looked up: a row `DECLARATIONS | NAME`.
pub fn arm_at(alloc: Global, row: &str) -> Tested<Text> {
    let (decls, name) = kind_of(row)?;
    looked_up(alloc, &program_of(alloc, decls)?, name)
}

fn shown(alloc: Global, outcome: &Outcome) -> Tested<Text> {
    if let Some(value) = outcome.value() {
        return Ok(value_text(alloc, value)?);
    }
    let mut text = Text::new(alloc);
    for fault in outcome.faults() {
        text.push_str(fault_line(alloc, fault)?.as_str())?;
        text.push(';')?;
    }
    Ok(text)
}

/// The places of names that stand twice in a program, and in its declarations alone.
pub fn named_twice(alloc: Global, text: &str) -> Tested<Text> {
    let program = program_of(alloc, text)?;
    let all = refusals(alloc, &program, &StdHost::new(alloc)?)?;
    let names = repeated_names(alloc, program.decls.as_slice())?;
    let mut told = places(alloc, all.duplicate_names.as_slice())?;
    told.push_str("; ")?;
    told.push_str(places(alloc, names.as_slice())?.as_str())?;
    Ok(told)
}
