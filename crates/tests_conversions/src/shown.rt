//! What a test shows of a value: its text, its tokens, or a form of the tests' own.
//!
//! What stands around a value is shown by what stands so around a form: `Vec<Printed>` shows a vector of nodes.

use error_core::{Error, Text};
use meta_core::{Boxed, KeyFromPath, PathList, Span};
use options_types::{DefaultExpression, ForwardAttrsFilter, Ignored, SpannedValue, WithOriginal};
use print_core::ToTokens;
use std::alloc::Global;
use std::collections::{BTreeMap, BTreeSet, HashMap, HashSet};
use std::fmt::Debug;
use std::hash::Hash;
use tests_checks::Tested;
use tok_core::to_text;
use util_core::Flag;

/// A form in which a test shows a value.
pub trait Shows<T> {
    fn show(alloc: Global, text: &mut Text, value: &T) -> Tested<()>;
}

/// The value as a literal.
pub struct Debugged;

impl<T: Debug> Shows<T> for Debugged {
    fn show(alloc: Global, text: &mut Text, value: &T) -> Tested<()> {
        text.push_str(format!(in alloc; "{value:?}")?.as_str())?;
        Ok(())
    }
}

/// The tokens of a node.
pub struct Printed;

impl<T: ToTokens> Shows<T> for Printed {
    fn show(alloc: Global, text: &mut Text, value: &T) -> Tested<()> {
        let tokens = value.to_token_stream(alloc)?;
        text.push_str(to_text(alloc, &tokens)?.as_str())?;
        Ok(())
    }
}

/// A form for a type that has neither text nor tokens.
pub struct Own;

impl Shows<Error> for Own {
    fn show(alloc: Global, text: &mut Text, value: &Error) -> Tested<()> {
        text.push_str(value.to_text(alloc)?.as_str())?;
        Ok(())
    }
}

impl Shows<Flag> for Own {
    fn show(_alloc: Global, text: &mut Text, value: &Flag) -> Tested<()> {
        let present = value.is_present();
        text.push_str(if present { "present" } else { "absent" })?;
        Ok(())
    }
}

impl Shows<PathList> for Own {
    fn show(alloc: Global, text: &mut Text, value: &PathList) -> Tested<()> {
        let texts = value.to_strings(alloc)?;
        for path in texts.iter() {
            text.push_str(path.as_str())?;
            text.push(';')?;
        }
        Ok(())
    }
}

impl Shows<Ignored> for Own {
    fn show(_alloc: Global, text: &mut Text, _value: &Ignored) -> Tested<()> {
        text.push_str("ignored")?;
        Ok(())
    }
}

impl Shows<DefaultExpression> for Own {
    fn show(alloc: Global, text: &mut Text, value: &DefaultExpression) -> Tested<()> {
        match value {
            DefaultExpression::Inherit => text.push_str("Inherit")?,
            DefaultExpression::Explicit(callable) => Printed::show(alloc, text, callable)?,
            DefaultExpression::Trait { span } => {
                text.push_str("Trait")?;
                push_place(alloc, text, *span)?;
            }
        }
        Ok(())
    }
}

impl Shows<ForwardAttrsFilter> for Own {
    fn show(alloc: Global, text: &mut Text, value: &ForwardAttrsFilter) -> Tested<()> {
        match value {
            ForwardAttrsFilter::All => text.push_str("All")?,
            ForwardAttrsFilter::Only(paths) => <Own as Shows<PathList>>::show(alloc, text, paths)?,
        }
        if value.is_empty() {
            text.push_str("none")?;
        }
        Ok(())
    }
}

/// The names in the order of their texts.
impl<T: KeyFromPath + Hash> Shows<HashSet<T>> for Own {
    fn show(alloc: Global, text: &mut Text, value: &HashSet<T>) -> Tested<()> {
        let mut shown = BTreeSet::new(alloc);
        for name in value.iter() {
            shown.insert(name.to_display(alloc)?)?;
        }
        for name in shown.iter() {
            text.push_str(name.as_str())?;
            text.push(';')?;
        }
        Ok(())
    }
}

fn push_place(alloc: Global, text: &mut Text, span: Span) -> Tested<()> {
    match span {
        Span::CallSite => text.push_str(" @ nowhere")?,
        Span::At { start, end, .. } => {
            text.push_str(format!(in alloc; " @ {start}..{end}")?.as_str())?;
        }
    }
    Ok(())
}

impl<T, S: Shows<T>> Shows<SpannedValue<T>> for SpannedValue<S> {
    fn show(alloc: Global, text: &mut Text, value: &SpannedValue<T>) -> Tested<()> {
        S::show(alloc, text, value.as_ref())?;
        push_place(alloc, text, value.span())
    }
}

impl<T, O: ToTokens, S: Shows<T>> Shows<WithOriginal<T, O>> for WithOriginal<S, Printed> {
    fn show(alloc: Global, text: &mut Text, value: &WithOriginal<T, O>) -> Tested<()> {
        S::show(alloc, text, &value.parsed)?;
        text.push_str(" of ")?;
        Printed::show(alloc, text, &value.original)
    }
}

impl<T, S: Shows<T>> Shows<Vec<T>> for Vec<S> {
    fn show(alloc: Global, text: &mut Text, value: &Vec<T>) -> Tested<()> {
        text.push('[')?;
        for (index, item) in value.iter().enumerate() {
            if index > 0 {
                text.push_str(", ")?;
            }
            S::show(alloc, text, item)?;
        }
        text.push(']')?;
        Ok(())
    }
}

impl<T, S: Shows<T>> Shows<Boxed<T>> for Boxed<S> {
    fn show(alloc: Global, text: &mut Text, value: &Boxed<T>) -> Tested<()> {
        S::show(alloc, text, value.get())
    }
}

impl<T, E, S: Shows<T>, F: Shows<E>> Shows<Result<T, E>> for Result<S, F> {
    fn show(alloc: Global, text: &mut Text, value: &Result<T, E>) -> Tested<()> {
        match value {
            Ok(value) => {
                text.push_str("Ok ")?;
                S::show(alloc, text, value)
            }
            Err(error) => {
                text.push_str("Err ")?;
                F::show(alloc, text, error)
            }
        }
    }
}

impl<K: KeyFromPath + Ord, V, S: Shows<V>> Shows<BTreeMap<K, V>> for BTreeMap<K, S> {
    fn show(alloc: Global, text: &mut Text, value: &BTreeMap<K, V>) -> Tested<()> {
        for (key, value) in value.iter() {
            text.push_str(key.to_display(alloc)?.as_str())?;
            text.push('=')?;
            S::show(alloc, text, value)?;
            text.push(';')?;
        }
        Ok(())
    }
}

/// The entries in the order of their texts.
impl<K: KeyFromPath + Hash, V, S: Shows<V>> Shows<HashMap<K, V>> for HashMap<K, S> {
    fn show(alloc: Global, text: &mut Text, value: &HashMap<K, V>) -> Tested<()> {
        let mut shown = BTreeMap::new(alloc);
        for (key, value) in value.iter() {
            let mut entry = Text::new(alloc);
            S::show(alloc, &mut entry, value)?;
            shown.insert(key.to_display(alloc)?, entry)?;
        }
        for (key, entry) in shown.iter() {
            text.push_str(key.as_str())?;
            text.push('=')?;
            text.push_str(entry.as_str())?;
            text.push(';')?;
        }
        Ok(())
    }
}
