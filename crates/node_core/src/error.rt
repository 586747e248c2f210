//! The error of a parser: at least one fault, each with its span.

ghost use Rattle.std.specs.Prelude.{◌≡◌, ◌++◌, [], IfOk, OnOk, OnErr};
ghost use Rattle.node_core.specs.Error.{faults_of};

use base_core::{Items, Mem, Text, TryClone};
use std::alloc::Global;
use tok_types::Span;

/// Why tokens are not read: at least one fault, each a place and what is wrong there.
#[derive(Debug)]
pub struct SynError {
    pub first: (Span, Text),
    pub more: Items<(Span, Text)>,
}

impl SynError {
    /// The one fault `text` at `span`.
    pub fn new(alloc: Global, span: Span, text: &str) -> Mem<SynError>
        ensures { IfOk result (λ error. error ≡ record { first = (span, text.now); more = [] }) }
    {
        let text = Text::from_str(alloc, text)?;
        Ok(SynError {
            first: (span, text),
            more: Items::new(alloc),
        })
    }

    /// Puts the faults of `other` behind these. Want of memory drops them.
    pub fn combine(&mut self, alloc: Global, other: SynError) -> Mem<()>
        ensures ok { OnOk result (faults_of self.new ≡ faults_of self.old ++ faults_of other) }
        ensures err { OnErr result (self.new ≡ self.old) }
    {
        let faults = other.into_faults(alloc)?;
        self.more.append(faults)
    }

    /// The faults in their order. Want of memory drops them.
    pub fn into_faults(self, alloc: Global) -> Mem<Items<(Span, Text)>>
        ensures { IfOk result (λ faults. faults ≡ faults_of self) }
    {
        let SynError { first, more } = self;
        let mut faults = Items::of(alloc, first)?;
        faults.append(more)?;
        Ok(faults)
    }
}

impl TryClone for SynError {
    fn try_clone(&self, alloc: Global) -> Mem<SynError> {
        Ok(SynError {
            first: self.first.try_clone(alloc)?,
            more: self.more.try_clone(alloc)?,
        })
    }
}

impl Drop for SynError {
    fn drop(self) {
        let Self {
            first: _first,
            more: _more,
        } = self;
    }
}
