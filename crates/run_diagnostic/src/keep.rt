//! A source that keeps what it hands on.

ghost use Rattle.std.specs.Prelude.{◌≡◌, Some, [], option_map};
ghost use Rattle.run_diagnostic.specs.Kept.{Keeps, kept_bytes};

use edge_core::{Failed, Source};
use std::alloc::Global;

/// A source that keeps what another one gives, as long as there is memory.
pub struct KeepingSource<S> {
    source: S,
    kept: Option<Vec<u8>>,
}

impl<S> KeepingSource<S> {
    pub fn new(alloc: Global, source: S) -> KeepingSource<S>
        ensures { kept_bytes result ≡ Some [] }
    {
        KeepingSource {
            source,
            kept: Some(Vec::new(alloc)),
        }
    }

    /// The bytes that were read, all of them; none where memory did not suffice to keep them.
    pub fn kept(&self) -> Option<&[u8]>
        ensures { option_map (λ bytes. bytes.now) result ≡ kept_bytes self.now }
    {
        match &self.kept {
            Some(bytes) => Some(bytes.as_slice()),
            None => None,
        }
    }
}

impl<S: Drop> Drop for KeepingSource<S> {
    fn drop(self) {
        let Self {
            source: _source,
            kept: _kept,
        } = self;
    }
}

impl<S: Source> Source for KeepingSource<S> {
    ghost left = { λ it. S.left it.source };

    ghost faults = { λ it. S.faults it.source };

    ghost read_gives = { λ before room given after.
        S.read_gives before.source room given after.source
        × Keeps (kept_bytes before) given (kept_bytes after) };

    fn read(&mut self, buf: &mut [u8]) -> Result<usize, Failed> {
        let count = self.source.read(buf)?;
        keep(&mut self.kept, &buf[..count]);
        Ok(count)
    }
}

/// Puts the bytes behind those that are kept, or lets all go.
fn keep(kept: &mut Option<Vec<u8>>, bytes: &[u8])
    ensures { Keeps (option_map (λ it. it.items) kept.old) (Some bytes.now) (option_map (λ it. it.items) kept.new) }
{
    let Some(vec) = kept else {
        return;
    };
    if vec.extend_from_slice(bytes).is_err() {
        *kept = None;
    }
}
