//! The inner nodes that a pass over the nodes of an error is in, the innermost first.

ghost use Rattle.std.specs.Prelude.{◌≡◌, ◌++◌, ◌∷◌, [], IfOk, OnOk};
ghost use Rattle.std.specs.Option.{option_copied};
ghost use Rattle.error_core.specs.Walk.{top_of, closed, path_of, is_over, behind_first};

use base_core::{Items, Mem, Text};
use std::alloc::Global;
use std::marker::Model;

/// An inner node: the place of the first node behind its subtree, and a path.
pub(crate) struct Frame {
    pub end: usize,
    pub path: Items<Text>,
}

/// The inner nodes that a pass is in. A contract sees the innermost first.
pub(crate) struct Roots {
    frames: Items<Frame>,
}

impl Model for Roots {
    ghost use Rattle.std.specs.Prelude.{List, reverse};
    ghost use Rattle.error_core.specs.declared.roots.Frame.{Frame};

    ghost Value = { List Frame };

    ghost view = { λ it. reverse it.frames };
}

impl Roots {
    pub(crate) fn new(alloc: Global) -> Roots
        ensures { result ≡ [] }
    {
        Roots {
            frames: Items::new(alloc),
        }
    }

    /// Goes into an inner node.
    pub(crate) fn push(&mut self, end: usize, path: Items<Text>) -> Mem<()>
        ensures { OnOk result (self.new ≡ record { end = end; path = path } ∷ self.old) }
    {
        self.frames.push(Frame { end, path })
    }

    /// Leaves those that end here.
    pub(crate) fn close(&mut self, at: usize)
        ensures { self.new ≡ closed at self.old }
    {
        while self.is_over(at) {
            self.leave();
        }
    }

    /// Whether the innermost ends here.
    pub(crate) fn is_over(&self, at: usize) -> bool
        ensures { result ≡ is_over at self.now }
    {
        match self.top() {
            Some(frame) => frame.end <= at,
            None => false,
        }
    }

    /// Leaves the innermost.
    pub(crate) fn leave(&mut self)
        ensures { self.new ≡ behind_first self.old }
    {
        let _frame = self.frames.pop();
    }

    /// The path of the innermost.
    pub(crate) fn path(&self) -> &[Text]
        ensures { result.now ≡ path_of self.now }
    {
        match self.top() {
            Some(frame) => frame.path.as_slice(),
            None => &[],
        }
    }

    /// The path of the innermost, and behind it these locations.
    pub(crate) fn path_to(&self, alloc: Global, locations: &Items<Text>) -> Mem<Items<Text>>
        ensures { IfOk result (λ path. path ≡ path_of self.now ++ locations.now) }
    {
        let mut path = Items::from_slice(alloc, self.path())?;
        path.extend_from_slice(alloc, locations.as_slice())?;
        Ok(path)
    }

    fn top(&self) -> Option<&Frame>
        ensures { option_copied result ≡ top_of self.now }
    {
        self.frames.last()
    }
}

impl Drop for Frame {
    fn drop(self) {
        let Self {
            end: _,
            path: _path,
        } = self;
    }
}

impl Drop for Roots {
    fn drop(self) {
        let Self { frames: _frames } = self;
    }
}
