//! What the lines before a change and those of its parts say.

ghost use Rattle.std.specs.Prelude.{◌≡◌, [], OnOk};
ghost use Rattle.report_reader.specs.States.{pushed};

use ext_algebra::{Algebra, Ext};
use jet_poly::Jet;
use poly_text::Name;
use ring_law::{Frac, NoMemory};
use sqlite_items::Items;
use std::alloc::Global;

/// The order, the algebra and the corank.
#[derive(Clone, Copy, Debug)]
pub(crate) struct Frame {
    pub order: u8,
    pub algebra: Algebra,
    pub corank: u8,
}

/// Names, and what is put for them.
#[derive(Drop)]
pub(crate) struct Parts {
    pub names: Items<Name>,
    pub parts: Items<Jet<Ext<Frac>>>,
}

impl Parts {
    /// No part.
    pub(crate) fn new(alloc: Global) -> Parts
        ensures { result ≡ record { names = []; parts = [] } }
    {
        Parts {
            names: Items::new(alloc),
            parts: Items::new(alloc),
        }
    }

    /// Adds a part behind the others.
    pub(crate) fn push(&mut self, part: (Name, Jet<Ext<Frac>>)) -> Result<(), NoMemory>
        ensures { OnOk result (self.new ≡ pushed self.old part) }
    {
        let (name, jet) = part;
        match self.names.push(name) {
            Err(_) => return Err(NoMemory),
            Ok(()) => {}
        }
        match self.parts.push(jet) {
            Err(_) => Err(NoMemory),
            Ok(()) => Ok(()),
        }
    }
}
