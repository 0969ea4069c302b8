//! Labels, and where they stand.
ghost use Rattle.std.specs.Prelude.{◌≡◌, OnOk, OnErr};
ghost use Rattle.std.specs.FinMap.{get, insert, empty};

use std::alloc::{AllocError, Global};
use std::collections::BTreeMap;
use std::marker::Model;

/// Where a label stands: how many words of text or bytes of data come before it.
#[derive(Clone, Copy)]
pub struct Spot {
    pub in_data: bool,
    pub offset: u32,
}

/// The labels met so far. A contract sees the finite map from their names.
pub struct Labels<'a> {
    spots: BTreeMap<&'a [u8], Spot>,
}

impl<'a> Drop for Labels<'a> {
    fn drop(self) {
        let Labels { spots: _spots } = self;
    }
}

impl<'a> Model for Labels<'a> {
    ghost use Rattle.std.specs.Prelude.{List, ℕ, map};
    ghost use Rattle.std.specs.Cmp.Lexicographic.{slice_cmp};
    ghost use Rattle.std.specs.Ordering.{nat_cmp};
    ghost use Rattle.std.specs.FinMap.{FinMap, from_entries};
    ghost use Rattle.assembler.specs.declared.labels.Spot.{Spot};
    ghost use Rattle.assembler.specs.Labels.{labels_code, spots_by_name};

    ghost Value = { FinMap (slice_cmp nat_cmp) Spot };

    ghost coded = { labels_code };

    ghost view = { λ l. from_entries (spots_by_name l.spots.entries) };
}

impl<'a> Labels<'a> {
    /// No labels. Takes no memory.
    pub fn new(alloc: Global) -> Labels<'a>
        ensures { result ≡ empty }
    {
        Labels {
            spots: BTreeMap::new(alloc),
        }
    }

    /// Where the label of a name stands.
    pub fn get(&self, name: &'a [u8]) -> Option<Spot>
        ensures { result ≡ get self.now name.now }
    {
        self.spots.get(&name).copied()
    }

    /// Adds a label. One of the same name is replaced.
    pub fn insert(&mut self, name: &'a [u8], spot: Spot) -> Result<(), AllocError>
        ensures ok { OnOk result (self.new ≡ insert self.old name.now spot) }
        ensures err { OnErr result (self.new ≡ self.old) }
    {
        self.spots.insert(name, spot)?;
        Ok(())
    }
}
