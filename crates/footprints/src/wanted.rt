//! Carriers that are wanted.
ghost use Rattle.std.specs.Prelude.{◌≡◌, ◌||◌, ◌∷◌, [], OnOk};
ghost use Rattle.kernel_model.specs.declared.carrier.Carrier.{Carrier as Carried};
ghost use Rattle.kernel_model.specs.Entries.{is_among, meets};

use kernel_model::Carrier;
use std::alloc::{AllocError, Global};
use std::collections::HashSet;
use std::marker::Model;

/// Carriers that are wanted: the content of each matters to a later event.
pub struct Wanted {
    carriers: HashSet<Carrier>,
}

impl Drop for Wanted {
    fn drop(self) {
        let Wanted {
            carriers: _carriers,
        } = self;
    }
}

impl Model for Wanted {
    ghost use Rattle.std.specs.Prelude.{List};
    ghost use Rattle.kernel_model.specs.declared.carrier.Carrier.{Carrier};

    ghost Value = { List Carrier };

    ghost view = { λ w. w.carriers.keys };
}

impl Wanted {
    /// No carrier is wanted. Takes no memory.
    pub fn new(alloc: Global) -> Wanted
        ensures { result ≡ [] }
    {
        Wanted {
            carriers: HashSet::new(alloc),
        }
    }

    /// Whether a carrier is wanted.
    pub fn has(&self, carrier: Carrier) -> bool
        ensures { result ≡ is_among carrier self.now }
    {
        self.carriers.contains(&carrier)
    }

    /// Whether one of these is wanted.
    pub fn has_any(&self, carriers: &[Carrier]) -> bool
        ensures { result ≡ meets carriers.now self.now }
    {
        carriers.iter().any(|carrier| self.has(*carrier))
    }

    /// One carrier more is wanted.
    pub fn add(&mut self, carrier: Carrier) -> Result<(), AllocError>
        ensures { OnOk result ((x : Carried) → is_among x self.new ≡ (is_among x self.old || is_among x (carrier ∷ []))) }
    {
        match self.carriers.insert(carrier) {
            Ok(_) => Ok(()),
            Err(_) => Err(AllocError),
        }
    }

    /// These are wanted too.
    pub fn add_all(&mut self, carriers: &[Carrier]) -> Result<(), AllocError>
        ensures { OnOk result ((x : Carried) → is_among x self.new ≡ (is_among x self.old || is_among x carriers.now)) }
    {
        for carrier in carriers {
            self.add(*carrier)?;
        }
        Ok(())
    }
}
