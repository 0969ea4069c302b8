//! A law that joins what is kept of events to their log.
ghost use Rattle.std.specs.Prelude.{◌≡◌, ℕ, List, [], ◌∷◌, ◌++◌};
ghost use Rattle.kernel_model.specs.Entries.{Entry};
ghost use Rattle.kernel_model.specs.declared.carrier.Carrier.{Carrier};
ghost use Rattle.kernel_model.specs.declared.carrier.Carrier.TheVariants.{Proc};
ghost use Rattle.kernel_model.specs.declared.event.Event.{Event};
ghost use Rattle.kernel_model.specs.declared.event.Event.TheVariants.{Turn, Enter};
ghost use Rattle.footprints.specs.Footprints.{AreFootprints, IsOfDisk};
ghost use Rattle.footprints.specs.Kept.{footprint};

/// A law: what is kept are the footprints of a log that grows. An Enter keeps one more; a Turn and an event of the disk keep none.
pub fn footprints_grow()
    ensures none { AreFootprints [] [] [] }
    ensures turn { (events : List Event) (log kept : List Entry) (pid n : ℕ) (x : Entry) → AreFootprints events log kept
        → x.reads ≡ Proc pid ∷ [] → x.writes ≡ Proc pid ∷ [] → AreFootprints (events ++ Turn pid n ∷ []) (log ++ x ∷ []) kept }
    ensures enter { (events : List Event) (log kept : List Entry) (pid : ℕ) (reads : List Carrier) (x : Entry) → AreFootprints events log kept
        → x.reads ≡ Proc pid ∷ reads → AreFootprints (events ++ Enter pid ∷ []) (log ++ x ∷ []) (kept ++ footprint reads x.writes ∷ []) }
    ensures disk { (events : List Event) (log kept : List Entry) (e : Event) (x : Entry) → AreFootprints events log kept
        → IsOfDisk e → x.reads ≡ [] → x.writes ≡ [] → AreFootprints (events ++ e ∷ []) (log ++ x ∷ []) kept }
{}
