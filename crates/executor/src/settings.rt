//! `Settings`: how a run is done, as by how many workers.
ghost use Rattle.std.specs.Prelude.{◌<◌, ◌≤◌, IfSome};
ghost use Rattle.std.proofs.Props.{props};
ghost use Rattle.kernel_model.specs.World.{terminal_count};

/// How a run is done.
#[derive(Clone, Copy)]
pub struct Settings {
    /// How many worker threads there are, 1 to 16.
    pub workers: u32,
    /// The most instructions of a loan, from 1 on.
    pub quantum: u32,
    /// The terminal whose bytes are written out, 0 to 7. None: those of all terminals, each part after a line that names its
    /// terminal.
    pub terminal: Option<u32>,
    /// Which completion of the run fails, the first being 1. None, or 0: no completion fails.
    pub fail: Option<u32>,
    ghost some: { 1 ≤ workers },
    ghost few: { workers ≤ 16 },
    ghost moves: { 1 ≤ quantum },
    ghost there: { IfSome terminal (λ t. t < terminal_count) } by { Prim.hlevel props },
}
