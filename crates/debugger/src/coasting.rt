//! Ways of a machine alone, without calls, up to a breakpoint.
ghost use Rattle.std.specs.Prelude.{◌≡◌, List, ◌+◌, ◌≤◌, ◌^◌};
ghost use Rattle.machine_model.specs.declared.reply.Reply.{Reply};
ghost use Rattle.debugger.specs.Coasts.{Coasted};
ghost use Rattle.debugger.specs.Ways.{traced_at};

use crate::place::Place;
use std::alloc::Global;

impl Place {
    /// Goes on by at most `max` instructions, at the machine's own speed. It ends before a call, a trap, and an instruction at one of
    /// these addresses, also where it begins there. Where memory for the machine's decoded words runs out it goes more slowly.
    pub fn coast(&mut self, alloc: Global, stops: &[u32], max: u32)
        requires { self.old.machine.count + max ≤ 2 ^ 40 }
        ensures taken { self.new.taken ≡ self.old.taken }
        ensures coasted { (replies : List Reply) → Coasted stops.now max (traced_at replies self.old) (traced_at replies self.new) }
    {
        if stops.is_empty() {
            let _ = self.machine.run(max);
            return;
        }
        let _ = self.machine.prepare_stops(alloc);
        let _ = self.machine.run_to(stops, max);
    }
}
