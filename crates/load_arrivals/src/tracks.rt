// Which routers the walks meet, and how many they are.
ghost use Rattle.std.specs.Prelude.{◌≡◌, false, List, [], ℕ, ◌+◌, ◌≤◌, ◌<◌, get_or, length, replicate};
ghost use Rattle.sets.specs.Sets.{has};
ghost use Rattle.graph_met.specs.Trails.{Blank};
ghost use Rattle.plan.specs.Head.{Counts};
ghost use Rattle.plan.specs.Tables.{table_plan};
ghost use Rattle.load_arrivals.specs.Tables.{PortsIn};
ghost use Rattle.load_arrivals.specs.Pairs.{Tables};
ghost use Rattle.load_arrivals.specs.Tracks.{Tracks};

use crate::{firsts, nexts};
use plan::Head;
use sets::below;

// By router and destination: the set of the routers that the walk meets, and 65536 times their number, where it
// arrives. The table has a row for each router.
pub fn tracks_in(
    h: Head,
    joints: &[u8; 64],
    homes: &[u8; 32],
    by: &[[u32; 4]; 16],
    up: &mut [[u32; 32]],
)
    requires { Counts h × PortsIn homes.now (h.actives + h.passives)
        × ((r o d : ℕ) → h.routers ≤ r → o < 4 → has (get_or (get_or by.now r []) o 0) d ≡ false)
        × (h.routers ≤ length up.old) × Blank up.old }
    ensures { (routes : List (List ℕ))
        → Tables h routes joints.now homes.now by.now
        → Tracks (table_plan h routes joints.now) up.new }
{
    let n = h.actives + h.passives;
    let next = nexts(joints, h.routers);
    let mut t = [0u32; 32];
    firsts(by, homes, n, &mut t);
    graph_met::trails(by, &next, h.routers, below(n), &mut t, up);
}

// The same in a table for any plan.
pub fn tracks(
    h: Head,
    joints: &[u8; 64],
    homes: &[u8; 32],
    by: &[[u32; 4]; 16],
    up: &mut [[u32; 32]; 17],
)
    requires { Counts h × PortsIn homes.now (h.actives + h.passives)
        × ((r o d : ℕ) → h.routers ≤ r → o < 4 → has (get_or (get_or by.now r []) o 0) d ≡ false)
        × (up.old ≡ replicate 17 (replicate 32 0)) }
    ensures { (routes : List (List ℕ))
        → Tables h routes joints.now homes.now by.now
        → Tracks (table_plan h routes joints.now) up.new }
{
    tracks_in(h, joints, homes, by, up);
}
