// What Load makes of a plan's bytes, beside its counts and capacities: the tables that all calls look things up in.
ghost use Rattle.std.specs.Prelude.{◌≡◌, replicate};
ghost use Rattle.plan.specs.Plan.{no_side};

// What a route has where the plan gives no side.
pub const NO_SIDE: u8 = 7;

// By router and destination the side; by port what it is joined to, as a byte; by destination its port; by active and
// passive how many routers a served pair's walk has, else 0; by router and side the set of destinations.
#[derive(Drop)]
pub struct PlanTables {
    pub routes: [[u8; 32]; 16],
    pub joints: [u8; 64],
    pub homes: [u8; 32],
    pub lengths: [[u8; 16]; 16],
    pub by: [[u32; 4]; 16],
}

// The tables before any plan is read, made where they are bound; what a function gives is made beside and copied, which
// costs each call a tenth on small plans.
#[macro_export]
macro_rules! blank_tables {
    () => {
        $crate::tables::PlanTables {
            routes: [[$crate::tables::NO_SIDE; 32]; 16],
            joints: [0u8; 64],
            homes: [0u8; 32],
            lengths: [[0u8; 16]; 16],
            by: [[0u32; 4]; 16],
        }
    };
}

impl PlanTables {
    // The tables before any plan is read.
    pub fn blank() -> PlanTables
        ensures routes { result.routes ≡ replicate 16 (replicate 32 no_side) }
        ensures joints { result.joints ≡ replicate 64 0 }
        ensures homes { result.homes ≡ replicate 32 0 }
        ensures lengths { result.lengths ≡ replicate 16 (replicate 16 0) }
        ensures by { result.by ≡ replicate 16 (replicate 4 0) }
    {
        blank_tables!()
    }
}
