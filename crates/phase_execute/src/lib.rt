// EXECUTE in place on a state's bytes: each unit handles its head, each output picks a sender, each active tears down
// what was declined.
#![tactic(auto)]

ghost use Rattle.packets.specs.declared.Phase.TheVariants.{Execute};
ghost use Rattle.plan.specs.Lent.{plan_by};
ghost use Rattle.rules.specs.Execute.{do_execute};
ghost use Rattle.bytes_steps.specs.Acts.{Holds, Steps, In};
ghost use Rattle.next_queue.specs.Wiring.{WiringOf};

use bytes_steps::PHASE_BYTE;
use packets::Phase;
use plan::Head;
use plan::tables::PlanTables;

// Each unit handles its head.
pub mod heads;
// Each active tears down what was declined.
pub mod undo;

// The phase EXECUTE, and then it is WRITE.
pub fn execute(h: Head, t: &PlanTables, s: &mut [u8])
    requires { WiringOf h t.now
        × Holds (plan_by h t.now) (In (plan_by h t.now) Execute)
        s.old }
    ensures { Steps (plan_by h t.now)
        (In (plan_by h t.now) Execute)
        (do_execute (plan_by h t.now)) s.old s.new }
{
    heads::heads(h, t, s);
    phase_pick::picks(h, t, s);
    undo::undoes(h, t, s);
    s[PHASE_BYTE] = u8::from(Phase::Write);
}
