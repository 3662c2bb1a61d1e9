// The calls that turn the phase, on the bytes of a state: another phase is refused, else the phase's step is made.
ghost use Rattle.plan.specs.Lent.{plan_by};
ghost use Rattle.rules.specs.Calls.{read, execute, write};
ghost use Rattle.rules.specs.Ruled.{Good};
ghost use Rattle.bytes_steps.specs.Acts.{Holds, Acts};
ghost use Rattle.next_queue.specs.Wiring.{WiringOf};

use bytes_steps::PHASE_BYTE;
use kinds::Refusal;
use packets::{Answer, Phase};
use plan::Head;
use plan::tables::PlanTables;

// Read.
pub fn read(h: Head, t: &PlanTables, s: &mut [u8]) -> Answer
    requires { WiringOf h t.now × Holds (plan_by h t.now) (Good (plan_by h t.now)) s.old }
    ensures { Acts (plan_by h t.now) read s.old result s.new }
{
    if s[PHASE_BYTE] != u8::from(Phase::Read) {
        return Answer::Refused(Refusal::WrongPhase);
    }
    phase_read::read(h, t, s);
    Answer::Done
}

// Execute.
pub fn execute(h: Head, t: &PlanTables, s: &mut [u8]) -> Answer
    requires { WiringOf h t.now × Holds (plan_by h t.now) (Good (plan_by h t.now)) s.old }
    ensures { Acts (plan_by h t.now) execute s.old result s.new }
{
    if s[PHASE_BYTE] != u8::from(Phase::Execute) {
        return Answer::Refused(Refusal::WrongPhase);
    }
    phase_execute::execute(h, t, s);
    Answer::Done
}

// Write.
pub fn write(h: Head, t: &PlanTables, s: &mut [u8]) -> Answer
    requires { WiringOf h t.now × Holds (plan_by h t.now) (Good (plan_by h t.now)) s.old }
    ensures { Acts (plan_by h t.now) write s.old result s.new }
{
    if s[PHASE_BYTE] != u8::from(Phase::Write) {
        return Answer::Refused(Refusal::WrongPhase);
    }
    phase_write::write(h, t, s);
    Answer::Done
}
