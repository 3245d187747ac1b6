// The machine that runs a task, so far as it is a definition: see specs/Machine.antt.
ghost use Rattle.tasks.specs.Laws.{MachineLaws};

use super::task::Task;
use domains::Domain;

// What holds of the machine over any domain, task and limit. It does nothing, and nothing calls it yet: its contract
// states the theorems.
pub(crate) fn machine_laws<D: Domain, T: Task>(d: &D, t: &T, limit: u16)
    ensures { MachineLaws (D.view d.now).meaning (T.begin t.now) (T.words t.now) (T.orders t.now) limit }
{}
