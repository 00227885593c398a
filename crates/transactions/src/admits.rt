// The causes that most steps share, tested first: no worker, a free worker, a wrong stage.
ghost use Rattle.spec.specs.Steps.{is_open, is_locked, is_checked};
ghost use Rattle.workers.specs.Workers.{workers_of};
ghost use Rattle.transactions.specs.Admits.{is_at, any_stage, Admitted, Begun};

use spec::{Refusal, Stage, WORKERS};
use workers;
use workers::{Worker, Workers};

// A worker in any stage but the free one, for abort.
pub fn busy(workers: &Workers, w: u32) -> Result<Worker, Refusal>
    ensures { Admitted any_stage (workers_of workers.now) w result }
{
    let i = w as usize;
    if i >= WORKERS {
        return Err(Refusal::NoWorker);
    }
    let x = workers::worker_at(workers, i);
    if x.stage == Stage::Free {
        return Err(Refusal::WorkerFree);
    }
    Ok(x)
}

// A worker in this stage, which is not the free one.
fn at_stage(workers: &Workers, w: u32, right: Stage) -> Result<Worker, Refusal>
    ensures { Admitted (is_at right) (workers_of workers.now) w result }
{
    let x = busy(workers, w)?;
    if x.stage != right {
        return Err(Refusal::WrongStage);
    }
    Ok(x)
}

// A worker in the open stage.
pub fn open(workers: &Workers, w: u32) -> Result<Worker, Refusal>
    ensures { Admitted is_open (workers_of workers.now) w result }
{
    at_stage(workers, w, Stage::Open)
}

// A worker in the locked stage.
pub fn locked(workers: &Workers, w: u32) -> Result<Worker, Refusal>
    ensures { Admitted is_locked (workers_of workers.now) w result }
{
    at_stage(workers, w, Stage::Locked)
}

// A worker in the checked stage.
pub fn checked(workers: &Workers, w: u32) -> Result<Worker, Refusal>
    ensures { Admitted is_checked (workers_of workers.now) w result }
{
    at_stage(workers, w, Stage::Checked)
}

// A free worker, for begin.
pub fn vacant(workers: &Workers, w: u32) -> Result<Worker, Refusal>
    ensures { Begun (workers_of workers.now) w result }
{
    let i = w as usize;
    if i >= WORKERS {
        return Err(Refusal::NoWorker);
    }
    let x = workers::worker_at(workers, i);
    if x.stage != Stage::Free {
        return Err(Refusal::WorkerTaken);
    }
    Ok(x)
}
