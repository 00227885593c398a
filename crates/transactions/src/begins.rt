// Begin: a free worker opens a transaction.
ghost use Rattle.transactions.specs.declared.Globals.{Globals};
ghost use Rattle.transactions.specs.Views.{core_of};
ghost use Rattle.transactions.specs.Begins.{Begins};

use crate::admits;
use spec::Refusal;
use workers;
use workers::Workers;

// Worker w opens a transaction. No array is touched but the workers.
pub fn begin(workers: &mut Workers, w: u32) -> Result<(), Refusal>
    ensures { (c : Globals) → Begins (core_of workers.old c) w (core_of workers.new c) result }
{
    let x = admits::vacant(workers, w)?;
    let open = x.begin();
    workers::put_worker(workers, w as usize, open);
    Ok(())
}
