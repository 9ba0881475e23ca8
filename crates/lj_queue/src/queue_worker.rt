//! The loop of a worker of a pool with a queue, and the sum of what all workers did.
ghost use Rattle.std.specs.Prelude.{◌≡◌, ◌≤◌, ◌-◌, sum, vec_len, IfNone, IfSome};
ghost use Rattle.lj_queue.specs.PoolPass.{PopsFor, with_push};

use crate::open_task::OpenTask;
use crate::pass::{CountedPass, PoolIdentity, PoolPass};
use crate::queue_pool::QueuePool;
use lj_end::{Gate, Share, merged};
use lj_table::Table;
use lj_tile::TableKernel;
use std::sync::Wait;

/// Computes tasks of the pool until it is closed; each task passes the gate after it is taken and before it is computed. Returns
/// the share, credited with each result that was kept, and the pass, which popped the tasks of these results and each task that
/// it pushed again because the gate sent it back.
///
/// Promise: a pass pops each task at least as often as it pushes the task back. In total, pops exceed pushes by at least the
/// number of credited results.
pub fn work_queue<L: PoolIdentity, G: Gate, R: Wait>(
    rt: &R,
    pool: &QueuePool<L>,
    share: Share<L>,
    pass: PoolPass<L>,
    gate: &G,
    table: &Table,
) -> (Share<L>, PoolPass<L>)
    ensures number { result.1.number ≡ pass.number }
    ensures never_falls { share ≤ result.0 }
    ensures of_its_own { PopsFor (result.0 - share) (G.sends_back gate.now) pass result.1 }
{
    let kernel = TableKernel::new(table);
    let mut share = share;
    let (mut counted, boxes) = pass.into_parts();
    for _ in rt.forever() {
        let Some(ticket) = pool.take(rt, &mut counted) else {
            break;
        };
        if let Some(ticket) = kept(rt, pool, &mut counted, gate, ticket) {
            gate.between(ticket.task.task().name());
            let OpenTask { end, user, task } = ticket;
            pool.give_or_put_by(rt, end, user, task.compute(&kernel), &mut share);
        }
    }
    (share, PoolPass::new(counted, boxes))
}

/// Returns the task, or None if the gate sent it back and there was room for it in the queue, where it is open again.
fn kept<L: PoolIdentity, G: Gate, R: Wait>(
    rt: &R,
    pool: &QueuePool<L>,
    pass: &mut CountedPass<L>,
    gate: &G,
    ticket: OpenTask,
) -> Option<OpenTask>
    ensures same { IfSome result (λ kept. kept ≡ ticket) }
    ensures unchanged { IfSome result (λ _. pass.new ≡ pass.old) }
    ensures pushed { IfNone result (pass.new ≡ with_push pass.old ticket) }
    ensures sent_back { IfNone result (G.sends_back gate.now ticket.task.name) }
{
    if gate.back(ticket.task.task().name()) {
        pool.hand_back(rt, pass, ticket).err()
    } else {
        Some(ticket)
    }
}

/// Returns the number of results kept from all workers together, which is the number given to the pool.
pub fn gather<L: PoolIdentity, R: Wait>(rt: &R, pool: &QueuePool<L>, shares: Vec<Share<L>>) -> u64
    requires { vec_len shares ≡ L.parts }
    ensures { result ≡ sum shares.items }
{
    match merged(shares) {
        Some(mut all) => pool.audited(rt, &mut all),
        None => 0,
    }
}
