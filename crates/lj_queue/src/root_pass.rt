//! The pass that the passes of a pool are cut from.
ghost use Rattle.std.specs.Prelude.{◌≡◌, ◌+◌, ◌-◌, ◌^◌, [], vec_len, IfOk};
ghost use Rattle.lj_queue.specs.PoolPass.{AreUntouched, IsOf, IsRootPass, IsCounted};

use crate::pass::{CountedPass, PassBoxes, PoolIdentity, PoolPass};
use crate::rule::{Cut, OpenTasks, TaskPass};
use std::alloc::{AllocError, Global};
use std::marker::PhantomData;

/// The root pass: it keeps the parts that no pass of the pool has.
#[derive(Drop)]
pub(crate) struct RootPass<L: PoolIdentity> {
    pass: TaskPass,
    of: PhantomData<L>,
    ghost is_root: { IsRootPass L.table L.passes pass },
}

impl<L: PoolIdentity> RootPass<L> {
    /// Returns the pass of the queue.
    pub(crate) fn into_pass(self) -> TaskPass
        ensures { IsRootPass L.table L.passes result }
    {
        self.pass
    }
}

/// Cuts the passes of a pool, each with its number, off the first one, and returns them with what is left of it.
pub(crate) fn passes_of<L: PoolIdentity>(
    alloc: Global,
    queue: &OpenTasks,
    first: TaskPass,
    count: usize,
) -> Result<(Vec<PoolPass<L>>, RootPass<L>), AllocError>
    requires table { queue.now.table.shared.table_id ≡ L.table }
    requires first { IsRootPass L.table 0 first }
    requires count { count ≡ L.passes }
    ensures count { IfOk result (λ made. vec_len made.0 ≡ L.passes) }
    ensures numbered { IfOk result (λ made. AreUntouched L.passes made.0.items) }
{
    let mut first = first;
    let mut passes = Vec::with_capacity(alloc, count)?;
    for number in 0..count {
        let counted = CountedPass::new(queue.another::<Cut>(&mut first), number);
        passes.push(PoolPass::new(counted, PassBoxes::new(alloc)?))?;
    }
    Ok((
        passes,
        RootPass {
            pass: first,
            of: PhantomData,
        },
    ))
}
