//! The frame that the tasks of a step share, and a box that shares it no more once it is released.

use crate::sample_task::{label, mix};
use lj_book::TaskBox;
use lj_ring::Place;
use lj_step::{Frame, Frames, Sim};
use lj_table::Table;
use lj_tile::{Kind, TableKernel};
use std::alloc::{AllocError, AllocGlobal};
use std::process::Abort;
use std::test::Fail;

/// Two atoms near each other.
const PLACES: [Place; 2] = [
    Place { x: 0, y: 0, z: 0 },
    Place {
        x: 25_165_824,
        y: 0,
        z: 0,
    },
];

/// Makes a simulation of two atoms at rest, with an energy step open, which has one tile.
fn open_sim(rt: &(impl Abort + AllocGlobal)) -> Result<Sim, AllocError> {
    let frames = Frames {
        prev: Frame::new(Vec::from_slice(rt.alloc(), &PLACES)?),
        cur: Frame::new(Vec::from_slice(rt.alloc(), &PLACES)?),
    };
    let mut sim = Sim::new(rt.alloc(), frames, Vec::new(rt.alloc()), mix(rt))?;
    sim.open_step(Kind::Energy);
    Ok(sim)
}

/// Makes an empty box. Any one growth may be refused (`rt try --test --fail-alloc`): it is asked for once more.
fn empty_box(rt: &impl AllocGlobal) -> Result<TaskBox, AllocError> {
    TaskBox::new(rt.alloc()).or_else(|_| TaskBox::new(rt.alloc()))
}

/// A task shares the frame of its step, and so does a box of it until the box is released.
#[test]
fn a_released_box_shares_no_frame(rt: HostRuntime) -> Result<(), Fail> {
    let sim = open_sim(&rt).or_else(|_| open_sim(&rt))?;
    let (label, table) = (label(&rt, 0), Table::new());
    let kernel = TableKernel::new(&table);
    let mut task = sim.task(0, &label).ok_or("a task")?;
    let mut boxed = empty_box(&rt)?;
    boxed.remake(&task.by_ref());
    let (mut boxed, shared) = boxed.compute(&kernel).into_parts();
    assert!(rt; shared.is_some());
    boxed.remake(&task.by_ref());
    let (_, shared) = boxed.released().compute(&kernel).into_parts();
    assert!(rt; shared.is_none());
    assert!(rt; task.release().is_some());
    Ok(())
}
