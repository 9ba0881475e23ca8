//! A task for tests in which its blocks do not matter.

use lj_base::{Label, Name};
use lj_fixed::Nano;
use lj_ring::{Mix, Place, Scale};
use lj_tile::{Block, Kind, Task, TaskName};
use std::process::Abort;

/// Makes the label of a session of a user.
pub fn label(rt: &impl Abort, user: u8) -> Label {
    Label {
        user,
        session: Name::parse(b"a").expect(rt, "a name"),
    }
}

/// Makes a mixture of one species, in a box of 256 sigma.
pub fn mix(rt: &impl Abort) -> Mix {
    let edge = Nano::new(256_000_000_000).expect(rt, "an edge");
    let sigma = Nano::new(1_000_000_000).expect(rt, "a sigma");
    Mix::one(Scale::new(edge, sigma, 131_072).ok().expect(rt, "a scale"))
}

/// Makes a task of a user: a block of one atom, at this step.
pub fn task(rt: &impl Abort, user: u8, step: i64) -> Task {
    let name = TaskName {
        label: label(rt, user),
        step,
        kind: Kind::Force,
        bi: 0,
        bj: 0,
    };
    let block = Block::new(&[Place { x: 0, y: 0, z: 0 }], 0);
    Task::new(name, mix(rt), block.copy(), block)
}
