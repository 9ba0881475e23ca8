//! The blocks of a frame, and the pairs of blocks that have a tile.
ghost use Rattle.std.specs.Prelude.{◌≡◌, ◌≤◌, ◌<◌, ◌*◌, length, map};
ghost use Rattle.std.specs.List.{range_with_len};
ghost use Rattle.lj_step.specs.declared.frames.TheConstants.{MAX_ATOMS};
ghost use Rattle.lj_step.specs.OpenSteps as steps;
ghost use Rattle.lj_step.specs.KeptSims.{block_arcs};

use crate::atoms::Atoms;
use crate::tile_id::TileId;
use lj_ring::{Arcs, Place};
use lj_task::{BLOCK, MAX_BLOCKS};

/// Returns how many blocks `count` atoms have.
pub(crate) fn blocks(count: usize) -> usize
    requires { count ≤ MAX_ATOMS }
    ensures value { result ≡ steps.blocks count }
    ensures most { result ≤ MAX_BLOCKS }
{
    count.div_ceil(BLOCK)
}

/// Returns the places of a block of a frame.
pub(crate) fn block(frame: &[Place], index: usize) -> &[Place]
    requires within { index < steps.blocks (length frame.now) }
    requires most { length frame.now ≤ MAX_ATOMS }
    ensures { result.now ≡ steps.block frame.now index }
{
    let start = BLOCK * index;
    let end = (start + BLOCK).min(frame.len());
    &frame[start..end]
}

/// Returns whether a step over a frame has this tile, by the arcs of its blocks.
pub(crate) fn is_tile(tile: TileId, arcs: &[Arcs], atoms: &Atoms, frame: &[Place]) -> bool
    requires within { tile < BLOCK * steps.blocks (length frame.now) }
    requires most { length frame.now ≤ MAX_ATOMS }
    requires arcs { arcs.now
        ≡ map (block_arcs frame.now) (range_with_len 0 (steps.blocks (length frame.now))) }
    ensures { result ≡ steps.is_tile atoms.now frame.now tile }
{
    let (first, second) = (tile.first(), tile.second());
    second < blocks(frame.len())
        && first <= second
        && !is_out_of_reach(first, second, arcs, atoms, frame)
}

/// Returns whether no pair of atoms of two blocks can interact, by the arcs of the blocks.
fn is_out_of_reach(
    first: usize,
    second: usize,
    arcs: &[Arcs],
    atoms: &Atoms,
    frame: &[Place],
) -> bool
    requires first { first < steps.blocks (length frame.now) }
    requires second { second < steps.blocks (length frame.now) }
    requires most { length frame.now ≤ MAX_ATOMS }
    requires arcs { arcs.now
        ≡ map (block_arcs frame.now) (range_with_len 0 (steps.blocks (length frame.now))) }
    ensures { result ≡ steps.is_out_of_reach atoms.now frame.now (steps.tile_number first second) }
{
    if first == second {
        block(frame, first).len() == 1
    } else {
        atoms.mix().reach() <= arcs[first].squared_gap(&arcs[second])
    }
}
