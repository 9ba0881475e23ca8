//! The sums of a task, of pushes and of energies.
ghost use Rattle.std.specs.Prelude.{◌≡◌, ◌<◌, ℕ, length, slice_index_or};
ghost use Rattle.std.specs.Int.{bit_at};
ghost use Rattle.lj_ring.specs.Ring.{IsOnRing};
ghost use Rattle.lj_task.specs.Pushes.{no_push, sum_of_pushes};
ghost use Rattle.lj_task.specs.Tiles.{place_at};
ghost use Rattle.lj_task.specs.Task.{task_force, task_second, task_energy};
ghost use Rattle.lj_tile.specs.Rows.{sum_on_first, sum_on_second};
ghost use Rattle.lj_tile.specs.RowSets.{AreRowsBySpecies, IsSilentRow};
ghost use Rattle.lj_tile.specs.Pairs.{AreColumnsOf, AreOnRing, IsPushOnRing};

use crate::energies::energy_of_all;
use crate::near::Columns;
use crate::near_pairs::NearPairs;
use crate::pair_sums::{BlockPair, add_all};
use crate::species_rows::{SpeciesRows, lowest_bits};
use lj_ring::{Place, Species};
use lj_table::Table;
use lj_task::{BLOCK, ForceSums, Push, TaskRef};

/// Sums the pushes on the places of both blocks, in place of older sums. If the two are one block, the first sums have
/// it all.
pub(crate) fn sum_forces(task: &TaskRef<'_>, table: &Table, sums: &mut ForceSums)
    ensures first { (t : ℕ) → t < length task.now.a.places
        → slice_index_or sums.new.first t no_push ≡ task_force task.now t }
    ensures second { task.now.name.bi < task.now.name.bj → (s : ℕ) → s < length task.now.b.places →
        slice_index_or sums.new.second s no_push ≡ task_second task.now s }
{
    sum_pairs(task, table, sums);
    if task.has_one_block() {
        join(sums);
    }
}

/// Makes the first sums those of a block with itself: it adds the pushes of the earlier atoms, summed as of a second
/// block, to those of the later ones.
fn join(sums: &mut ForceSums)
    ensures first { (t : ℕ) → t < BLOCK → slice_index_or sums.new.first t no_push
        ≡ sum_of_pushes (slice_index_or sums.old.first t no_push) (slice_index_or sums.old.second t no_push) }
    ensures second { sums.new.second ≡ sums.old.second }
{
    let _room = sums.room();
    for t in 0..BLOCK {
        sums.first[t] = sums.first[t].plus(sums.second[t]);
    }
}

/// Sums over the pairs of atoms i < j, i in the first block and j in the second: it computes each pair once. It gathers
/// the pairs of each class in a list until there are many of them.
fn sum_pairs<'a>(task: &'a TaskRef<'a>, table: &'a Table, sums: &mut ForceSums)
    ensures first { (t : ℕ) → t < length task.now.a.places →
        slice_index_or sums.new.first t no_push ≡ sum_on_first task.now t (length task.now.b.places) }
    ensures second { (s : ℕ) → s < length task.now.b.places →
        slice_index_or sums.new.second s no_push ≡ sum_on_second task.now s (length task.now.a.places) }
{
    read_places(task);
    let blocks = BlockPair::new(task, table);
    let columns = Columns::new(blocks.second, task.mix());
    *sums = ForceSums::none();
    let (firsts, seconds) = rows_by_species(task, &columns);
    let mut like = NearPairs::new();
    let mut unlike = NearPairs::new();
    let mut others = NearPairs::new();
    let rows = SpeciesRows::new(task, &columns, table, Species::First);
    rows.add_rows(firsts, &mut like, &mut unlike, sums);
    let rows = SpeciesRows::new(task, &columns, table, Species::Second);
    rows.add_rows(seconds, &mut unlike, &mut others, sums);
    let mix = task.mix();
    let class = mix.class(Species::First, Species::First);
    add_all(&like, &blocks, &class.scale, sums);
    let class = mix.class(Species::First, Species::Second);
    add_all(&unlike, &blocks, &class.scale, sums);
    let class = mix.class(Species::Second, Species::Second);
    add_all(&others, &blocks, &class.scale, sums);
    read_sums(&sums.first);
    read_sums(&sums.second);
}

/// Reads each place of both blocks.
fn read_places(task: &TaskRef<'_>)
    ensures first { AreOnRing task.now.a.places }
    ensures second { AreOnRing task.now.b.places }
{
    read_each(task.first().places());
    read_each(task.second().places());
}

/// Reads each place, and does nothing with it: a coordinate that is read is known to be below 2^32.
fn read_each(places: &[Place])
    ensures { (k : ℕ) → k < length places.now → IsOnRing (place_at places.now k) }
{
    for place in places {
        read(*place);
    }
}

#[inline(always)]
fn read(_place: Place)
    ensures { IsOnRing _place }
{}

/// Reads each sum, and does nothing with it: a part that is read is known to be below 2^32.
fn read_sums(sums: &[Push; BLOCK])
    ensures { (k : ℕ) → k < BLOCK → IsPushOnRing (slice_index_or sums.now k no_push) }
{
    for sum in sums {
        read_sum(*sum);
    }
}

#[inline(always)]
fn read_sum(_sum: Push)
    ensures { IsPushOnRing _sum }
{}

/// Returns the places of the first block, bit by bit, that may interact with one of the second. For a block with itself
/// it makes no test.
#[inline]
fn near_rows(task: &TaskRef<'_>, columns: &Columns) -> u64
    requires columns { AreColumnsOf task.now columns.now }
    ensures within { (t : ℕ) → bit_at result t ≡ 1 → t < length task.now.a.places }
    ensures far { (t : ℕ) → t < length task.now.a.places → bit_at result t ≡ 0
        → IsSilentRow task.now t }
{
    let places = task.first().places();
    let all = lowest_bits(places.len());
    if task.has_one_block() {
        return all;
    }
    all & columns.rows_near(places)
}

/// Returns the places of the first block, bit by bit, that may interact with one of the second: those of atoms of the
/// first species, and those of the second.
#[inline]
fn rows_by_species(task: &TaskRef<'_>, columns: &Columns) -> (u64, u64)
    requires columns { AreColumnsOf task.now columns.now }
    ensures { AreRowsBySpecies task.now result.0 result.1 }
{
    let rows = near_rows(task, columns);
    let species_bits = task.first().species_bits();
    (rows & !species_bits, rows & species_bits)
}

/// Returns the sum of the energies of the task's pairs. It gathers the pairs of each class in a list until there are
/// many of them.
pub(crate) fn energy_sum<'a>(task: &'a TaskRef<'a>, table: &'a Table) -> i64
    ensures { result ≡ task_energy task.now }
{
    read_places(task);
    let blocks = BlockPair::new(task, table);
    let columns = Columns::new(blocks.second, task.mix());
    let (firsts, seconds) = rows_by_species(task, &columns);
    let mut like = NearPairs::new();
    let mut unlike = NearPairs::new();
    let mut others = NearPairs::new();
    let rows = SpeciesRows::new(task, &columns, table, Species::First);
    let mut sum = rows.energy_of_rows(firsts, &mut like, &mut unlike);
    let rows = SpeciesRows::new(task, &columns, table, Species::Second);
    sum += rows.energy_of_rows(seconds, &mut unlike, &mut others);
    let mix = task.mix();
    let like_class = mix.class(Species::First, Species::First);
    sum += energy_of_all(&like, &blocks, like_class);
    let unlike_class = mix.class(Species::First, Species::Second);
    sum += energy_of_all(&unlike, &blocks, unlike_class);
    let others_class = mix.class(Species::Second, Species::Second);
    sum + energy_of_all(&others, &blocks, others_class)
}
