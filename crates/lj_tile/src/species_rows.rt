//! The rows of a task: the pairs of each place of the first block with later atoms of the second, and their sums.
ghost use Rattle.std.specs.Prelude.{◌≡◌, ◌≤◌, ◌<◌, ◌*◌, ◌^◌, ◌&&◌, ◌++◌, ◌+ℤ◌, ℕ, length, unsigned_abs, nat_lt};
ghost use Rattle.std.specs.Int.{bit_at};
ghost use Rattle.lj_ring.specs.Mix.{class_of};
ghost use Rattle.lj_task.specs.Species.{is_in};
ghost use Rattle.lj_task.specs.Task.{are_in_order, IsTask};
ghost use Rattle.lj_tile.specs.Rows.{energy_row};
ghost use Rattle.lj_tile.specs.RowSets.{AreSpeciesRows, IsSpeciesRow, SplitRow};
ghost use Rattle.lj_tile.specs.Pairs.{row_pairs, AreColumnsOf, AreFewPairs};
ghost use Rattle.lj_tile.specs.PairTotals.{AreFewOfBoth, HaveRow, HaveRows, HaveTotals};
ghost use Rattle.lj_tile.specs.Energies.{energy_with_both, list_energy, rows_energy};

use crate::energies::energy_of_most;
use crate::near::Columns;
use crate::near_pairs::{FULL, NearPairs};
use crate::pair_sums::{BlockPair, work_off};
use lj_ring::{Class, Scale, Species};
use lj_table::Table;
use lj_task::{BLOCK, ForceSums, TaskRef};

/// The rows of a task whose atoms are of one species, with what is needed to sum them: the columns of the second block,
/// and the table of pushes and energies.
#[derive(Clone, Copy)]
pub(crate) struct SpeciesRows<'a, 'c> {
    task: &'a TaskRef<'a>,
    columns: &'c Columns,
    table: &'a Table,
    own: Species,
    ghost sound: { IsTask task.now },
    ghost of_columns: { AreColumnsOf task.now columns.now },
}

impl<'a, 'c> SpeciesRows<'a, 'c> {
    #[inline(always)]
    pub(crate) fn new(
        task: &'a TaskRef<'a>,
        columns: &'c Columns,
        table: &'a Table,
        own: Species,
    ) -> SpeciesRows<'a, 'c>
        requires { AreColumnsOf task.now columns.now }
        ensures task { result.task.now ≡ task.now }
        ensures own { result.own ≡ own }
    {
        let _first = task.first(); // which shows that the task is one
        SpeciesRows {
            task,
            columns,
            table,
            own,
        }
    }

    /// Adds the pushes of the rows of a set, except for the last pairs. These stay in two lists: those with atoms of the
    /// first species and those with atoms of the second.
    pub(crate) fn add_rows(
        &self,
        set: u64,
        of_firsts: &mut NearPairs,
        of_seconds: &mut NearPairs,
        sums: &mut ForceSums,
    )
        requires rows { AreSpeciesRows self.now.task.now self.now.own set }
        requires lists { AreFewOfBoth self.now.task.now of_firsts.old of_seconds.old }
        ensures lists { AreFewOfBoth self.now.task.now of_firsts.new of_seconds.new }
        ensures sums { HaveRows self.now.task.now self.now.own set BLOCK
            (record { of_firsts = of_firsts.old; of_seconds = of_seconds.old; sums = sums.old })
            (record { of_firsts = of_firsts.new; of_seconds = of_seconds.new; sums = sums.new }) }
    {
        let rows = *self; // so that its fields stay in registers while lists and sums are written
        let mut t = 0;
        let mut rest = set;
        while rest != 0 {
            let skipped = rest.trailing_zeros();
            t += skipped as usize;
            rows.add_row(t, of_firsts, of_seconds, sums);
            rest = rest >> skipped >> 1;
            t += 1;
        }
    }

    /// Adds the pushes of row `t`, except for the last pairs.
    #[inline(always)]
    fn add_row(
        &self,
        t: usize,
        of_firsts: &mut NearPairs,
        of_seconds: &mut NearPairs,
        sums: &mut ForceSums,
    )
        requires row { IsSpeciesRow self.now.task.now self.now.own t }
        requires lists { AreFewOfBoth self.now.task.now of_firsts.old of_seconds.old }
        ensures lists { AreFewOfBoth self.now.task.now of_firsts.new of_seconds.new }
        ensures sums { HaveRow self.now.task.now self.now.own t
            (record { of_firsts = of_firsts.old; of_seconds = of_seconds.old; sums = sums.old })
            (record { of_firsts = of_firsts.new; of_seconds = of_seconds.new; sums = sums.new }) }
    {
        let (firsts, seconds) = self.near(t);
        let with_first = self.class_with(Species::First);
        self.add_pairs(t, firsts, &with_first.scale, of_firsts, sums);
        let with_second = self.class_with(Species::Second);
        if seconds != 0 {
            self.add_pairs(t, seconds, &with_second.scale, of_seconds, sums);
        }
    }

    /// Appends the pairs of place `t` of the first block with a set of places of the second to a list. If this becomes
    /// full, it adds the pushes of its pairs to the sums.
    #[inline(always)]
    fn add_pairs(
        &self,
        t: usize,
        set: u64,
        scale: &Scale,
        pairs: &mut NearPairs,
        sums: &mut ForceSums,
    )
        requires row { t < length self.now.task.now.a.places }
        requires set { (s : ℕ) → bit_at set s ≡ 1 → s < length self.now.task.now.b.places }
        requires pairs { AreFewPairs self.now.task.now.a.places self.now.task.now.b.places pairs.old }
        ensures pairs { AreFewPairs self.now.task.now.a.places self.now.task.now.b.places pairs.new }
        ensures totals { HaveTotals scale.now self.now.task.now.a.places self.now.task.now.b.places
            (record { pairs = pairs.old ++ row_pairs t set; sums = sums.old })
            (record { pairs = pairs.new; sums = sums.new }) }
    {
        pairs.append(t, set);
        if pairs.len() >= FULL {
            let blocks = BlockPair::new(self.task, self.table);
            work_off(pairs, &blocks, scale, sums);
        }
    }

    /// Returns the sum of the energies of the rows of a set, except for the last pairs. These stay in two lists: those
    /// with atoms of the first species and those with atoms of the second.
    pub(crate) fn energy_of_rows(
        &self,
        set: u64,
        of_firsts: &mut NearPairs,
        of_seconds: &mut NearPairs,
    ) -> i64
        requires rows { AreSpeciesRows self.now.task.now self.now.own set }
        requires lists { AreFewOfBoth self.now.task.now of_firsts.old of_seconds.old }
        ensures lists { AreFewOfBoth self.now.task.now of_firsts.new of_seconds.new }
        ensures value { result +ℤ energy_with_both self.now.task.now self.now.own of_firsts.new of_seconds.new
            ≡ energy_with_both self.now.task.now self.now.own of_firsts.old of_seconds.old
            +ℤ rows_energy self.now.task.now set BLOCK }
        ensures size { unsigned_abs result ≤ BLOCK * 2 ^ 53 }
    {
        let rows = *self; // so that its fields stay in registers while lists and sums are written
        let mut t = 0;
        let mut rest = set;
        let mut sum = 0;
        while rest != 0 {
            let skipped = rest.trailing_zeros();
            t += skipped as usize;
            sum += rows.energy_of_row(t, of_firsts, of_seconds);
            rest = rest >> skipped >> 1;
            t += 1;
        }
        sum
    }

    /// Returns the sum of the energies of row `t`, except for the last pairs.
    #[inline(always)]
    fn energy_of_row(&self, t: usize, of_firsts: &mut NearPairs, of_seconds: &mut NearPairs) -> i64
        requires row { IsSpeciesRow self.now.task.now self.now.own t }
        requires lists { AreFewOfBoth self.now.task.now of_firsts.old of_seconds.old }
        ensures lists { AreFewOfBoth self.now.task.now of_firsts.new of_seconds.new }
        ensures value { result +ℤ energy_with_both self.now.task.now self.now.own of_firsts.new of_seconds.new
            ≡ energy_with_both self.now.task.now self.now.own of_firsts.old of_seconds.old
            +ℤ energy_row self.now.task.now t }
        ensures size { unsigned_abs result ≤ 2 ^ 53 }
    {
        let (firsts, seconds) = self.near(t);
        let with_first = self.class_with(Species::First);
        let of_first = self.energy_of_pairs(t, firsts, with_first, of_firsts);
        let with_second = self.class_with(Species::Second);
        of_first + self.energy_of_pairs(t, seconds, with_second, of_seconds)
    }

    /// Appends the pairs of place `t` of the first block with a set of places of the second to a list. If this becomes
    /// full, it returns the energies of its pairs, else 0.
    #[inline(always)]
    fn energy_of_pairs(&self, t: usize, set: u64, class: &Class, pairs: &mut NearPairs) -> i64
        requires row { t < length self.now.task.now.a.places }
        requires set { (s : ℕ) → bit_at set s ≡ 1 → s < length self.now.task.now.b.places }
        requires pairs { AreFewPairs self.now.task.now.a.places self.now.task.now.b.places pairs.old }
        ensures pairs { AreFewPairs self.now.task.now.a.places self.now.task.now.b.places pairs.new }
        ensures value { result +ℤ list_energy class.now self.now.task.now.a.places self.now.task.now.b.places pairs.new
            ≡ list_energy class.now self.now.task.now.a.places self.now.task.now.b.places (pairs.old ++ row_pairs t set) }
        ensures size { unsigned_abs result ≤ 2 ^ 52 }
    {
        pairs.append(t, set);
        if pairs.len() < FULL {
            return 0;
        }
        energy_of_most(pairs, &BlockPair::new(self.task, self.table), class)
    }

    /// Returns the places of the second block, bit by bit, that may interact with place `t` of the first and have later
    /// atoms: those of atoms of the first species, and those of the second.
    #[inline(always)]
    fn near(&self, t: usize) -> (u64, u64)
        requires { t < length self.now.task.now.a.places }
        ensures { SplitRow self.now.task.now t result.0 result.1 }
    {
        let near = self.columns.near(&self.task.first().places()[t]) & later(t, self.task);
        let species_bits = self.task.second().species_bits();
        (near & !species_bits, near & species_bits)
    }

    /// Returns the class of the pairs with atoms of a species.
    #[inline(always)]
    fn class_with(&self, other: Species) -> &Class
        ensures { result.now ≡ class_of self.now.task.now.mix self.now.own other }
    {
        self.task.mix().class(self.own, other)
    }
}

/// Returns the lowest `count` bits.
#[inline]
pub(crate) fn lowest_bits(count: usize) -> u64
    requires { count ≤ BLOCK }
    ensures { (k : ℕ) → is_in result k ≡ nat_lt k count }
{
    if count == BLOCK {
        return u64::MAX;
    }
    (1 << count) - 1
}

/// Returns the places of the second block with a later atom than place `t` of the first, bit by bit.
#[inline]
fn later(t: usize, task: &TaskRef<'_>) -> u64
    requires { t < length task.now.a.places }
    ensures { (s : ℕ) → is_in result s ≡ (nat_lt s (length task.now.b.places) && are_in_order task.now t s) }
{
    let all = lowest_bits(task.second().places().len());
    if !task.has_one_block() {
        return all;
    }
    all & !lowest_bits(t + 1)
}
