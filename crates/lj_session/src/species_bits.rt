//! The atoms of a frame that are of the second species.
ghost use Rattle.std.specs.Prelude.{◌≡◌, ◌≤◌, length, IfOk};
ghost use Rattle.std.specs.Option.{option_copied};
ghost use Rattle.lj_step.specs.Sets.{number_of_bits};
ghost use Rattle.lj_session.specs.Interactions.{species_bits_among, species_bits_of};

use lj_task::BLOCK;
use lj_xyz::{AtomRow, SymbolPair};
use std::alloc::{AllocError, Global};

/// Returns for each block of 64 atoms the bits of those of the second species. Without symbols all are 0.
pub(crate) fn species_bits_of(
    alloc: Global,
    symbols: Option<&SymbolPair>,
    rows: &[AtomRow],
) -> Result<Vec<u64>, AllocError>
    ensures { IfOk result (λ species_bits.
        number_of_bits species_bits.items ≡ species_bits_of (option_copied symbols.entry) rows.now) }
{
    match symbols {
        None => Ok(Vec::new(alloc)),
        Some(symbols) => blocks_of(alloc, symbols, rows),
    }
}

fn blocks_of(alloc: Global, symbols: &SymbolPair, rows: &[AtomRow]) -> Result<Vec<u64>, AllocError>
    ensures { IfOk result (λ species_bits. number_of_bits species_bits.items ≡ species_bits_among symbols.now rows.now) }
{
    let mut species_bits = Vec::new(alloc);
    let mut rest = rows;
    while !rest.is_empty() {
        let (block, others) = rest.split_at(rest.len().min(BLOCK));
        species_bits.push(bits_of(symbols, block))?;
        rest = others;
    }
    Ok(species_bits)
}

fn bits_of(symbols: &SymbolPair, block: &[AtomRow]) -> u64
    requires { length block.now ≤ BLOCK }
    ensures { result ≡ species_bits_among symbols.now block.now }
{
    let mut bits = 0;
    for (t, row) in block.iter().enumerate() {
        if symbols.is_second(&row.symbol) {
            bits += 1 << t;
        }
    }
    bits
}
