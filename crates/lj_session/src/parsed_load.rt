//! The frames with which a load opens a session.
ghost use Rattle.std.specs.Prelude.{◌≡◌, ◌≤◌, length, map, Some, None, IfOk, IsTrue};
ghost use Rattle.std.specs.Option.{option_copied};
ghost use Rattle.lj_xyz.specs.Atoms.{is_count};
ghost use Rattle.lj_xyz.specs.declared.frame_reader.TheConstants.{MAX_FRAME_ATOMS};
ghost use Rattle.lj_xyz.specs.Lines.{lines_of};
ghost use Rattle.lj_xyz.specs.Reading.{reading, ReadsAs};
ghost use Rattle.lj_session.specs.Loads.{reading_mode, places_in};
ghost use Rattle.lj_session.specs.ParsedLoads.{frames_of, last_of, held_from};

use crate::body::Body;
use crate::command::Mode;
use crate::live_session::LiveSession;
use crate::species_bits::species_bits_of;
use lj_branch::Branches;
use lj_ring::{Edge, Mix, Place, place_of};
use lj_step::{Frame, Frames, Sim};
use lj_xyz::{AtomRow, Rows, Symbol, SymbolPair, XyzError, read_pair, read_rest};
use std::alloc::{AllocError, Global};

/// The atoms of one frame, or of two one step apart.
#[derive(Drop)]
pub(crate) struct ParsedLoad {
    first: Rows,
    second: Option<Rows>,
    ghost count: { IsTrue (is_count (length first)) },
    ghost same: { length (last_of first second) ≡ length first },
}

impl ParsedLoad {
    /// Reads the frames of a mode. Each atom of the first frame must have one of the symbols, if two are given.
    pub(crate) fn read(
        alloc: Global,
        mode: Mode,
        symbols: Option<&SymbolPair>,
        body: &Body,
    ) -> Result<ParsedLoad, XyzError>
        ensures { let asked = option_copied symbols.entry in
            let frames = reading asked (reading_mode mode) (lines_of body.now) in
            ReadsAs (λ parsed. frames_of parsed.first parsed.second) result frames }
    {
        match mode {
            Mode::Rest => Ok(ParsedLoad {
                first: read_rest(alloc, body.as_slice(), symbols)?,
                second: None,
            }),
            Mode::Pair => {
                let pair = read_pair(alloc, body.as_slice(), symbols)?;
                Ok(ParsedLoad {
                    first: pair.first,
                    second: Some(pair.second),
                })
            }
        }
    }

    /// Returns the number of atoms, at most `MAX_FRAME_ATOMS`.
    pub(crate) fn count(&self) -> usize
        ensures value { result ≡ length self.now.first }
        ensures most { result ≤ MAX_FRAME_ATOMS }
    {
        self.first.len()
    }

    /// Makes the session that opens with these frames. A single frame is used twice, so that the atoms are at rest. If
    /// symbols of two species are given, those of the first frame determine the species.
    pub(crate) fn session(
        self,
        alloc: Global,
        mix: Mix,
        symbols: Option<&SymbolPair>,
    ) -> Result<LiveSession, AllocError>
        ensures { let last = last_of self.first self.second in
            IfOk result (λ session. session ≡ held_from mix (option_copied symbols.entry) self.first last) }
    {
        let edge = mix.edge();
        let prev = places_of(alloc, self.first.as_slice(), &edge)?;
        let cur = self.last_places(alloc, &edge, prev.as_slice())?;
        let frames = Frames {
            prev: Frame::new(prev),
            cur: Frame::new(cur),
        };
        let species_bits = species_bits_of(alloc, symbols, self.first.as_slice())?;
        let sim = Sim::new(alloc, frames, species_bits, mix)?;
        let symbols = symbols_of(alloc, self.first)?;
        Ok(LiveSession::new(symbols, sim, Branches::new(alloc)))
    }

    /// Returns the places of the last frame: `first` if there is only one.
    fn last_places(
        &self,
        alloc: Global,
        edge: &Edge,
        first: &[Place],
    ) -> Result<Vec<Place>, AllocError>
        requires { first.now ≡ places_in edge.now self.now.first }
        ensures { let last = last_of self.now.first self.now.second in
            IfOk result (λ places. places.items ≡ places_in edge.now last) }
    {
        match &self.second {
            Some(second) => places_of(alloc, second.as_slice(), edge),
            None => first.to_vec(alloc),
        }
    }
}

fn symbols_of(alloc: Global, rows: Rows) -> Result<Vec<Symbol>, AllocError>
    ensures { IfOk result (λ symbols. symbols.items ≡ map (λ row. row.symbol) rows) }
{
    rows.into_vec()
        .into_iter()
        .map(|row| row.symbol)
        .collect(alloc)
}

fn places_of(alloc: Global, rows: &[AtomRow], edge: &Edge) -> Result<Vec<Place>, AllocError>
    ensures { IfOk result (λ places. places.items ≡ places_in edge.now rows.now) }
{
    let mut places = Vec::with_capacity(alloc, rows.len())?;
    for row in rows {
        places.push(Place {
            x: place_of(row.x, edge),
            y: place_of(row.y, edge),
            z: place_of(row.z, edge),
        })?;
    }
    Ok(places)
}
