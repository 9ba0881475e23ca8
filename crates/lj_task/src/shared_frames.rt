//! Frames that tasks share.
ghost use Rattle.std.specs.Prelude.{◌≡◌, ◌≤◌, ◌*◌, length, true, false, IfOk, IfSome};
ghost use Rattle.lj_task.specs.Frames.{frame_block};

use crate::blocks::BLOCK;
use lj_ring::Place;
use std::alloc::{AllocError, Global};
use std::marker::Model;
use std::sync::Arc;

/// The places of all atoms, apart from the count of those who share them, which changes with each task: so the cache line that all
/// workers read stays as it is.
#[derive(Debug, Drop)]
struct FramePlaces {
    apart: [u64; 8],
    places: Vec<Place>,
}

/// A frame, the places of all atoms in the order of the file, that tasks share. While they do, it is not written.
///
/// ```rust
/// let mut frame = SharedFrame::new(alloc, 2)?;
/// assert!(frame.overwrite(&places));
/// assert_eq!(frame.places()[1].x, 25_165_824);
/// ```
#[derive(Debug, Drop)]
pub struct SharedFrame {
    frame: Arc<FramePlaces, Global>,
}

impl Model for SharedFrame {
    ghost use Rattle.std.specs.Prelude.{List};
    ghost use Rattle.std.specs.Arc.{arc_value};
    ghost use Rattle.lj_ring.specs.declared.coordinates.Place.{Place};

    ghost Value = { List Place };

    ghost view = { λ f. (arc_value f.frame).places.items };
}

impl SharedFrame {
    /// Makes a frame of `count` atoms, to be overwritten.
    ///
    /// # Errors
    /// Out of memory.
    ///
    /// ```rust
    /// assert_eq!(SharedFrame::new(alloc, 2)?.places().len(), 2);
    /// ```
    pub fn new(alloc: Global, count: usize) -> Result<SharedFrame, AllocError>
        ensures { IfOk result (λ frame. length frame ≡ count) }
    {
        let places = vec![in alloc; Place { x: 0, y: 0, z: 0 }; count]?;
        let frame = FramePlaces {
            apart: [0; 8],
            places,
        };
        Ok(SharedFrame {
            frame: Arc::new(alloc, frame)?,
        })
    }

    /// Returns the frame for one more who shares it; `None` where no more can be counted.
    #[inline]
    pub(crate) fn share(&self) -> Option<SharedFrame>
        ensures { IfSome result (λ frame. frame ≡ self.now) }
    {
        let frame = Arc::try_clone(&self.frame).ok()?;
        Some(SharedFrame { frame })
    }

    /// Overwrites the frame. Returns false, and changes nothing, where a task shares it.
    ///
    /// ```rust
    /// // `places`, `mix` and `name` as in the example of `Task`
    /// let mut frame = SharedFrame::new(alloc, 2)?;
    /// assert!(frame.overwrite(&places));
    /// let (first, second) = (BlockRef::new(frame.places(), 0), BlockRef::new(frame.places(), 0));
    /// let task = TaskRef::new(name.by_ref(), &mix, first, second).sharing(&frame).to_task();
    /// assert!(!frame.overwrite(&places));
    /// drop(task);
    /// assert!(frame.overwrite(&places));
    /// ```
    pub fn overwrite(&mut self, places: &[Place]) -> bool
        requires { length places.now ≡ length self.old }
        ensures alone { result ≡ true → self.new ≡ places.now }
        ensures shared { result ≡ false → self.new ≡ self.old }
    {
        match Arc::get_mut(&mut self.frame) {
            Some(frame) => {
                frame.places.as_mut_slice().copy_from_slice(places);
                true
            }
            None => false,
        }
    }

    /// Returns the places of all atoms.
    ///
    /// ```rust
    /// assert_eq!(SharedFrame::new(alloc, 1)?.places()[0], Place { x: 0, y: 0, z: 0 });
    /// ```
    #[inline]
    pub fn places(&self) -> &[Place]
        ensures { result.now ≡ self.now }
    {
        self.frame.places.as_slice()
    }

    /// Returns the places of a block.
    #[inline]
    pub(crate) fn block(&self, index: usize) -> &[Place]
        requires within { BLOCK * index ≤ length self.now }
        ensures { result.now ≡ frame_block self.now index }
    {
        let places = self.places();
        let start = BLOCK * index;
        let end = (start + BLOCK).min(places.len());
        &places[start..end]
    }
}

/// The two blocks of a task in a frame that it shares: the frame, and which places are of atoms of the second species.
#[derive(Drop)]
pub(crate) struct SharedBlocks {
    pub frame: SharedFrame,
    pub first_species: u64,
    pub second_species: u64,
}
