//! A flush of a writer that holds replies back is one of the writer below it.

use lj_wire::{Asked, HeldWriting, Sink};
use std::alloc::{AllocError, AllocGlobal};
use std::io;
use std::io::Write;
use std::process::Abort;
use std::sync::atomic::{AtomicU64, Ordering};
use std::test::Fail;

/// A writer that takes all, and counts its flushes.
#[derive(Drop)]
struct CountedFlushes<'a> {
    flushes: &'a AtomicU64,
}

impl Write for CountedFlushes<'_> {
    fn write(&mut self, buf: &[u8]) -> io::Result<usize> {
        Ok(buf.len())
    }

    fn flush(&mut self) -> io::Result<()> {
        self.flushes.fetch_add(1, Ordering::SeqCst);
        Ok(())
    }
}

/// Makes a writer that holds replies back from one that counts its flushes.
fn held<'a>(
    rt: &impl AllocGlobal,
    flushes: &'a AtomicU64,
) -> Result<HeldWriting<Asked<CountedFlushes<'a>>>, AllocError> {
    HeldWriting::new(rt.alloc(), Asked::writer(CountedFlushes { flushes }))
}

/// Any one growth may be refused (`rt try --test --fail-alloc`): the memory is asked for once more.
#[test]
fn each_flush_is_one_of_the_writer_below(rt: HostRuntime) -> Result<(), Fail> {
    let flushes = AtomicU64::new(0);
    let mut writer = held(&rt, &flushes).or_else(|_| held(&rt, &flushes))?;
    for count in 1..4_u64 {
        let written = writer.write(b"OK LIST 0\n").is_ok();
        let flushed = writer.flush().is_ok();
        assert!(rt; written && flushed);
        assert_eq!(rt; flushes.load(Ordering::SeqCst), count);
    }
    Ok(())
}
