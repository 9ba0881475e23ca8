//! A full book.

use crate::sample_task::task;
use lj_book::{Book, Counts, MAX_ENTRIES};
use lj_table::Table;
use lj_tile::compute;
use std::alloc::{AllocError, AllocGlobal};
use std::process::Abort;
use std::test::Fail;

/// Makes an empty book. Any one growth may be refused (`rt try --test --fail-alloc`): it is asked for once more, here and
/// wherever a test takes memory.
fn empty_book(rt: &impl AllocGlobal) -> Result<Book, AllocError> {
    Book::new(rt.alloc()).or_else(|_| Book::new(rt.alloc()))
}

/// Posts tasks until the book is full.
fn fill(book: &mut Book, rt: &impl Abort) {
    for step in 0..MAX_ENTRIES {
        let posted = book.post(task(rt, 3, i64::from(step as u32))).is_ok();
        assert!(rt; posted);
    }
}

/// Posts one more task, which has to be handed back.
fn refuse_one(book: &mut Book, rt: &impl Abort) {
    let refused = book.post(task(rt, 3, -1)).err().expect(rt, "a refusal");
    let is_it = refused.task.is(&task(rt, 3, -1));
    assert!(rt; is_it);
}

/// Takes a task, gives its result twice, where the second one has to be handed back, and fetches it.
fn work_once(book: &mut Book, rt: &impl Abort) {
    let (key, taken) = book.take(0).expect(rt, "a task");
    let done = compute(taken, &Table::new());
    let given = book.give(key, done.copy()).is_ok();
    assert!(rt; given);
    let again = book.give(key, done.copy()).err().expect(rt, "a refusal");
    let fetched = book.fetch(3, 0).expect(rt, "a result");
    let are_it = again.task().is(done.task()) && fetched.task().is(done.task());
    assert!(rt; are_it);
}

#[test]
fn a_full_book(rt: HostRuntime) -> Result<(), Fail> {
    let mut book = empty_book(&rt)?;
    fill(&mut book, &rt);
    refuse_one(&mut book, &rt);
    work_once(&mut book, &rt);
    let counts = Counts {
        posted: 1024,
        given: 1,
        fetched: 1,
        withdrawn: 0,
        entries: 1023,
    };
    assert_eq!(rt; book.counts(), counts);
    Ok(())
}
