//! A ticket that leaves a directory and has not entered, and one that is given up.

use crate::users::{SECRET, users};
use lj_access::{Directory, GivenUp, NotEntered};
use lj_quota::Quota;
use lj_session::UserState;
use std::alloc::{AllocError, AllocGlobal};
use std::process::Abort;
use std::test::Fail;

fn directory_once(rt: &(impl Abort + AllocGlobal)) -> Result<Directory, AllocError> {
    Directory::new(rt.alloc(), users(rt)?)
}

/// Ticket and state are handed back, and the ticket may enter afterwards. Any one growth may be refused
/// (`rt try --test --fail-alloc`): the directory is asked for once more.
#[test]
fn a_ticket_that_has_not_entered_is_handed_back(rt: HostRuntime) -> Result<(), Fail> {
    let mut directory = directory_once(&rt).or_else(|_| directory_once(&rt))?;
    let ticket = directory.hello(b"A", &SECRET).ok().ok_or("a ticket")?;
    let state = UserState::new(rt.alloc(), Quota::USUAL);
    let refused = directory.leave(ticket, state).err().ok_or("a refusal")?;
    let NotEntered { ticket, state } = refused;
    assert_eq!(rt; (ticket.user(), ticket.number(), state.len()), (0, 0, 0));
    assert!(rt; directory.try_enter(&ticket).is_some());
    Ok(())
}

/// It is kept, perhaps at the second growth, and passed over: the next one enters in its place.
#[test]
fn a_ticket_that_is_given_up_is_kept(rt: HostRuntime) -> Result<(), Fail> {
    let mut directory = directory_once(&rt).or_else(|_| directory_once(&rt))?;
    let first = directory.hello(b"A", &SECRET).ok().ok_or("a ticket")?;
    let next = directory.hello(b"A", &SECRET).ok().ok_or("a ticket")?;
    let mut given_up = GivenUp::new(rt.alloc());
    let is_kept = match given_up.keep(first) {
        Ok(()) => true,
        Err(back) => given_up.keep(back).is_ok(),
    };
    assert!(rt; is_kept);
    assert!(rt; directory.try_enter(&next).is_none());
    given_up.pass(&mut directory, 0);
    assert!(rt; directory.try_enter(&next).is_some());
    Ok(())
}
