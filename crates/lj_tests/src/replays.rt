//! Texts that are read line by line: a schedule that is replayed, and users.

use arrayvec::ArrayVec;
use lj_program::{ReplayFault, UsersFault, read_users, replay};
use lj_wire::Writing;
use std::alloc::AllocGlobal;
use std::test::Fail;

/// One user has one step computed.
const SCHEDULE: &str = "user A aaaaaaaaaaaaaaaaaaaaaaaaaaaaaaaa 4 100 4
hello 1 A aaaaaaaaaaaaaaaaaaaaaaaaaaaaaaaa
enter 1
arrive 1 LOAD a 256 1 131072 rest 28
2
dimer
Ar 0 0 0
Ar 1.5 0 0
arrive 1 ADVANCE a 1
arrive 1 SHOW a 0
next 1
next 1
post 1
take 1 0
compute 1
give 1
fetch 1 0
turn 1
next 1
";

const PRINTED: &str = "A 1 OK LOAD a 0 2\nA 1 OK ADVANCE a 1\nA 1 OK SHOW a 1 0 589 0 0\n";

/// Replays a schedule to a writer of `N` bytes, and returns how that ended and what was written.
fn replayed<const N: usize>(
    rt: &impl AllocGlobal,
    schedule: &str,
) -> (Result<(), ReplayFault>, ArrayVec<u8, N>) {
    let mut writer = Writing::new(ArrayVec::new());
    let ended = replay(rt.alloc(), schedule.as_bytes(), &mut writer);
    (ended, writer.into_inner())
}

#[test]
fn a_schedule_is_printed_whole_or_up_to_a_write_that_fails(rt: HostRuntime) -> Result<(), Fail> {
    let (ended, printed) = replayed::<256>(&rt, SCHEDULE);
    assert!(rt; ended.is_ok());
    assert_eq!(rt; printed.as_slice(), PRINTED.as_bytes());
    let (ended, printed) = replayed::<25>(&rt, SCHEDULE);
    assert!(rt; matches!(ended, Err(ReplayFault::Write)));
    assert_eq!(rt;
        printed.as_slice(),
        b"A 1 OK LOAD a 0 2\nA 1 OK ".as_slice()
    );
    Ok(())
}

/// The lines of a body count, and nothing is printed.
#[test]
fn the_first_bad_line_of_a_schedule_is_told(rt: HostRuntime) -> Result<(), Fail> {
    let schedule = format!(in rt.alloc(); "{SCHEDULE}leave 1\nleave\n")?;
    let (ended, printed) = replayed::<256>(&rt, schedule.as_str());
    assert!(rt; matches!(ended, Err(ReplayFault::Line(21))));
    assert!(rt; printed.is_empty());
    Ok(())
}

/// A line of users with a name that was there, one of another form, and no user at all.
#[test]
fn the_first_bad_line_of_users_is_told(rt: HostRuntime) -> Result<(), Fail> {
    let user = "A aaaaaaaaaaaaaaaaaaaaaaaaaaaaaaaa 4 100 4\n";
    for (after, line) in [(user, 4), ("\nB b 4 100 4\n", 5)] {
        let text = format!(in rt.alloc(); "# users\n\n{user}{after}")?;
        let read = read_users(rt.alloc(), text.as_bytes());
        assert!(rt; matches!(read, Err(UsersFault::Line(number)) if number == line));
    }
    assert!(rt;
        matches!(
            read_users(rt.alloc(), b"# none\n"),
            Err(UsersFault::Line(2))
        )
    );
    Ok(())
}
