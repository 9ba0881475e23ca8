//! Runs the pending steps of sessions over a pool, while a command waits for them and before the next command is read.
ghost use Rattle.std.specs.Prelude.{◌≡◌, ◌+◌, ◌<◌, ◌≤◌, length, ℕ, Bool, true, false, [], Some, None, Ok, IsSome, IfOk, IfErr, IfSome, OnErr, OnOk};
ghost use Rattle.lj_session.specs.Cursors.{IsPostedTo, owner_posted_to};
ghost use Rattle.lj_session.specs.Owner.{next_task_of, ready_session};
ghost use Rattle.lj_session.specs.UserState.{next_task};
ghost use Rattle.lj_engine.specs.declared.running.Halt.TheVariants.{TooManyStrays};
ghost use Rattle.lj_end.specs.Seen.{IsStray, SameOwed};
ghost use Rattle.lj_engine.specs.Gathering.{Gathers, NonePending};
ghost use Rattle.lj_engine.specs.PendingBounds.{leaves_pending};
ghost use Rattle.lj_engine.specs.Counting.{FallsShort, StraysRise};
ghost use Rattle.lj_engine.specs.Coming.{GoesOn, posts_coming, tiles_coming};
ghost use Rattle.lj_engine.specs.Posting.{AreEnds, AreNext, HasPostedAll, PostsAhead, after_posts};
ghost use Rattle.lj_engine.specs.Running.{AnswersNext, AnswersPending, FetchesStray, IsHalted, IsSameUser, LeavesUnanswered};

use lj_end::{MAX_AHEAD, MAX_POSTS, MAX_STRAYS, NotPosted, PoolEnd, TaskList};
use lj_session::{Begin, Command, Owner, Refusal, Reply, TileCursor};
use lj_wire::Item;

/// Why the work was aborted.
#[derive(Clone, Copy, PartialEq, Eq, Debug)]
pub(crate) enum Halt {
    PoolClosed,
    TooManyStrays,
}

/// Answers an item: a command once the steps that it waits for are done. Afterwards the value of `item` is unspecified.
pub(crate) fn answer<P: PoolEnd>(
    owner: &mut Owner,
    pool: &mut P,
    item: &mut Item,
) -> Result<Reply, Halt>
    requires idle { owner.old.waiting ≡ None }
    requires gathers { Gathers owner.old (P.seen pool.old).owed }
    ensures answered { IfOk result (λ reply.
        AnswersNext owner.old item.old (P.seen pool.old) reply owner.new (P.seen pool.new)) }
    ensures unanswered { OnErr result
        (LeavesUnanswered owner.old item.old (P.seen pool.old) (P.seen pool.new)) }
    ensures halted { IfErr result (λ halt. IsHalted halt (P.seen pool.old) (P.seen pool.new)) }
    ensures same { IsSameUser owner.old owner.new }
    ensures counted { P.uncounted pool.old ≡ false → P.uncounted pool.new ≡ false }
    ensures own { let user = owner.old.number in P.for_others pool.new user ≡ P.for_others pool.old user }
{
    match item {
        Item::Command(command) => match owner.begin_from(command) {
            Begin::Answered(reply) => Ok(reply),
            Begin::Running => run(owner, pool),
        },
        Item::Bad(fault) | Item::Last(fault) => Ok(Reply::Refused(Refusal::from(*fault))),
    }
}

/// Runs the steps of all sessions until the waiting command is answered.
fn run<P: PoolEnd>(owner: &mut Owner, pool: &mut P) -> Result<Reply, Halt>
    requires waits { IsSome owner.old.waiting }
    requires gathers { Gathers owner.old (P.seen pool.old).owed }
    ensures answered { IfOk result (λ reply.
        AnswersPending owner.old (P.seen pool.old) reply owner.new (P.seen pool.new)) }
    ensures missing { OnErr result (FallsShort (tiles_coming owner.old) (P.seen pool.old) (P.seen pool.new)) }
    ensures halted { IfErr result (λ halt. IsHalted halt (P.seen pool.old) (P.seen pool.new)) }
    ensures same { IsSameUser owner.old owner.new }
    ensures counted { P.uncounted pool.old ≡ false → P.uncounted pool.new ≡ false }
    ensures own { let user = owner.old.number in P.for_others pool.new user ≡ P.for_others pool.old user }
{
    let mut strays = 0;
    loop {
        if let Some(name) = owner.ready_session() {
            if let Some(reply) = owner.turn_session(&name) {
                return Ok(reply);
            }
            poll_next(owner, pool);
            post_next(owner, pool, false)?;
            strays = 0;
        } else if !post_or_wait(owner, pool)? {
            strays = strays_after(strays, fetch_next(owner, pool)?)?;
            if poll_and_post(owner, pool) {
                strays = 0;
            }
        }
    }
}

/// Runs pending steps, if there may be some, before the next command is read: takes in the results that are there, turns whole
/// steps, posts tasks while there is room, and fetches until few tasks are owed. The last poll wakes the workers for the posted
/// tasks. Returns whether steps are still pending.
pub(crate) fn work_ahead<P: PoolEnd>(
    owner: &mut Owner,
    pool: &mut P,
    has_pending: bool,
) -> Result<bool, Halt>
    requires idle { owner.old.waiting ≡ None }
    requires quiet { has_pending ≡ false → NonePending owner.old.state }
    requires gathers { Gathers owner.old (P.seen pool.old).owed }
    ensures goes_on { GoesOn owner.old (P.seen pool.old) owner.new (P.seen pool.new) }
    ensures quiet { IfOk result (λ pending. pending ≡ false → NonePending owner.new.state) }
    ensures posts { OnOk result
        (PostsAhead P.takes_all P.most owner.old (P.seen pool.old) owner.new (P.seen pool.new)) }
    ensures few { OnOk result (length (P.seen pool.new).owed ≤ MAX_AHEAD) }
    ensures many { OnErr result (MAX_AHEAD < length (P.seen pool.new).owed) }
    ensures halted { IfErr result (λ halt. IsHalted halt (P.seen pool.old) (P.seen pool.new)) }
    ensures counted { P.uncounted pool.old ≡ false → P.uncounted pool.new ≡ false }
    ensures own { let user = owner.old.number in P.for_others pool.new user ≡ P.for_others pool.old user }
{
    if !has_pending {
        return Ok(false);
    }
    poll_all(owner, pool);
    turn_whole(owner, pool);
    post_all(owner, pool);
    fetch_down(owner, pool)?;
    poll_all(owner, pool);
    Ok(owner.is_busy())
}

/// Returns whether steps may be pending after an item where none was before: those of a START.
pub(crate) fn leaves_pending(item: &Item) -> bool
    ensures { result ≡ leaves_pending item.now }
{
    matches!(item, Item::Command(Command::Start { .. }))
}

/// Takes in the results that are there now. Returns whether one of them was of an awaited tile.
fn poll_all<P: PoolEnd>(owner: &mut Owner, pool: &mut P) -> bool
    requires gathers { Gathers owner.old (P.seen pool.old).owed }
    ensures goes_on { GoesOn owner.old (P.seen pool.old) owner.new (P.seen pool.new) }
    ensures fewer { result ≡ true → tiles_coming owner.new < tiles_coming owner.old }
    ensures owes { length (P.seen pool.new).owed ≤ length (P.seen pool.old).owed }
    ensures counted { P.uncounted pool.old ≡ false → P.uncounted pool.new ≡ false }
    ensures own { let user = owner.old.number in P.for_others pool.new user ≡ P.for_others pool.old user }
{
    let mut some = false;
    for _ in 0..pool.owed() {
        let Some(taken) = poll_next(owner, pool) else {
            break;
        };
        some = some || taken;
    }
    some
}

/// Turns sessions until none is whole. Between two turns it takes in a result and posts a task, so that a session whose steps
/// have no tiles does not hold the others up.
fn turn_whole<P: PoolEnd>(owner: &mut Owner, pool: &mut P)
    requires idle { owner.old.waiting ≡ None }
    requires gathers { Gathers owner.old (P.seen pool.old).owed }
    ensures goes_on { GoesOn owner.old (P.seen pool.old) owner.new (P.seen pool.new) }
    ensures counted { P.uncounted pool.old ≡ false → P.uncounted pool.new ≡ false }
    ensures own { let user = owner.old.number in P.for_others pool.new user ≡ P.for_others pool.old user }
{
    while let Some(name) = owner.ready_session() {
        let _none = owner.turn_session(&name);
        poll_next(owner, pool);
        let _posted = post_next(owner, pool, false);
    }
}

/// Posts tasks while there is room, several at once if the pool has room for several.
fn post_all<P: PoolEnd>(owner: &mut Owner, pool: &mut P)
    requires gathers { Gathers owner.old (P.seen pool.old).owed }
    ensures goes_on { GoesOn owner.old (P.seen pool.old) owner.new (P.seen pool.new) }
    ensures all { HasPostedAll P.takes_all P.most owner.new (P.seen pool.new) }
    ensures counted { P.uncounted pool.old ≡ false → P.uncounted pool.new ≡ false }
    ensures own { let user = owner.old.number in P.for_others pool.new user ≡ P.for_others pool.old user }
{
    while post_some(owner, pool) {}
}

/// Posts the next tasks together, as many as there is room for. Returns false if there was none, or if not all were posted.
fn post_some<P: PoolEnd>(owner: &mut Owner, pool: &mut P) -> bool
    requires gathers { Gathers owner.old (P.seen pool.old).owed }
    ensures goes_on { GoesOn owner.old (P.seen pool.old) owner.new (P.seen pool.new) }
    ensures fewer { result ≡ true → posts_coming owner.new < posts_coming owner.old }
    ensures all { result ≡ false → HasPostedAll P.takes_all P.most owner.new (P.seen pool.new) }
    ensures counted { P.uncounted pool.old ≡ false → P.uncounted pool.new ≡ false }
    ensures own { let user = owner.old.number in P.for_others pool.new user ≡ P.for_others pool.old user }
{
    let Some(cursor) = owner.next_tile() else {
        return false;
    };
    let mut ends = [0; MAX_POSTS];
    let (count, posted) = {
        let mut tasks = TaskList::new();
        let most = pool.room().min(MAX_POSTS);
        add_next(owner, &cursor, most, &mut tasks, &mut ends);
        let count = tasks.len();
        if count == 0 {
            return false;
        }
        (count, pool.post_some(&tasks))
    };
    note_posted(owner, &cursor, &ends, posted);
    posted == count
}

/// Adds the next tasks of the cursor's session, from the cursor at the first of them on, to a list without tasks: `most` of them,
/// or all if there are fewer. It posts none, and writes down the position behind each.
fn add_next<'a>(
    owner: &'a Owner,
    cursor: &'a TileCursor,
    most: usize,
    tasks: &mut TaskList<'a>,
    ends: &mut [usize; MAX_POSTS],
)
    requires first { IsPostedTo cursor.now cursor.now.passed owner.now owner.now }
    requires same { owner.now ≡ owner_posted_to cursor.now cursor.now.passed owner.now }
    requires few { most ≤ MAX_POSTS }
    requires empty { tasks.old ≡ [] }
    ensures most { length tasks.new ≤ most }
    ensures next { AreNext (length tasks.new) tasks.new owner.now }
    ensures ends { AreEnds (length tasks.new) ends.new cursor.now owner.now }
    ensures all { length tasks.new < most
        → next_task (after_posts (length tasks.new) owner.now).state cursor.now.label ≡ None }
{
    let mut from = cursor.passed();
    for here in 0..most {
        let Some((task, next)) = owner.task_past(cursor, from) else {
            return;
        };
        tasks.push(task);
        ends[here] = next;
        from = next;
    }
}

/// Records the first `posted` of the tasks with these ends as posted.
fn note_posted(owner: &mut Owner, cursor: &TileCursor, ends: &[usize; MAX_POSTS], posted: usize)
    requires first { IsPostedTo cursor.now cursor.now.passed owner.old owner.old }
    requires few { posted ≤ MAX_POSTS }
    requires ends { AreEnds posted ends.now cursor.now owner.old }
    ensures { owner.new ≡ after_posts posted owner.old }
{
    if posted > 0 {
        owner.post_to(cursor, ends[posted - 1]);
    }
}

/// Fetches results until few tasks are owed.
fn fetch_down<P: PoolEnd>(owner: &mut Owner, pool: &mut P) -> Result<(), Halt>
    requires gathers { Gathers owner.old (P.seen pool.old).owed }
    ensures goes_on { GoesOn owner.old (P.seen pool.old) owner.new (P.seen pool.new) }
    ensures few { OnOk result (length (P.seen pool.new).owed ≤ MAX_AHEAD) }
    ensures many { OnErr result (MAX_AHEAD < length (P.seen pool.new).owed) }
    ensures halted { IfErr result (λ halt. IsHalted halt (P.seen pool.old) (P.seen pool.new)) }
    ensures counted { P.uncounted pool.old ≡ false → P.uncounted pool.new ≡ false }
    ensures own { let user = owner.old.number in P.for_others pool.new user ≡ P.for_others pool.old user }
{
    let mut strays = 0;
    while pool.owed() > MAX_AHEAD {
        strays = strays_after(strays, fetch_next(owner, pool)?)?;
    }
    Ok(())
}

/// Posts the next task, and waits for room only if nothing is owed. Returns false if there is no task or no room; then something
/// is owed.
fn post_or_wait<P: PoolEnd>(owner: &mut Owner, pool: &mut P) -> Result<bool, Halt>
    requires waits { IsSome owner.old.waiting }
    requires none_ready { ready_session owner.old ≡ None }
    requires gathers { Gathers owner.old (P.seen pool.old).owed }
    ensures goes_on { GoesOn owner.old (P.seen pool.old) owner.new (P.seen pool.new) }
    ensures fewer { IfOk result (λ posted. posted ≡ true → posts_coming owner.new < posts_coming owner.old) }
    ensures owes { IfOk result (λ posted. posted ≡ false → 0 < length (P.seen pool.new).owed) }
    ensures awaits { OnErr result (0 < tiles_coming owner.new) }
    ensures halted { IfErr result (λ halt. IsHalted halt (P.seen pool.old) (P.seen pool.new)) }
    ensures counted { P.uncounted pool.old ≡ false → P.uncounted pool.new ≡ false }
    ensures own { let user = owner.old.number in P.for_others pool.new user ≡ P.for_others pool.old user }
{
    let wait = pool.owed() == 0;
    post_next(owner, pool, wait)
}

/// Posts the next task. Returns false if there is none, or if the pool has no room now.
fn post_next<P: PoolEnd>(owner: &mut Owner, pool: &mut P, wait: bool) -> Result<bool, Halt>
    requires gathers { Gathers owner.old (P.seen pool.old).owed }
    requires alone { wait ≡ true → (P.seen pool.old).owed ≡ [] }
    ensures goes_on { GoesOn owner.old (P.seen pool.old) owner.new (P.seen pool.new) }
    ensures fewer { IfOk result (λ posted. posted ≡ true → posts_coming owner.new < posts_coming owner.old) }
    ensures owes { (wait ≡ false → 0 < length (P.seen pool.old).owed) → IsSome owner.old.waiting
        → ready_session owner.old ≡ None
        → IfOk result (λ posted. posted ≡ false → 0 < length (P.seen pool.new).owed) }
    ensures awaits { OnErr result (0 < tiles_coming owner.new) }
    ensures halted { IfErr result (λ halt. IsHalted halt (P.seen pool.old) (P.seen pool.new)) }
    ensures counted { P.uncounted pool.old ≡ false → P.uncounted pool.new ≡ false }
    ensures own { let user = owner.old.number in P.for_others pool.new user ≡ P.for_others pool.old user }
{
    if pool.room() == 0 {
        return Ok(false);
    }
    let Some(cursor) = owner.next_tile() else {
        return Ok(false);
    };
    let Some((task, next)) = owner.task_past(&cursor, cursor.passed()) else {
        return Ok(false);
    };
    match pool.post_from(&task, wait) {
        Ok(()) => {
            owner.post_to(&cursor, next);
            Ok(true)
        }
        Err(NotPosted::Full) => Ok(false),
        Err(NotPosted::Closed(_)) => Err(Halt::PoolClosed),
    }
}

/// Takes in the results that are there now, and then posts tasks while there is room, so that the workers get many at once.
/// Returns whether one of the results was of an awaited tile.
fn poll_and_post<P: PoolEnd>(owner: &mut Owner, pool: &mut P) -> bool
    requires gathers { Gathers owner.old (P.seen pool.old).owed }
    ensures goes_on { GoesOn owner.old (P.seen pool.old) owner.new (P.seen pool.new) }
    ensures fewer { result ≡ true → tiles_coming owner.new < tiles_coming owner.old }
    ensures counted { P.uncounted pool.old ≡ false → P.uncounted pool.new ≡ false }
    ensures own { let user = owner.old.number in P.for_others pool.new user ≡ P.for_others pool.old user }
{
    let taken = poll_all(owner, pool);
    post_all(owner, pool);
    taken
}

/// Fetches a result and takes it in. Returns false, and drops it, if it is of no awaited tile.
fn fetch_next<P: PoolEnd>(owner: &mut Owner, pool: &mut P) -> Result<bool, Halt>
    requires gathers { Gathers owner.old (P.seen pool.old).owed }
    requires owes { 0 < length (P.seen pool.old).owed }
    ensures goes_on { GoesOn owner.old (P.seen pool.old) owner.new (P.seen pool.new) }
    ensures fewer { IfOk result (λ taken. taken ≡ true → tiles_coming owner.new < tiles_coming owner.old) }
    ensures stray { IfOk result (λ taken. taken ≡ false
        → FetchesStray owner.new (P.seen pool.old) (P.seen pool.new)) }
    ensures unchanged { OnErr result (SameOwed (P.seen pool.old) (P.seen pool.new)) }
    ensures awaits_still { OnErr result (0 < tiles_coming owner.new) }
    ensures halted { IfErr result (λ halt. IsHalted halt (P.seen pool.old) (P.seen pool.new)) }
    ensures counted { P.uncounted pool.old ≡ false → P.uncounted pool.new ≡ false }
    ensures own { let user = owner.old.number in P.for_others pool.new user ≡ P.for_others pool.old user }
{
    if pool.fetch_uncounted(owner.user()).is_err() {
        return Err(Halt::PoolClosed);
    }
    Ok(accept_and_count(owner, pool))
}

/// Takes in a result that is there now. Returns `Some(false)`, and drops it, if it is of no awaited tile; `None` if there is no
/// result.
fn poll_next<P: PoolEnd>(owner: &mut Owner, pool: &mut P) -> Option<bool>
    requires gathers { Gathers owner.old (P.seen pool.old).owed }
    ensures goes_on { GoesOn owner.old (P.seen pool.old) owner.new (P.seen pool.new) }
    ensures fewer { IfSome result (λ taken. taken ≡ true → tiles_coming owner.new < tiles_coming owner.old) }
    ensures stray { IfSome result (λ taken. taken ≡ false → StraysRise 1 (P.seen pool.old) (P.seen pool.new)) }
    ensures owes { length (P.seen pool.new).owed ≤ length (P.seen pool.old).owed }
    ensures counted { P.uncounted pool.old ≡ false → P.uncounted pool.new ≡ false }
    ensures own { let user = owner.old.number in P.for_others pool.new user ≡ P.for_others pool.old user }
{
    if !pool.poll_uncounted(owner.user()) {
        return None;
    }
    Some(accept_and_count(owner, pool))
}

/// Takes in the result that the pool shows, and has the pool count it. Returns false if it is of no awaited tile. The task of an
/// awaited tile was compared as it was taken in, so the pool finds it by its name.
fn accept_and_count<P: PoolEnd>(owner: &mut Owner, pool: &mut P) -> bool
    requires gathers { Gathers owner.old (P.seen pool.old).owed }
    requires uncounted { P.uncounted pool.old ≡ true }
    ensures goes_on { GoesOn owner.old (P.seen pool.old) owner.new (P.seen pool.new) }
    ensures fewer { result ≡ true → tiles_coming owner.new < tiles_coming owner.old }
    ensures stray { result ≡ false → IsStray (P.last pool.old) (P.seen pool.old) (P.seen pool.new) }
    ensures owes { length (P.seen pool.new).owed ≤ length (P.seen pool.old).owed }
    ensures counted { P.uncounted pool.new ≡ false }
    ensures own { (user : ℕ) → P.for_others pool.new user ≡ P.for_others pool.old user }
{
    let taken = owner.accept_from(&pool.fetched()).is_ok();
    pool.count(taken);
    taken
}

/// Returns the number of consecutive strays after one more result.
fn strays_after(strays: u64, taken: bool) -> Result<u64, Halt>
    requires { strays < MAX_STRAYS }
    ensures taken { taken ≡ true → result ≡ Ok 0 }
    ensures stray { taken ≡ false → IfOk result (λ row. (row ≡ strays + 1) × (row < MAX_STRAYS)) }
    ensures many { OnErr result ((taken ≡ false) × (strays + 1 ≡ MAX_STRAYS)) }
    ensures halt { IfErr result (λ halt. halt ≡ TooManyStrays) }
{
    if taken {
        return Ok(0);
    }
    if strays + 1 == MAX_STRAYS {
        return Err(Halt::TooManyStrays);
    }
    Ok(strays + 1)
}
