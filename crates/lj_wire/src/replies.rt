//! The lines of replies.
ghost use Rattle.std.specs.Prelude.{◌≡◌, ◌<◌, ◌≤◌, ◌+◌, ◌++◌, [], ◌∷◌, ℕ, List, length, map, slice_get, codes, true};
ghost use Rattle.std.specs.Prelude.{Some, IfSome, IfNone};
ghost use Rattle.std.specs.List.{flat_map};
ghost use Rattle.std.specs.Fmt.{decimal, signed_decimal};
ghost use Rattle.std.specs.Option.{ForSome, option_map};
ghost use Rattle.arrayvec.specs.ArrayVec.{array_vec_len};
ghost use Rattle.lj_ring.specs.Mix.{edge_of};
ghost use Rattle.lj_session.specs.Refusals.{refusal_text};
ghost use Rattle.lj_branch.specs.Named.{value_named};
ghost use Rattle.lj_session.specs.Users.{User};
ghost use Rattle.lj_session.specs.UserState.{live_session_at, loaded_names, user_of, settled_session};
ghost use Rattle.lj_session.specs.Owner.{IsSettled};
ghost use Rattle.lj_wire.specs.ReplyTexts.{ok_line, ended_line, text, reply_lines, line_of, session_line, session_lines, branch_line};
ghost use Rattle.lj_wire.specs.ReplyTexts.{branch_lines, dump_lines, atom_lines};
ghost use Rattle.lj_wire.specs.LineParts.{blank_and, is_one_line, listed_session};

use arrayvec::ArrayVec;
use itoa::{Buffer, Integer};
use lj_base::Name;
use lj_branch::Branches;
use lj_ring::{Place, micro_of};
use lj_session::{Refusal, Reply, UserState};
use lj_xyz::{FrameLine, push_atom_line};

/// Maximum number of bytes in a line of a reply, with its line feed.
pub const MAX_REPLY_LINE_BYTES: usize = 256;

/// A line of a reply, with its line feed.
pub type Line = ArrayVec<u8, MAX_REPLY_LINE_BYTES>;

/// Appends a text, for which there is room.
fn push(line: &mut Line, text: &[u8])
    requires { array_vec_len line.old + length text.now ≤ MAX_REPLY_LINE_BYTES }
    ensures text { line.new.items ≡ line.old.items ++ text.now }
    ensures count { array_vec_len line.new ≡ array_vec_len line.old + length text.now }
{
    let _fits = line.try_extend_from_slice(text);
}

/// Appends a blank and a word.
fn push_word(line: &mut Line, word: &[u8])
    requires { array_vec_len line.old + length word.now + 1 ≤ MAX_REPLY_LINE_BYTES }
    ensures text { line.new.items ≡ line.old.items ++ blank_and word.now }
    ensures count { array_vec_len line.new ≡ array_vec_len line.old + length word.now + 1 }
{
    line.push(b' ');
    push(line, word);
}

/// Appends a blank and a number.
fn push_number<I: Integer>(line: &mut Line, number: I)
    requires { array_vec_len line.old + I.MAX_STR_LEN + 1 ≤ MAX_REPLY_LINE_BYTES }
    ensures text { line.new.items ≡ line.old.items ++ blank_and (I.text number) }
    ensures count { array_vec_len line.new ≤ array_vec_len line.old + I.MAX_STR_LEN + 1 }
{
    push_word(line, Buffer::new().format(number).as_bytes());
}

/// Begins a line with `OK` and the word of a command.
fn begin(line: &mut Line, verb: &[u8])
    requires { length verb.now ≤ 16 }
    ensures text { line.new.items ≡ codes "OK" ++ blank_and verb.now }
    ensures count { array_vec_len line.new ≤ 19 }
{
    line.clear();
    push(line, b"OK");
    push_word(line, verb);
}

/// Appends the line feed.
fn end(line: &mut Line)
    requires { array_vec_len line.old < MAX_REPLY_LINE_BYTES }
    ensures { line.new.items ≡ ended_line line.old.items }
{
    line.push(b'\n');
}

/// Writes `OK`, the verb of a load, a session, its step 0 and its number of atoms.
fn loaded_line(line: &mut Line, verb: &[u8], name: &Name, atoms: usize)
    requires { length verb.now ≤ 16 }
    ensures { line.new.items ≡ ok_line (verb.now ∷ name.now ∷ codes "0" ∷ decimal atoms ∷ []) }
{
    begin(line, verb);
    push_word(line, name.as_bytes());
    push_word(line, b"0");
    push_number(line, atoms);
    end(line);
}

/// Writes `OK`, a verb, a session and a number.
fn number_line<I: Integer>(line: &mut Line, verb: &[u8], name: &Name, number: I)
    requires word { length verb.now ≤ 16 }
    requires number { I.MAX_STR_LEN ≤ 40 }
    ensures { line.new.items ≡ ok_line (verb.now ∷ name.now ∷ I.text number ∷ []) }
{
    begin(line, verb);
    push_word(line, name.as_bytes());
    push_number(line, number);
    end(line);
}

/// Writes the same with two numbers.
fn numbers_line<I: Integer, J: Integer>(
    line: &mut Line,
    verb: &[u8],
    name: &Name,
    first: I,
    second: J,
)
    requires word { length verb.now ≤ 16 }
    requires first { I.MAX_STR_LEN ≤ 40 }
    requires second { J.MAX_STR_LEN ≤ 40 }
    ensures { line.new.items ≡ ok_line (verb.now ∷ name.now ∷ I.text first ∷ J.text second ∷ []) }
{
    begin(line, verb);
    push_word(line, name.as_bytes());
    push_number(line, first);
    push_number(line, second);
    end(line);
}

/// Writes `OK`, a verb and a session.
fn name_line(line: &mut Line, verb: &[u8], name: &Name)
    requires { length verb.now ≤ 16 }
    ensures { line.new.items ≡ ok_line (verb.now ∷ name.now ∷ []) }
{
    begin(line, verb);
    push_word(line, name.as_bytes());
    end(line);
}

/// Writes `OK HELLO name`: the user of this name is let in.
pub fn put_welcome_line(line: &mut Line, name: &Name)
    ensures { line.new.items ≡ ok_line (codes "HELLO" ∷ name.now ∷ []) }
{
    name_line(line, b"HELLO", name);
}

/// Writes `OK`, a verb, a session and a branch.
fn names_line(line: &mut Line, verb: &[u8], name: &Name, branch: &Name)
    requires { length verb.now ≤ 16 }
    ensures { line.new.items ≡ ok_line (verb.now ∷ name.now ∷ branch.now ∷ []) }
{
    begin(line, verb);
    push_word(line, name.as_bytes());
    push_word(line, branch.as_bytes());
    end(line);
}

/// Writes the same with a step number.
fn names_and_step_line(line: &mut Line, verb: &[u8], name: &Name, branch: &Name, step: i64)
    requires { length verb.now ≤ 16 }
    ensures { line.new.items ≡ ok_line (verb.now ∷ name.now ∷ branch.now ∷ signed_decimal step ∷ []) }
{
    begin(line, verb);
    push_word(line, name.as_bytes());
    push_word(line, branch.as_bytes());
    push_number(line, step);
    end(line);
}

/// Writes `OK BYE`.
fn bye_line(line: &mut Line)
    ensures { line.new.items ≡ ok_line (codes "BYE" ∷ []) }
{
    begin(line, b"BYE");
    end(line);
}

/// Writes `OK SHOW s step i x y z`.
fn shown_line(line: &mut Line, name: &Name, step: i64, atom: u64, place: &Place)
    ensures { line.new.items ≡ ok_line (codes "SHOW" ∷ name.now ∷ signed_decimal step ∷ decimal atom
        ∷ decimal place.now.x ∷ decimal place.now.y ∷ decimal place.now.z ∷ []) }
{
    begin(line, b"SHOW");
    push_word(line, name.as_bytes());
    push_number(line, step);
    push_number(line, atom);
    push_number(line, place.x);
    push_number(line, place.y);
    push_number(line, place.z);
    end(line);
}

/// Writes `OK MEASURE s step atoms`, the head of the reply to MEASURE.
fn begin_measured(line: &mut Line, name: &Name, step: i64, atoms: usize)
    ensures text { line.new.items ≡ codes "OK" ++ blank_and (codes "MEASURE") ++ blank_and name.now
        ++ blank_and (signed_decimal step) ++ blank_and (decimal atoms) }
    ensures count { array_vec_len line.new ≤ 78 }
{
    begin(line, b"MEASURE");
    push_word(line, name.as_bytes());
    push_number(line, step);
    push_number(line, atoms);
}

/// Appends the three components of a momentum.
fn push_momentum(line: &mut Line, momentum: &[i64; 3])
    requires { array_vec_len line.old + 63 ≤ MAX_REPLY_LINE_BYTES }
    ensures text { line.new.items ≡ line.old.items ++ flat_map blank_and (map signed_decimal momentum.now) }
    ensures count { array_vec_len line.new ≤ array_vec_len line.old + 63 }
{
    let [x, y, z] = momentum;
    push_number(line, *x);
    push_number(line, *y);
    push_number(line, *z);
}

/// Writes a line of a frame with its line feed.
fn frame_line(line: &mut Line, text: &FrameLine)
    ensures { line.new.items ≡ ended_line text.now.items }
{
    line.clear();
    push(line, text.as_slice());
    end(line);
}

/// Writes the line of a refusal.
pub fn put_refusal_line(line: &mut Line, refusal: Refusal)
    ensures { line.new.items ≡ ended_line (refusal_text refusal) }
{
    line.clear();
    let number = refusal.number();
    push(line, b"ERR ");
    push(line, Buffer::new().format(number / 10).as_bytes());
    push(line, Buffer::new().format(number % 10).as_bytes());
    push_word(line, refusal.name().as_bytes());
    if let Refusal::Xyz(fault) = refusal {
        push(line, b" line");
        push_number(line, fault.line);
    }
    end(line);
}

/// Writes `OK MEASURE s step atoms mx my mz kinetic potential`.
fn measured_line(
    line: &mut Line,
    name: &Name,
    step: i64,
    atoms: usize,
    momentum: &[i64; 3],
    kinetic: u128,
    potential: i128,
)
    ensures { line.new.items ≡ ok_line (codes "MEASURE" ∷ name.now ∷ signed_decimal step ∷ decimal atoms
        ∷ (map signed_decimal momentum.now ++ decimal kinetic ∷ signed_decimal potential ∷ [])) }
{
    begin_measured(line, name, step, atoms);
    push_momentum(line, momentum);
    push_number(line, kinetic);
    push_number(line, potential);
    end(line);
}

/// Writes `OK LIST k`.
fn listed_line(line: &mut Line, sessions: usize)
    ensures { line.new.items ≡ ok_line (codes "LIST" ∷ decimal sessions ∷ []) }
{
    begin(line, b"LIST");
    push_number(line, sessions);
    end(line);
}

/// Writes the line of a session in a list: its name, the step that it goes to, its number of atoms and its number of branches.
fn entry_line(line: &mut Line, name: &Name, step: i64, atoms: usize, branches: usize)
    ensures { line.new.items
        ≡ line_of (name.now ∷ signed_decimal step ∷ decimal atoms ∷ decimal branches ∷ []) }
{
    line.clear();
    push(line, name.as_bytes());
    push_number(line, step);
    push_number(line, atoms);
    push_number(line, branches);
    end(line);
}

/// Writes the line of the i-th session in a list.
fn session_line(line: &mut Line, state: &UserState, i: usize)
    requires { i < length state.now.sessions }
    ensures { Some line.new.items ≡ option_map session_line (slice_get (user_of state.now).sessions i) }
{
    let sim = state.sim_at(i);
    let branches = state.branches_at(i);
    entry_line(
        line,
        state.name_at(i),
        state.target_at(i),
        sim.count(),
        branches.len(),
    );
}

/// Writes the line of the i-th branch of a session.
fn branch_line(line: &mut Line, branches: &Branches, i: usize)
    requires { i < length branches.now }
    ensures { Some line.new.items ≡ option_map branch_line (slice_get branches.now i) }
{
    line.clear();
    push(line, branches.name_at(i).as_bytes());
    push_number(line, branches.step_at(i));
    end(line);
}

/// Writes the line of an atom in a frame of the i-th session.
fn atom_line(line: &mut Line, state: &UserState, i: usize, atom: usize)
    requires session { i < length state.now.sessions }
    requires atom { ForSome (live_session_at state.now i) (λ session. atom < length session.live.sim.cur) }
    ensures { IfSome (live_session_at state.now i) (λ session.
        Some line.new.items
        ≡ slice_get (atom_lines (edge_of session.live.composition.mix) session.symbols session.live.sim.cur) atom) }
{
    let edge = state.edge_at(i);
    let Place { x, y, z } = state.sim_at(i).place(atom);
    let symbol = state.symbol_at(i, atom);
    line.clear();
    push_atom_line(
        line,
        symbol,
        micro_of(x, &edge),
        micro_of(y, &edge),
        micro_of(z, &edge),
    );
    end(line);
}

/// Writes the line of a reply that has only one.
#[tactic(auto, unfolding(crate::specs::ReplyTexts::reply_lines, crate::specs::ReplyTexts::text))]
fn only_line(line: &mut Line, reply: &Reply)
    requires { is_one_line reply.now ≡ true }
    ensures { (user : User) → reply_lines user reply.now ≡ line.new.items ∷ [] }
{
    match reply {
        Reply::Loaded { name, atoms } => loaded_line(line, b"LOAD", name, *atoms),
        Reply::LoadedMix { name, atoms } => loaded_line(line, b"LOADMIX", name, *atoms),
        Reply::Advanced { name, step } => number_line(line, b"ADVANCE", name, *step),
        Reply::Started { name, step } => number_line(line, b"START", name, *step),
        Reply::Reversed { name, step } => number_line(line, b"REVERSE", name, *step),
        Reply::Branched { name, branch, step } => names_and_step_line(
            line, b"BRANCH", name, branch, *step,
        ),
        Reply::Restored { name, branch, step } => names_and_step_line(
            line, b"RESTORE", name, branch, *step,
        ),
        Reply::Forgotten { name, branch } => names_line(line, b"FORGET", name, branch),
        Reply::Tugged { name, atom, step } => numbers_line(line, b"TUG", name, *atom, *step),
        Reply::Measured {
            name,
            step,
            atoms,
            momentum,
            kinetic,
            potential,
        } => { measured_line(line, name, *step, *atoms, momentum, *kinetic, *potential) }
        Reply::Shown {
            name,
            step,
            atom,
            place,
        } => shown_line(line, name, *step, *atom, place),
        Reply::Unloaded { name } => name_line(line, b"DROP", name),
        Reply::Bye => bye_line(line),
        Reply::Refused(refusal) => put_refusal_line(line, *refusal),
        Reply::Dumped { .. } | Reply::Listed | Reply::ListedBranches { .. } => unreachable!(),
    }
}

/// Writes line k of the reply to LIST. None past the last line.
fn list_line(line: &mut Line, state: &UserState, k: usize) -> Option<()>
    ensures text { option_map (λ _. line.new.items) result ≡ slice_get (session_lines (user_of state.now)) k }
    ensures unchanged { IfNone result (line.new ≡ line.old) }
{
    let count = state.len();
    if k == 0 {
        listed_line(line, count);
        return Some(());
    }
    if k > count {
        return None;
    }
    session_line(line, state, k - 1);
    Some(())
}

/// Writes line k of the reply to LIST of the i-th session, which has this name. None past the last line.
fn branches_line(line: &mut Line, state: &UserState, i: usize, name: &Name, k: usize) -> Option<()>
    requires { i < length state.now.sessions }
    ensures text { IfSome (live_session_at state.now i) (λ session.
        option_map (λ _. line.new.items) result
        ≡ slice_get (branch_lines name.now (Some (settled_session session))) k) }
    ensures unchanged { IfNone result (line.new ≡ line.old) }
{
    let branches = state.branches_at(i);
    let count = branches.len();
    if k == 0 {
        number_line(line, b"LIST", name, count);
        return Some(());
    }
    if k > count {
        return None;
    }
    branch_line(line, branches, k - 1);
    Some(())
}

/// Writes line k of the reply to DUMP of the i-th session, which has this name and no pending step. None past the last line.
fn dump_line(line: &mut Line, state: &UserState, i: usize, name: &Name, k: usize) -> Option<()>
    requires session { i < length state.now.sessions }
    requires settled { ForSome (live_session_at state.now i) (λ session. session.pending ≡ 0) }
    ensures text { IfSome (live_session_at state.now i) (λ session.
        option_map (λ _. line.new.items) result
        ≡ slice_get (dump_lines name.now (Some (settled_session session))) k) }
    ensures unchanged { IfNone result (line.new ≡ line.old) }
{
    let sim = state.sim_at(i);
    let atoms = sim.count();
    match k {
        0 => numbers_line(line, b"DUMP", name, sim.step(), atoms + 2),
        1 => frame_line(line, &lj_xyz::count_line(atoms)),
        2 => frame_line(line, &lj_xyz::comment_line(sim.step())),
        _ if k - 3 < atoms => atom_line(line, state, i, k - 3),
        _ => return None,
    }
    Some(())
}

/// Returns line k of a reply, counted from 0, with the state of the user after the command; None past the last line.
///
/// Promise: the result is line k of the defined reply, or `None` if no line k exists.
pub fn reply_line(state: &UserState, reply: &Reply, k: usize) -> Option<Line>
    requires settled { IsSettled state.now reply.now }
    ensures { option_map (λ line. line.items) result
        ≡ slice_get (reply_lines (user_of state.now) reply.now) k }
{
    let mut line = Line::new();
    put_reply_line(&mut line, state, reply, k)?;
    Some(line)
}

/// Writes line k of a reply, counted from 0, into `line`, with the state of the user after the command. Past the last line it
/// returns None and leaves `line` as it was.
pub fn put_reply_line(line: &mut Line, state: &UserState, reply: &Reply, k: usize) -> Option<()>
    requires settled { IsSettled state.now reply.now }
    ensures text { option_map (λ _. line.new.items) result
        ≡ slice_get (reply_lines (user_of state.now) reply.now) k }
    ensures unchanged { IfNone result (line.new ≡ line.old) }
{
    put_line_at(line, state, reply, listed_session(state, reply), k)
}

/// Returns the index of the session whose atoms or branches a reply lists. None where the reply lists neither, or no session has
/// the name.
pub fn listed_session(state: &UserState, reply: &Reply) -> Option<usize>
    ensures { result ≡ listed_session state.now reply.now }
{
    match reply {
        Reply::Dumped { name } | Reply::ListedBranches { name } => state.index_of(name),
        _ => None,
    }
}

/// Does the same as `put_reply_line`, given the result of `listed_session`: a caller that writes all lines of a reply looks its
/// session up once.
#[tactic(auto, unfolding(crate::specs::ReplyTexts::reply_lines))]
pub fn put_line_at(
    line: &mut Line,
    state: &UserState,
    reply: &Reply,
    session: Option<usize>,
    k: usize,
) -> Option<()>
    requires settled { IsSettled state.now reply.now }
    requires session { session ≡ listed_session state.now reply.now }
    ensures text { option_map (λ _. line.new.items) result
        ≡ slice_get (reply_lines (user_of state.now) reply.now) k }
    ensures unchanged { IfNone result (line.new ≡ line.old) }
{
    match reply {
        Reply::Dumped { name } => match session {
            Some(i) => dump_line(line, state, i, name, k),
            None => None,
        },
        Reply::Listed => list_line(line, state, k),
        Reply::ListedBranches { name } => match session {
            Some(i) => branches_line(line, state, i, name, k),
            None => None,
        },
        _ if k == 0 => {
            only_line(line, reply);
            Some(())
        }
        _ => None,
    }
}

/// Returns an upper bound of the number of the last line of a reply, counted from 0, with the state of the user after the
/// command.
#[tactic(auto, using(crate::proofs::ReplyLines::index_within))]
pub fn last_line(state: &UserState, reply: &Reply) -> usize
    ensures { length (reply_lines (user_of state.now) reply.now) ≤ result + 1 }
{
    match reply {
        Reply::Dumped { name } => match state.index_of(name) {
            Some(i) => state.sim_at(i).count() + 2,
            None => 0,
        },
        Reply::Listed => state.len(),
        Reply::ListedBranches { name } => match state.index_of(name) {
            Some(i) => state.branches_at(i).len(),
            None => 0,
        },
        _ => 0,
    }
}
