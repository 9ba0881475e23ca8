//! Tests of those public library items that the dialogues in `tests/` do not cover. The tests have their own crate, since a
//! crate with tests is proved twice.
#![tactic(auto)]

#[cfg(test)]
mod books;
#[cfg(test)]
mod flushes;
#[cfg(test)]
mod pending_steps;
#[cfg(test)]
mod queues;
#[cfg(test)]
mod released_boxes;
#[cfg(test)]
mod replays;
#[cfg(test)]
mod sample_task;
#[cfg(test)]
mod servers;
#[cfg(test)]
mod strays;
#[cfg(test)]
mod tickets;
#[cfg(test)]
mod users;
#[cfg(test)]
mod visits;
#[cfg(test)]
mod worlds;
