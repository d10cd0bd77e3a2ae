//! Tests of sessions, of one caller and of callers on threads, over their public calls. A program that does nothing, since it is
//! for its tests alone.
#![tactic(auto)]

#[cfg(test)]
mod batching;
#[cfg(test)]
mod callers;
#[cfg(test)]
mod doors;
#[cfg(test)]
mod lines;
#[cfg(test)]
mod looking;
#[cfg(test)]
mod meeting;
#[cfg(test)]
mod scenes;
#[cfg(test)]
mod sharing;

fn main(_rt: HostRuntime) {}
