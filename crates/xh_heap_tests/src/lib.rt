//! Programs over the heap: each call of a process, what a run refuses, what a handle leaves, and what a long run
//! goes by.
#![tactic(auto)]

#[cfg(test)]
mod bytes;
#[cfg(test)]
mod calls;
#[cfg(test)]
mod long;
#[cfg(test)]
mod runs;
#[cfg(test)]
mod threads;
