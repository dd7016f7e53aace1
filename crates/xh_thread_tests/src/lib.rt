//! Tests of a kernel's calls on threads: messages from one to another, waits and what ends them, calls that are held in their
//! middle, numbers of strangers; and a gate that stops a worker. Runs of jobs are tested by `xh_heap_tests`.
#![tactic(auto)]

#[cfg(test)]
mod deadlines;
#[cfg(test)]
mod ends;
#[cfg(test)]
mod gates;
#[cfg(test)]
mod machines;
#[cfg(test)]
mod memory;
#[cfg(test)]
mod passing;
#[cfg(test)]
mod serving;
#[cfg(test)]
mod strangers;
#[cfg(test)]
mod waiting;
#[cfg(test)]
mod wiring;
