//! Tests of machines by one caller. What no script says of the calls of a heap: numbers of processes, accounts, glances, refused
//! growths, by one table of calls and answers, which is made on the serial machine and on a kernel; and what the calls do that
//! only a kernel has. Readers and writers that fail, each prefix of a script, and what is reported of each fault. Whole scripts
//! stand in `scripts/`, with what they print.
#![tactic(auto)]

#[cfg(test)]
mod answers;
#[cfg(test)]
mod bytes;
#[cfg(test)]
mod growths;
#[cfg(test)]
mod harness;
#[cfg(test)]
mod ledgers;
#[cfg(test)]
mod machines;
#[cfg(test)]
mod places;
#[cfg(test)]
mod points;
#[cfg(test)]
mod prefixes;
#[cfg(test)]
mod several;
#[cfg(test)]
mod status;
#[cfg(test)]
mod steps;
#[cfg(test)]
mod streams;
#[cfg(test)]
mod without_memory;
