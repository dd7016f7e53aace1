//! Channels and lines, and the plain machine, by their public calls.
#![tactic(auto)]

#[cfg(test)]
mod channels;
#[cfg(test)]
mod plain;
