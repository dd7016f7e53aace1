//! Arenas, vaults and records by their public calls.
#![tactic(auto)]

#[cfg(test)]
mod answers;
#[cfg(test)]
mod arenas;
#[cfg(test)]
mod records;
#[cfg(test)]
mod vaults;
