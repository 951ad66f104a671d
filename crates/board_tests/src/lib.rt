//! Tests of points, keys, chains, boards and their turns. They call what those crates make public.
#![tactic(auto)]

#[cfg(test)]
mod boards;
#[cfg(test)]
mod chains;
#[cfg(test)]
mod expect;
#[cfg(test)]
mod keys;
#[cfg(test)]
mod lists;
#[cfg(test)]
mod points;
#[cfg(test)]
mod seen;
#[cfg(test)]
mod taken_back;
#[cfg(test)]
mod turns;
#[cfg(test)]
mod widest;
