//! Tests of play, of full search, and of the search by proof numbers and its table. What these find is given to the checker. The
//! tests use only the public calls of the crates.
#![tactic(auto)]

#[cfg(test)]
mod expect;
#[cfg(test)]
mod few_turns;
#[cfg(test)]
mod found_proofs;
#[cfg(test)]
mod known_lemmas;
#[cfg(test)]
mod listed_moves;
#[cfg(test)]
mod play;
#[cfg(test)]
mod positions;
#[cfg(test)]
mod problems;
#[cfg(test)]
mod proof_numbers;
#[cfg(test)]
mod shapes;
#[cfg(test)]
mod short;
#[cfg(test)]
mod table;
#[cfg(test)]
mod wide_boards;
