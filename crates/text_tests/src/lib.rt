//! Tests of texts: SGF records, claims with their lines, and the words of the command line. They use only the public calls of those
//! crates.
#![tactic(auto)]

#[cfg(test)]
mod claims;
#[cfg(test)]
mod expect;
#[cfg(test)]
mod largest_claims;
#[cfg(test)]
mod narrow;
#[cfg(test)]
mod pasts;
#[cfg(test)]
mod sgf;
#[cfg(test)]
mod short_claims;
#[cfg(test)]
mod words;
