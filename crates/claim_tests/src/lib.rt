//! Tests of what no call of a program shows: claims that are cut off anywhere, that are as deep as they may be, that are held, lifted,
//! expanded or come from devices; audits of the largest trees; and values of problems. They use only the public calls of those
//! crates. What a call shows is a row of `tests/rows.jsonl`.
#![tactic(auto)]

#[cfg(test)]
mod audits;
#[cfg(test)]
mod cuts;
#[cfg(test)]
mod deep;
#[cfg(test)]
mod deepest;
#[cfg(test)]
mod expansions;
#[cfg(test)]
mod expect;
#[cfg(test)]
mod given_lines;
#[cfg(test)]
mod held;
#[cfg(test)]
mod lifts;
#[cfg(test)]
mod problems;
#[cfg(test)]
mod small_problems;
#[cfg(test)]
mod solutions;
#[cfg(test)]
mod sources;
