//! Tests of sessions, of the lines of claims and of the libraries of the helper programs, of what no call of a program shows: devices
//! that fail, are interrupted or give a few bytes at a time. They use only the public calls of those libraries.
#![tactic(auto)]

#[cfg(test)]
mod expect;
#[cfg(test)]
mod interrupts;
#[cfg(test)]
mod lines;
#[cfg(test)]
mod parts;
#[cfg(test)]
mod pieces;
#[cfg(test)]
mod sessions;
