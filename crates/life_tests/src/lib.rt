//! Tests of life by shape, against a plain search in which the attacker alone plays, and of life by answers. One goes through half a million colourings,
//! which takes minutes before it is proved, so they are a crate of their own.
#![tactic(auto)]

#[cfg(test)]
mod answers;
#[cfg(test)]
mod plain;
#[cfg(test)]
mod shapes;
