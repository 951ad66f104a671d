//! Eye shapes whose life or death every textbook tells, and what a search over a whole board says of them.
#![tactic(auto)]

#[cfg(test)]
mod asked;
#[cfg(test)]
mod shapes;
#[cfg(test)]
mod whole;
