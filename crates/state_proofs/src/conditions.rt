//! The conditions of a proof on the past, made of those of the proofs below it.

use crate::fingerprint::fingerprint_of;
use crate::proof::{Below, Branch, Conditions, OptionalNumber, Proof, Results, Span};
use crate::proofs::{Proofs, number_of};
use std::alloc::AllocError;

impl Proofs {
    /// The conditions of the proof.
    pub(crate) fn conditions_of(&self, proof: Proof) -> Conditions {
        self.conditions_at(proof.conditions())
    }

    fn conditions_at(&self, number: Option<u32>) -> Conditions {
        let Some(number) = number else {
            return Conditions::none();
        };
        match self.conditions.get(number as usize).copied() {
            Some(conditions) => conditions,
            None => Conditions::none(),
        }
    }

    /// The conditions of the proof below the branch.
    fn conditions_below(&self, branch: Branch) -> Conditions {
        self.conditions_at(self.number_below(branch))
    }

    /// The number of the conditions of the proof below the branch.
    fn number_below(&self, branch: Branch) -> Option<u32> {
        match branch.below() {
            Below::Won => None,
            Below::Proof(number) => self.get(number)?.conditions(),
        }
    }

    /// Keeps these conditions of a proof with these branches, and returns their number, if there are any. Those of a proof below
    /// are not kept again.
    pub(crate) fn keep_conditions(
        &mut self,
        branches: &[Branch],
        conditions: Conditions,
    ) -> Result<Option<u32>, AllocError> {
        if conditions.are_none() {
            return Ok(None);
        }
        for branch in branches {
            if self.conditions_below(*branch) == conditions {
                return Ok(self.number_below(*branch));
            }
        }
        let number = number_of(self.conditions.len())?;
        self.conditions.push(conditions)?;
        Ok(Some(number))
    }

    /// Gathers the results below the branches.
    fn gather_not(&mut self, branches: &[Branch]) -> Result<(), AllocError> {
        self.gathered.clear();
        let mut last = Span::none();
        for branch in branches {
            let not = self.conditions_below(*branch).not;
            // Proofs beside each other often share their list.
            if not.listed != last {
                self.gathered.join(self.lists.get(not.listed))?;
                last = not.listed;
            }
            self.gathered.join(self.lists.get(not.more))?;
        }
        Ok(())
    }

    /// The results of the proofs below the branches, and this one.
    pub(crate) fn add_not(
        &mut self,
        branches: &[Branch],
        reached: Option<u64>,
    ) -> Result<Results, AllocError> {
        if let Some(below) = self.results_of_one(branches) {
            let Some(position) = reached else {
                return Ok(below);
            };
            let fingerprint = fingerprint_of(position);
            if self.has_result(below, fingerprint) {
                return Ok(below);
            }
            if below.more.len() == 0 {
                let more = self.lists.add(&[fingerprint])?;
                return Ok(Results { more, ..below });
            }
        }
        self.gather_not(branches)?;
        if let Some(position) = reached {
            self.gathered.add(fingerprint_of(position))?;
        }
        self.add_results(branches)
    }

    fn has_result(&self, results: Results, fingerprint: u32) -> bool {
        self.lists.has(results.listed, fingerprint) || self.lists.has(results.more, fingerprint)
    }

    /// The results that are gathered, all those below the branches among them. They are those of one branch if these are as many,
    /// and the longest list of a branch is not kept again if little is added to it.
    fn add_results(&mut self, branches: &[Branch]) -> Result<Results, AllocError> {
        let count = self.gathered.as_slice().len();
        let longest = self.longest_below(branches);
        if longest.len() == count {
            return Ok(longest);
        }
        let listed = longest.listed;
        if count.saturating_sub(listed.len()) <= listed.len() / 2 {
            self.gathered.leave_out(self.lists.get(listed))?;
            let more = self.lists.add(self.gathered.as_slice())?;
            return Ok(Results { listed, more });
        }
        let listed = self.lists.add(self.gathered.as_slice())?;
        let more = Span::none();
        Ok(Results { listed, more })
    }

    /// The results below a branch that has the most of them.
    fn longest_below(&self, branches: &[Branch]) -> Results {
        let mut longest = Results::none();
        for branch in branches {
            let not = self.conditions_below(*branch).not;
            if not.len() > longest.len() {
                longest = not;
            }
        }
        longest
    }

    /// The results below the branches, if at most one of the branches has any.
    pub(crate) fn results_of_one(&self, branches: &[Branch]) -> Option<Results> {
        let mut found = Results::none();
        for branch in branches {
            let not = self.conditions_below(*branch).not;
            if not.len() > 0 {
                if found.len() > 0 {
                    return None;
                }
                found = not;
            }
        }
        Some(found)
    }

    /// The positions that the proofs below the branches need, and the barred ones, without the present one.
    pub(crate) fn add_had(
        &mut self,
        present: u64,
        branches: &[Branch],
        barred: &[u64],
    ) -> Result<OptionalNumber, AllocError> {
        self.needed.begin();
        let mut longest = OptionalNumber::none();
        for branch in branches {
            let had = self.conditions_below(*branch).had;
            self.needed.add_list(had)?;
            if self.needed.get(had).len() > self.needed.get(longest).len() {
                longest = had;
            }
        }
        self.add_barred(barred)?;
        self.needed.remove(present);
        self.needed.keep(longest)
    }

    fn add_barred(&mut self, barred: &[u64]) -> Result<(), AllocError> {
        for position in barred {
            self.needed.add(*position)?;
        }
        Ok(())
    }
}
