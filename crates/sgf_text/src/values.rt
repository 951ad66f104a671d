//! The values of a property. Contracts see them as a list.

ghost use Rattle.std.specs.Prelude.{◌≡◌, ◌++◌, [], IfOk, OnOk};

use crate::bytes::Bytes;
use std::alloc::{AllocError, Global};
use std::marker::Model;
use std::mem;

/// Where the values are: a single one in place, others in memory of their own.
#[derive(Drop)]
enum HeldValues {
    One([Bytes; 1]),
    Many(Vec<Bytes>),
}

/// The values of a property. Each is raw bytes, with its backslashes.
#[derive(Drop)]
pub struct Values {
    held: HeldValues,
}

impl Model for Values {
    ghost use Rattle.std.specs.Prelude.{List, ℕ};

    ghost Value = { List (List ℕ) };

    ghost use Rattle.sgf_text.specs.Private.Held.{held_values};

    ghost view = { λ a. held_values a.held };
}

impl Values {
    /// The values of a vector.
    pub fn from_vec(values: Vec<Bytes>) -> Self
        ensures { result ≡ values.items }
    {
        Values {
            held: HeldValues::Many(values),
        }
    }

    /// The values of a vector, which is empty then. If there is only one, the vector keeps its memory.
    pub(crate) fn taken_from(alloc: Global, values: &mut Vec<Bytes>) -> Self
        ensures values { result ≡ values.old.items }
        ensures rest { values.new.items ≡ [] }
    {
        if values.len() == 1 {
            if let Some(value) = values.pop() {
                return Values {
                    held: HeldValues::One([value]),
                };
            }
        }
        Values::from_vec(mem::replace(values, Vec::new(alloc)))
    }

    /// The values as a slice.
    pub fn as_slice(&self) -> &[Bytes]
        ensures { result.now ≡ self.now }
    {
        match &self.held {
            HeldValues::One(values) => values.as_slice(),
            HeldValues::Many(values) => values.as_slice(),
        }
    }

    /// The values as a vector.
    fn into_vec(self, alloc: Global) -> Result<Vec<Bytes>, AllocError>
        ensures { IfOk result (λ v. v.items ≡ self) }
    {
        let Values { held } = self;
        match held {
            HeldValues::One(mut one) => {
                let value = mem::replace(&mut one[0], Bytes::from_vec(Vec::new(alloc)));
                let mut values = Vec::new(alloc);
                values.push(value)?;
                Ok(values)
            }
            HeldValues::Many(values) => Ok(values),
        }
    }

    /// Appends values.
    pub(crate) fn append(&mut self, alloc: Global, values: Values) -> Result<(), AllocError>
        ensures { OnOk result (self.new ≡ self.old ++ values) }
    {
        let before = mem::replace(self, Values::from_vec(Vec::new(alloc)));
        let mut all = before.into_vec(alloc)?;
        let mut more = values.into_vec(alloc)?;
        all.append(&mut more)?;
        *self = Values::from_vec(all);
        Ok(())
    }
}
