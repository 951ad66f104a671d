//! Bytes, of which a few are kept in place. Contracts see them as a list.

ghost use Rattle.std.specs.Prelude.{◌≡◌, IfOk};

use std::alloc::{AllocError, Global};
use std::cmp::Ordering;
use std::marker::Model;

/// The greatest number of bytes that are kept in place.
const MAX_SHORT: usize = 22;

/// Where the bytes are: the first `len` bytes of an array, or in memory of their own. Nearly all names and values are short, so
/// reading them asks for no memory.
#[derive(Drop)]
enum HeldBytes {
    Short(usize, [u8; MAX_SHORT]),
    Long(Vec<u8>),
}

/// Bytes, which contracts see as a list.
#[derive(Drop)]
pub struct Bytes {
    held: HeldBytes,
}

impl Model for Bytes {
    ghost use Rattle.std.specs.Prelude.{List, ℕ};

    ghost Value = { List ℕ };

    ghost use Rattle.sgf_text.specs.Private.Held.{held_bytes, AreHeld};

    ghost view = { λ a. held_bytes a.held };

    ghost invariant = { λ a. AreHeld a.held };
}

impl PartialEq for Bytes {
    ghost use Rattle.std.specs.Str.{bytes_eq};
    ghost use Rattle.std.specs.Cmp.Rules.{comparing};
    ghost use Rattle.std.proofs.Common.{rules};

    ghost eq = { bytes_eq };

    ghost laws = { Prim.search (comparing, rules) };

    fn eq(&self, other: &Bytes) -> bool {
        self.as_slice() == other.as_slice()
    }
}

impl Eq for Bytes {
    ghost use Rattle.std.specs.Cmp.Rules.{comparing};
    ghost use Rattle.std.proofs.Common.{rules};

    ghost laws = { Prim.search (comparing, rules) };
}

impl PartialOrd for Bytes {
    ghost use Rattle.std.specs.Ordering.{as_partial_cmp};
    ghost use Rattle.std.specs.Cmp.{partial_order_from_agreeing_total};
    ghost use Rattle.std.specs.Cmp.Lexicographic.{nat_list_cmp_total, texts_ties};
    ghost use Rattle.std.proofs.Common.{refl};
    ghost use Rattle.sgf_text.specs.Bytes.{bytes_order};

    ghost partial_cmp = { as_partial_cmp bytes_order };

    ghost laws = { partial_order_from_agreeing_total bytes_order nat_list_cmp_total
        (λ a b. refl) texts_ties };

    fn partial_cmp(&self, other: &Bytes) -> Option<Ordering> {
        Some(self.cmp(other))
    }
}

impl Ord for Bytes {
    ghost use Rattle.std.specs.Cmp.Lexicographic.{nat_list_cmp_total, texts_ties};
    ghost use Rattle.std.proofs.Common.{refl};
    ghost use Rattle.sgf_text.specs.Bytes.{bytes_order};

    ghost cmp = { bytes_order };

    ghost total = { nat_list_cmp_total };

    ghost matches_eq = { texts_ties };

    ghost matches_partial_cmp = { λ a b. refl };

    fn cmp(&self, other: &Bytes) -> Ordering {
        self.as_slice().cmp(other.as_slice())
    }
}

impl Bytes {
    /// The bytes of a vector.
    pub fn from_vec(bytes: Vec<u8>) -> Self
        ensures { result ≡ bytes.items }
    {
        Bytes {
            held: HeldBytes::Long(bytes),
        }
    }

    /// A copy of the bytes. It allocates no memory if they are few.
    pub fn copy_from_slice(alloc: Global, bytes: &[u8]) -> Result<Self, AllocError>
        ensures { IfOk result (λ r. r ≡ bytes.now) }
    {
        let len = bytes.len();
        if len > MAX_SHORT {
            return Ok(Bytes::from_vec(bytes.to_vec(alloc)?));
        }
        let mut short = [0; MAX_SHORT];
        short[..len].copy_from_slice(bytes);
        Ok(Bytes {
            held: HeldBytes::Short(len, short),
        })
    }

    /// The bytes as a slice.
    pub fn as_slice(&self) -> &[u8]
        ensures { result.now ≡ self.now }
    {
        match &self.held {
            HeldBytes::Short(len, bytes) => &bytes[..*len],
            HeldBytes::Long(bytes) => bytes.as_slice(),
        }
    }
}
