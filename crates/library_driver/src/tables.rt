//! A table of estimates.

use crate::refusal::{not_begun, say_refused};
use go_points::Colour;
use pn_table::{Key, Numbers, Table};
use std::io;
use std::num::NonZeroUsize;

/// How many keys are stored. There is room for all of them.
const KEYS: u32 = 96;

fn key_of(number: u32) -> Key {
    Key {
        position: u64::from(number),
        mover: Colour::Black,
        passes: 0,
    }
}

const NUMBERS: Numbers = Numbers {
    proof: 1,
    disproof: 2,
};

/// How many keys the table holds.
fn held(table: &mut Table) -> u32 {
    let mut count: u32 = 0;
    for number in 0..KEYS {
        if table.look(key_of(number)) == Some(NUMBERS) {
            count = count.saturating_add(1);
        }
    }
    count
}

/// Stores each key.
pub fn stored<R: Print + AllocGlobal>(rt: &R) -> io::Result<()> {
    let Some(room) = NonZeroUsize::new(200) else {
        return not_begun(rt);
    };
    let Ok(mut table) = Table::with_capacity(rt.alloc(), room) else {
        return not_begun(rt);
    };
    for number in 0..KEYS {
        let before = held(&mut table);
        if !table.store(key_of(number), NUMBERS) {
            say_refused(rt, held(&mut table) == before)?;
            let _stored = table.store(key_of(number), NUMBERS);
        }
    }
    let count = held(&mut table);
    println!(rt; "end: {count} keys")
}
