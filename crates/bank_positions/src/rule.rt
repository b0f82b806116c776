//! The rule of the words: each is the total of what all shares have added to it.
use atomic_table::{Join, Play, Split, Table, TableRule};
use std::alloc::Global;
use std::collections::LinkedList;

/// What a seat has added to each word, and its parts of the right to know the whole. No value of it
/// is made.
pub struct Sums {
    pub parts: u64,
    pub added: LinkedList<u64>,
}

/// How many words and how many shares there are, which the table is told when it is made.
#[derive(Drop)]
pub struct Shape {
    pub words: u64,
    pub shares: u64,
}

/// The rule of the table.
pub struct Law;

impl TableRule<(), Sums, Shape> for Law {
    ghost use Rattle.std.specs.Prelude.{[]};
    ghost use Rattle.bank_positions.specs.calls.Rule.{Held, sums};

    ghost holds = { λ shape s. Held shape.words s };

    ghost first = { λ shape. sums shape.shares [] };
}

/// An amount is added to a word.
pub struct Adding;

impl Play<(), Sums> for Adding {
    ghost use Rattle.bank_positions.specs.calls.Rule.{Adds};

    ghost then = { Adds };
}

/// A word is read. Who has every part finds what it has added.
pub struct Reading;

impl Play<(), Sums> for Reading {
    ghost use Rattle.bank_positions.specs.calls.Rule.{Reads};

    ghost then = { Reads };
}

/// A seat gives one of its parts to a new one, and later takes in what that one added.
pub struct Cut;

impl Split<Sums> for Cut {
    ghost use Rattle.std.specs.Prelude.{◌-◌, []};
    ghost use Rattle.bank_positions.specs.calls.Rule.{sums};

    ghost left = { λ v. sums (v.parts - 1) v.added };

    ghost right = { λ v. sums 1 [] };
}

impl Join<Sums> for Cut {
    ghost use Rattle.std.specs.Prelude.{[]};
    ghost use Rattle.bank_positions.specs.calls.Rule.{sums, joined};

    ghost both = { joined };

    ghost spent = { sums 0 [] };
}

pub type Words = Table<(), Sums, Shape, Law, Global>;
