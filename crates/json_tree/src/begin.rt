//! A spot in a text at which a value begins.
ghost use Rattle.std.specs.Prelude.{◌≤◌, ◌<◌, ◌+◌, ◌^◌};
ghost use Rattle.json_tree.specs.Placed.{HasFirst, HasInner, first_size, inner_size};

use json::{Element, Items};

/// Where a value begins in a text that was read.
#[derive(Drop)]
pub struct Spot<'t, 'a> {
    pub(crate) at: Element<'t, 'a>,
    // The text has no more tokens.
    pub(crate) most: usize,
    ghost within: { HasFirst at },
    ghost small: { first_size at ≤ most },
    ghost fits: { most < 2 ^ 64 },
}

/// Where items of a list begin, up to its end.
#[derive(Drop)]
pub struct Spots<'t, 'a> {
    pub(crate) rest: Items<'t, 'a>,
    // How many items came before.
    pub(crate) passed: usize,
    // The text has no more tokens.
    pub(crate) most: usize,
    ghost inside: { HasInner rest },
    ghost small: { passed + inner_size rest ≤ most },
    ghost fits: { most < 2 ^ 64 },
}
