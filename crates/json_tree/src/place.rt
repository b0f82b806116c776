//! Reading a text into the places of its values, one list for the whole text.
ghost use Rattle.std.specs.Prelude.{◌≡◌, ◌≢◌, ◌≤◌, Some, None, IfOk, IfSome, MatchOption, IsUtf8, map, option_map};
ghost use Rattle.std.specs.Str.{bytes_eq};
ghost use Rattle.json.specs.Tape.{node_token};
ghost use Rattle.json.specs.Find.{HasValue};
ghost use Rattle.serde_json.specs.Find.{get, as_str};
ghost use Rattle.serde_json.specs.Read.{read as read_tree};
ghost use Rattle.json_tree.specs.Placed.{placed, is_fit, after_token};

use crate::number::is_number;
use json::{Error, Node, Scratch, Tape};
use std::alloc::{AllocError, Global};

// How deep lists and objects nest at most, as in `serde_json`.
const MAX_DEPTH: usize = 127;

// How many lists and objects are open behind a node, where these are no more than that and its
// number is in range.
fn after(inside: usize, node: Node<'_>) -> Option<usize>
    requires { inside ≤ 127 }
    ensures value { result ≡ after_token inside (node_token node.entry) }
    ensures most { IfSome result (λ n. n ≤ 127) }
{
    match node {
        Node::Object(_) | Node::Array(_) => {
            if inside < MAX_DEPTH {
                Some(inside + 1)
            } else {
                None
            }
        }
        Node::EndObject | Node::EndArray => Some(inside.saturating_sub(1)),
        Node::Number(text) => { if is_number(text) { Some(inside) } else { None } }
        Node::Key(_) | Node::String(_) | Node::Bool(_) | Node::Null => Some(inside),
    }
}

// Whether lists and objects nest no deeper than that, and each number is in range.
fn is_fit(nodes: &[Node<'_>]) -> bool
    ensures { result ≡ is_fit 0 (map node_token nodes.now) }
{
    let mut inside = 0usize;
    'nodes: for node in nodes {
        match after(inside, *node) {
            Some(next) => inside = next,
            None => return false,
        }
    }
    true
}

// What is told where no value was read: that there is none, or no memory.
fn no_places<'a>(error: Error) -> Result<Option<Tape<'a>>, AllocError>
    ensures { IfOk result (λ o. (o ≡ None) × (error ≡ Error.Invalid)) }
{
    match error {
        Error::Invalid => Ok(None),
        Error::OutOfMemory => Err(AllocError),
        Error::TooLong => Err(AllocError),
        Error::DuplicateKey => Err(AllocError),
    }
}

// The places of a text's values, if it spells one.
fn places_of<'a>(
    alloc: Global,
    text: &'a str,
    scratch: &'a mut Scratch,
) -> Result<Option<Tape<'a>>, AllocError>
    ensures { IfOk result (λ o. option_map placed o ≡ read_tree text.now) }
{
    match Tape::parse(text, scratch, Vec::new(alloc)) {
        Ok(tape) => {
            if is_fit(tape.nodes()) {
                Ok(Some(tape))
            } else {
                Ok(None)
            }
        }
        Err(error) => no_places(error),
    }
}

/// The places of the values that bytes spell, if they spell one: what begins at the first is what
/// `serde_json` reads, which refuses bytes that are no UTF-8, and numbers past the range of a float.
/// Room that `scratch` has is used again. It fails only for want of memory.
pub fn places<'a>(
    alloc: Global,
    bytes: &'a [u8],
    scratch: &'a mut Scratch,
) -> Result<Option<Tape<'a>>, AllocError>
    ensures { IfOk result (λ o. MatchOption o (IsUtf8 bytes.now → read_tree bytes.now ≡ None)
        (λ t. IsUtf8 bytes.now × (read_tree bytes.now ≡ Some (placed t)))) }
{
    match simdutf8::compat::from_utf8(bytes) {
        Ok(text) => places_of(alloc, text, scratch),
        Err(_) => Ok(None),
    }
}
