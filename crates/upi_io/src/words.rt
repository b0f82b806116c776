//! The words of a command line.
ghost use Rattle.std.specs.Prelude.{◌≡◌, map, string_bytes, length, slice_get, option_map};
ghost use Rattle.upi_io.specs.Words.{is_one_word};

use std::marker::Model;

/// The words behind a program's name, as they were handed in. A contract sees the list of their bytes.
#[derive(Drop)]
pub struct Words {
    list: Vec<String>,
}

impl Model for Words {
    ghost use Rattle.std.specs.Prelude.{List, ℕ, map, string_bytes};

    ghost Value = { List (List ℕ) };

    ghost view = { λ w. map string_bytes w.list.items };
}

impl Words {
    /// These words.
    pub fn of(list: Vec<String>) -> Words
        ensures { result ≡ map string_bytes list.items }
    {
        Words { list }
    }

    /// The words, in order.
    pub fn as_slice(&self) -> &[String]
        ensures { map string_bytes result.now ≡ self.now }
    {
        &self.list
    }

    /// Whether they are one word, and it is this one.
    pub fn is_one_word(&self, word: &str) -> bool
        ensures { result ≡ is_one_word word.now self.now }
    {
        if self.list.len() != 1 {
            return false;
        }
        self.list[0].as_str() == word
    }
}
