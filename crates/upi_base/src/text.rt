//! A small text of some grammar.
ghost use Rattle.std.specs.Prelude.{◌≡◌, ⊤, [], ◌∷◌, ◌<◌, IsTrue, IfOk, MatchOption, true, false, length, Some, refl, List, ℕ, Bool};
ghost use Rattle.std.specs.Str.{bytes_eq};
ghost use Rattle.std.specs.Ordering.{nat_cmp};
ghost use Rattle.std.specs.Cmp.{partial_equiv_from_equiv};
ghost use Rattle.std.specs.Cmp.Lexicographic.{slice_cmp, nat_list_eq_equiv, nat_list_cmp_total, texts_po, texts_ties};
ghost use Rattle.std.specs.Cmp.Rules.{hashing};
ghost use Rattle.std.proofs.Common.{rules};
ghost use Rattle.upi_base.specs.Texts.{fits};

use std::alloc::AllocError;
use std::cmp::Ordering;
use std::hash::{Hash, Hasher};
use std::marker::{Model, PhantomData};

/// A grammar of small texts.
pub trait Rule {
    ghost allows: { List ℕ → Bool };

    /// Whether the rule allows a text.
    fn allows(text: &[u8]) -> bool
        ensures { result ≡ allows text.now };
}

/// A text of at most `N` bytes that a rule allows. It lies in the value itself.
#[derive(Drop)]
pub struct Text<R: Rule, const N: usize> {
    len: u8,
    cells: [u8; N],
    rule: PhantomData<R>,
}

impl<R: Rule, const N: usize> Model for Text<R, N> {
    ghost use Rattle.std.specs.Prelude.{List, ℕ, take};
    ghost use Rattle.upi_base.specs.Texts.{IsHeld};

    ghost Value = { List ℕ };

    ghost view = { λ t. take t.len t.cells };

    ghost invariant = { λ t. IsHeld N R.allows t.len t.cells };
}

impl<R: Rule, const N: usize> Text<R, N> {
    /// The text, if it has at most `N` bytes and the rule allows it.
    pub fn read(text: &[u8]) -> Option<Text<R, N>>
        requires { N < 256 }
        ensures found { MatchOption result (fits N R.allows text.now ≡ false)
            (λ t. (fits N R.allows text.now ≡ true) × (t ≡ text.now)) }
    {
        if text.len() > N || !R::allows(text) {
            return None;
        }
        let mut cells = [0; N];
        cells[..text.len()].copy_from_slice(text);
        Some(Text {
            len: text.len() as u8,
            cells,
            rule: PhantomData,
        })
    }

    /// The same text.
    pub fn copy(&self) -> Text<R, N>
        ensures { result ≡ self.now }
    {
        Text {
            len: self.len,
            cells: self.cells,
            rule: PhantomData,
        }
    }

    /// Its bytes.
    pub fn bytes(&self) -> &[u8]
        ensures same { result.now ≡ self.now }
        ensures allowed { fits N R.allows self.now ≡ true }
    {
        &self.cells[..usize::from(self.len)]
    }
}

impl<R: Rule, const N: usize> Clone for Text<R, N> {
    ghost is_clone = { λ a b. b ≡ a };

    ghost is_infallible = { λ _. ⊤ };

    fn clone(&self) -> Result<Text<R, N>, AllocError> {
        Ok(self.copy())
    }
}

impl<R: Rule, const N: usize> PartialEq for Text<R, N> {
    ghost eq = { λ a b. bytes_eq a b };

    ghost laws = { partial_equiv_from_equiv nat_list_eq_equiv };

    fn eq(&self, other: &Text<R, N>) -> bool {
        self.bytes() == other.bytes()
    }
}

impl<R: Rule, const N: usize> Eq for Text<R, N> {
    ghost laws = { nat_list_eq_equiv };
}

impl<R: Rule, const N: usize> PartialOrd for Text<R, N> {
    ghost partial_cmp = { λ a b. Some (slice_cmp nat_cmp a b) };

    ghost laws = { texts_po };

    fn partial_cmp(&self, other: &Text<R, N>) -> Option<Ordering> {
        Some(self.cmp(other))
    }
}

impl<R: Rule, const N: usize> Ord for Text<R, N> {
    ghost cmp = { λ a b. slice_cmp nat_cmp a b };

    ghost total = { nat_list_cmp_total };

    ghost matches_partial_cmp = { λ a b. refl };

    ghost matches_eq = { texts_ties };

    fn cmp(&self, other: &Text<R, N>) -> Ordering {
        self.bytes().cmp(other.bytes())
    }
}

impl<R: Rule, const N: usize> Hash for Text<R, N> {
    ghost hash_input = { λ t. t ∷ [] };

    ghost respects_eq = { Prim.search (hashing, rules) };

    fn hash<H: Hasher>(&self, state: &mut H) {
        state.write(self.bytes());
    }
}
