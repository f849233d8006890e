//! Identifiers, numbered from 0 in the order in which they first came.

ghost use Rattle.std.specs.Prelude.{◌≡◌, ◌<◌, ◌^◌, ◌∷◌, ◌++◌, ◌↔◌, ◌-◌, ◌+◌, ◌≤◌, [], Some, drop, false, not, length};
ghost use Rattle.std.specs.Prelude.{position, slice_get, option_map, IfOk, IsTrue, OnErr, if◌then◌else◌};
ghost use Rattle.std.specs.List.{list_any};
ghost use Rattle.std.specs.Str.{bytes_eq};

use indexmap::IndexSet;
use std::alloc::{AllocError, Global};
use std::marker::Model;

/// Identifiers in the order in which they came, each once. An identifier is a string of bytes, compared exactly; its
/// number is its position in the order.
#[derive(Drop)]
pub struct Identifiers {
    set: IndexSet<Vec<u8>>,
}

impl Model for Identifiers {
    ghost use Rattle.std.specs.Prelude.{ℕ, List, map};

    ghost Value = { List (List ℕ) };

    ghost view = { λ a. map (λ v. v.items) a.set.keys };
}

impl Identifiers {
    /// No identifiers.
    pub fn new(alloc: Global) -> Identifiers
        ensures { result ≡ [] }
    {
        Identifiers {
            set: IndexSet::new(alloc),
        }
    }

    /// How many there are.
    pub fn len(&self) -> usize
        ensures len { result ≡ length self.now }
        ensures small { result < 2 ^ 63 }
    {
        self.set.len()
    }

    /// Whether there are none.
    pub fn is_empty(&self) -> bool
        ensures { IsTrue result ↔ (self.now ≡ []) }
    {
        self.len() == 0
    }

    /// The number of an identifier, if it is here.
    pub fn number(&self, id: &[u8]) -> Option<usize>
        ensures { result ≡ position (bytes_eq id.now) self.now }
    {
        self.set.get_index_of(id)
    }

    /// The number of an identifier, if it is here, as [`Identifiers::number`] gives it. It is found fastest if it is
    /// `guess` or the number after it.
    pub fn number_near(&self, id: &[u8], guess: usize) -> Option<usize>
        ensures { result ≡ position (bytes_eq id.now) self.now }
    {
        if self.has_at(id, guess) {
            return Some(guess);
        }
        let after = guess.saturating_add(1);
        if self.has_at(id, after) {
            return Some(after);
        }
        self.number(id)
    }

    /// Whether an identifier has this number.
    fn has_at(&self, id: &[u8], number: usize) -> bool
        ensures { IsTrue result → position (bytes_eq id.now) self.now ≡ Some number }
    {
        let ids = self.set.as_slice();
        number < ids.len() && are_equal(ids[number].as_slice(), id)
    }

    /// The identifier that has this number, if there is one.
    pub fn id(&self, number: usize) -> Option<&[u8]>
        ensures { option_map (λ s. s.now) result ≡ slice_get self.now number }
    {
        match self.set.get_index(number) {
            None => None,
            Some(id) => Some(id.as_slice()),
        }
    }

    /// Puts an identifier last unless it is here already, and says whether it was new.
    ///
    /// Only for a new identifier may it be out of memory.
    pub fn push(&mut self, alloc: Global, id: &[u8]) -> Result<bool, AllocError>
        ensures added { IfOk result (λ added. added ≡ not (list_any (bytes_eq id.now) self.old)) }
        ensures ids { IfOk result (λ added. self.new ≡ (if added then self.old ++ id.now ∷ [] else self.old)) }
        ensures err { OnErr result (self.new ≡ self.old) }
        ensures absent { OnErr result (list_any (bytes_eq id.now) self.old ≡ false) }
    {
        match Vec::from_slice(alloc, id) {
            Ok(copy) => Ok(self.set.insert(copy)?),
            Err(_) if self.set.contains(id) => Ok(false),
            Err(error) => Err(error),
        }
    }
}

/// Whether two identifiers are equal. Nearly all have 4 to 16 bytes, so two steps compare them: the first bytes, then
/// the last.
fn are_equal(a: &[u8], b: &[u8]) -> bool
    ensures { IsTrue result → a.now ≡ b.now }
{
    if a.len() != b.len() {
        return false;
    }
    match a.len() {
        4..=8 => ends_are_equal::<4>(a, b),
        9..=16 => ends_are_equal::<8>(a, b),
        _ => all_are_equal(a, b),
    }
}

/// Whether all bytes of two texts are equal. It is a function of its own, so that the compiler fetches no first byte
/// alone for it in `are_equal`.
#[inline(never)]
fn all_are_equal(a: &[u8], b: &[u8]) -> bool
    ensures { IsTrue result → a.now ≡ b.now }
{
    a == b
}

/// Whether the first `N` and the last `N` bytes of two texts of one length are equal. Together these are all bytes.
fn ends_are_equal<const N: usize>(a: &[u8], b: &[u8]) -> bool
    requires few { N ≤ 8 }
    requires same { length a.now ≡ length b.now }
    requires all { length a.now ≤ N + N }
    ensures { IsTrue result → a.now ≡ b.now }
{
    match (a.split_first_chunk::<N>(), b.split_first_chunk::<N>()) {
        (Some((a_first, _)), Some((b_first, _))) => a_first == b_first && last_are_equal::<N>(a, b),
        _ => all_are_equal(a, b),
    }
}

/// Whether the last `N` bytes of two texts of one length are equal.
fn last_are_equal<const N: usize>(a: &[u8], b: &[u8]) -> bool
    requires few { N ≤ 8 }
    requires same { length a.now ≡ length b.now }
    ensures { IsTrue result → drop (length a.now - N) a.now ≡ drop (length b.now - N) b.now }
{
    match (a.split_last_chunk::<N>(), b.split_last_chunk::<N>()) {
        (Some((_, a_last)), Some((_, b_last))) => a_last == b_last,
        _ => all_are_equal(a, b),
    }
}
