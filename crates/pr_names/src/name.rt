// A name in a fixed array.
ghost use Rattle.pr_names.specs.Above.{IsEndOfAll, IsLeastAbove, IsLeastAboveAll, after_all_of, after_of};
ghost use Rattle.pr_names.specs.Bound.{IsBound};
ghost use Rattle.pr_names.specs.Name.{IsName, Allowed};
ghost use Rattle.pr_names.specs.Order.{name_lt};
ghost use Rattle.pr_names.specs.Read.{name_read};
ghost use Rattle.std.specs.Prelude.{◌≡◌, ◌≤◌, ◌<◌, ◌↔◌, ◌∷◌, [], length, ◌++◌, drop, nat_eq, nat_lt, Some, IfOk, not};
ghost use Rattle.std.specs.List.{position};
ghost use Rattle.pr_names.specs.Byte.{allowed};
ghost use Rattle.std.specs.Cmp.Lexicographic.{slice_cmp, texts_po, texts_ties};
ghost use Rattle.std.specs.Ordering.{nat_cmp};
ghost use Rattle.std.proofs.Common.{refl, rules};
ghost use Rattle.std.specs.Hash as fed;
ghost use Rattle.std.specs.Cmp.Rules.{hashing};
ghost use Rattle.std.proofs.lemmas.Cmp.{nat_list_cmp_total, nat_list_eq_equiv};
ghost use Rattle.std.specs.Cmp.{partial_equiv_from_equiv};
ghost use lib.Pointwise.{pointwise};

use crate::{Bound, byte, eights};
use std::cmp::Ordering;
use std::hash::{Hash, Hasher};
use std::marker::Model;

/// Why bytes are no name: there are none, there are more than 64, or the first that is not allowed.
#[derive(Clone, Copy, Debug, PartialEq, Eq)]
pub enum NameFault {
    Empty,
    TooLong { len: usize },
    BadByte { at: usize },
}

/// The name of an object: 1 to 64 bytes of `a-z 0-9 - . / _`, ordered by bytes. It lies in a fixed array, is `Copy`,
/// and no call takes memory; each takes time linear in the bytes.
#[derive(Clone, Copy, Debug)]
pub struct Name {
    bytes: [u8; 64],
    len: u8,
}

impl Model for Name {
    ghost use Rattle.std.specs.Prelude.{List, ℕ};

    ghost Value = { List ℕ };

    ghost use Rattle.pr_names.specs.Padded.{shown, IsPadded, padded, padded_ok};
    ghost use Rattle.std.specs.Prelude.{length};

    ghost view = { λ n. shown n.bytes n.len };

    ghost invariant = { λ n. IsPadded n.bytes n.len };

    ghost inverse = { λ xs. record { bytes = padded xs; len = length xs } };

    ghost inverse_ok = { λ a h. padded_ok a h };
}

impl Name {
    /// The name of these bytes, or the first fault.
    pub fn read(bytes: &[u8]) -> Result<Name, NameFault>
        ensures value { result ≡ name_read bytes.now }
        ensures name { IfOk result (λ n. IsName n) }
    {
        if bytes.is_empty() {
            return Err(NameFault::Empty);
        }
        if bytes.len() > 64 {
            return Err(NameFault::TooLong { len: bytes.len() });
        }
        match first_bad(bytes) {
            Some(at) => Err(NameFault::BadByte { at }),
            None => Ok(of(bytes)),
        }
    }

    /// The name `-`, before which none comes.
    pub fn least() -> Name
        ensures { result ≡ 45 ∷ [] }
    {
        of(b"-")
    }

    /// Its bytes.
    pub fn bytes(&self) -> &[u8]
        ensures value { result.now ≡ self.now }
        ensures name { IsName self.now }
    {
        &self.bytes[..self.len as usize]
    }

    /// The least name greater than this one, or the end: the name followed by `-`, where it has fewer than 64 bytes.
    pub fn after(&self) -> Bound
        ensures value { result ≡ after_of self.now }
        ensures least { IsLeastAbove self.now result }
        ensures bound { IsBound result }
    {
        let bytes = self.bytes();
        if bytes.len() < 64 {
            Bound::At(followed(bytes, b'-'))
        } else {
            raised(bytes)
        }
    }

    /// The least name greater than every name that begins with this one, or the end: trailing `z` bytes are dropped,
    /// and the last byte before them is replaced by the next allowed one.
    pub fn after_all(&self) -> Bound
        ensures value { result ≡ after_all_of self.now }
        ensures least { IsLeastAboveAll self.now result }
        ensures those { IsEndOfAll self.now result }
        ensures bound { IsBound result }
    {
        raised(self.bytes())
    }

    /// Whether this name comes before the other, as `<` says.
    pub fn is_below(&self, other: &Name) -> bool
        ensures { result ≡ name_lt self.now other.now }
    {
        self.cmp(other).is_lt()
    }
}

impl PartialEq for Name {
    ghost eq = { pointwise nat_eq };

    ghost laws = { partial_equiv_from_equiv nat_list_eq_equiv };

    fn eq(&self, other: &Name) -> bool {
        self.bytes() == other.bytes()
    }
}

impl Eq for Name {
    ghost laws = { nat_list_eq_equiv };
}

impl PartialOrd for Name {
    ghost partial_cmp = { λ x y. Some (slice_cmp nat_cmp x y) };

    ghost laws = { texts_po };

    fn partial_cmp(&self, other: &Name) -> Option<Ordering> {
        Some(self.cmp(other))
    }
}

impl Ord for Name {
    ghost cmp = { slice_cmp nat_cmp };

    ghost total = { nat_list_cmp_total };

    ghost matches_partial_cmp = { λ x y. refl };

    ghost matches_eq = { texts_ties };

    fn cmp(&self, other: &Name) -> Ordering {
        eights::order(&self.bytes, &other.bytes)
    }
}

impl Hash for Name {
    ghost hash_input = { fed.slice fed.u8 };

    ghost respects_eq = { Prim.search (hashing, rules) };

    fn hash<H: Hasher>(&self, state: &mut H) {
        self.bytes().hash(state);
    }
}

// Where the first byte is that no name has.
fn first_bad(bytes: &[u8]) -> Option<usize>
    ensures { result ≡ position (λ b. not (allowed b)) bytes.now }
{
    bytes.iter().position(|b| !byte::is_allowed(*b))
}

// A name of these bytes.
fn of(bytes: &[u8]) -> Name
    requires { IsName bytes.now }
    ensures { result ≡ bytes.now }
{
    let len = bytes.len() as u8;
    let mut all = [0u8; 64];
    put_front(&mut all, bytes);
    Name { bytes: all, len }
}

// A name of these bytes and one more.
fn followed(front: &[u8], last: u8) -> Name
    requires { IsName (front.now ++ last ∷ []) }
    ensures { result ≡ front.now ++ last ∷ [] }
{
    let mut all = [0u8; 64];
    put_front(&mut all, front);
    all[front.len()] = last;
    of(&all[..front.len() + 1])
}

// The least name above all that begin with these bytes.
fn raised(bytes: &[u8]) -> Bound
    requires { IsName bytes.now }
    ensures { result ≡ after_all_of bytes.now }
{
    let mut len = bytes.len();
    while len > 0 {
        let last = bytes[len - 1];
        if last != b'z' {
            return Bound::At(followed(&bytes[..len - 1], byte::next(last)));
        }
        len -= 1;
    }
    Bound::End
}

// Writes the bytes over the front.
fn put_front(all: &mut [u8], bytes: &[u8])
    requires { length bytes.now ≤ length all.old }
    ensures { all.new ≡ bytes.now ++ drop (length bytes.now) all.old }
{
    all[..bytes.len()].copy_from_slice(bytes);
}
