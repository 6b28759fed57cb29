//! Names of transitions and places.
ghost use Rattle.std.specs.Prelude.{◌≡◌, ◌↔◌, IsTrue, IsFalse, IfOk, Err, Some, nat_eq, refl};
ghost use Rattle.std.specs.Cmp.{partial_equiv_from_equiv};
ghost use Rattle.std.specs.Cmp.Lexicographic.{pointwise, slice_cmp, nat_list_eq_equiv, nat_list_cmp_total, texts_po, texts_ties};
ghost use Rattle.std.specs.List.{list_all};
ghost use Rattle.std.specs.Ordering.{nat_cmp};
ghost use Rattle.teg_net.specs.Names.{is_name, is_name_byte};

use std::alloc::{AllocError, Global};
use std::cmp::Ordering;
use std::error::Error;
use std::fmt;
use std::marker::Model;

/// A text that can name a transition or a place: 1 to 64 bytes, each at least 0x21 and none of
/// `"`, `,` and 0x7F. Letters past ASCII are allowed. Contracts see its bytes: two names are equal
/// where these are, and come in their order, byte by byte.
#[derive(Debug, Drop)]
pub struct Name {
    text: String,
}

impl Model for Name {
    ghost use Rattle.std.specs.Prelude.{List, ℕ, string_bytes, IsTrue};
    ghost use Rattle.teg_net.specs.Names.{is_name};

    ghost Value = { List ℕ };

    ghost view = { λ n. string_bytes n.text };

    ghost invariant = { λ n. IsTrue (is_name (string_bytes n.text)) };
}

/// Why a text becomes no name.
#[derive(Clone, Copy, Debug, PartialEq, Eq)]
pub enum NameRefused {
    /// The text is no name.
    Bad,
    /// No memory was found for the copy.
    OutOfMemory,
}

impl fmt::Display for NameRefused {
    fn fmt<W: fmt::Write>(&self, f: &mut fmt::Formatter<W>) -> fmt::Result {
        match self {
            NameRefused::Bad => f.write_str("the text is no name"),
            NameRefused::OutOfMemory => f.write_str("out of memory"),
        }
    }
}

impl Error for NameRefused {}

impl fmt::Display for Name {
    ghost use Rattle.std.specs.Prelude.{Some};

    ghost output = { λ name. Some name };

    fn fmt<W: fmt::Write>(&self, f: &mut fmt::Formatter<W>) -> fmt::Result {
        f.write_str(self.text.as_str())
    }
}

impl PartialEq for Name {
    ghost eq = { pointwise nat_eq };

    ghost laws = { partial_equiv_from_equiv nat_list_eq_equiv };

    #[tactic(auto, using(crate::proofs::SameLists::equal_lists_told))]
    fn eq(&self, other: &Name) -> bool
        ensures value { result ≡ pointwise nat_eq self.now other.now }
        ensures same { IsTrue result ↔ (self.now ≡ other.now) }
    {
        self.text.as_str() == other.text.as_str()
    }
}

impl Eq for Name {
    ghost laws = { nat_list_eq_equiv };
}

impl PartialOrd for Name {
    ghost partial_cmp = { λ a b. Some (slice_cmp nat_cmp a b) };

    ghost laws = { texts_po };

    fn partial_cmp(&self, other: &Name) -> Option<Ordering> {
        Some(self.cmp(other))
    }
}

impl Ord for Name {
    ghost cmp = { slice_cmp nat_cmp };

    ghost total = { nat_list_cmp_total };

    ghost matches_partial_cmp = { λ a b. refl };

    ghost matches_eq = { texts_ties };

    fn cmp(&self, other: &Name) -> Ordering {
        self.text.as_str().cmp(other.text.as_str())
    }
}

// Whether a name may have the byte.
fn is_name_byte(byte: u8) -> bool
    ensures { result ≡ is_name_byte byte }
{
    0x21 <= byte && byte != b'"' && byte != b',' && byte != 0x7F
}

// Whether a name may have each byte of the text.
fn has_name_bytes(text: &str) -> bool
    ensures { result ≡ list_all is_name_byte text.now }
{
    text.as_bytes().iter().all(|byte| is_name_byte(*byte))
}

// Whether the text can be a name.
fn is_name(text: &str) -> bool
    ensures { result ≡ is_name text.now }
{
    let size = text.len();
    1 <= size && size <= 64 && has_name_bytes(text)
}

impl Name {
    /// A copy of the text. `Bad` comes exactly where the text is no name, and `OutOfMemory` only
    /// where no memory is found.
    pub fn new(alloc: Global, text: &str) -> Result<Name, NameRefused>
        ensures text { IfOk result (λ name. name ≡ text.now) }
        ensures name { IfOk result (λ name. IsTrue (is_name name)) }
        ensures bad { (result ≡ Err NameRefused.Bad) ↔ IsFalse (is_name text.now) }
    {
        if !is_name(text) {
            return Err(NameRefused::Bad);
        }
        match String::from_str(alloc, text) {
            Ok(text) => Ok(Name { text }),
            Err(_) => Err(NameRefused::OutOfMemory),
        }
    }

    // The same name once more.
    pub(crate) fn copy(&self, alloc: Global) -> Result<Name, AllocError>
        ensures { IfOk result (λ copy. copy ≡ self.now) }
    {
        let text = String::from_str(alloc, self.text.as_str())?;
        Ok(Name { text })
    }

    /// The text. It takes no memory.
    pub fn as_str(&self) -> &str
        ensures text { result.now ≡ self.now }
        ensures name { IsTrue (is_name self.now) }
    {
        self.text.as_str()
    }
}
