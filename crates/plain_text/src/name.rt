ghost use Rattle.std.specs.Prelude.{◌≡◌, Some, None, length, nat_eq, IsTrue, if◌then◌else◌};
ghost use Rattle.std.specs.List.{list_all};
ghost use Rattle.std.specs.Cmp.{partial_equiv_from_equiv};
ghost use Rattle.std.specs.Cmp.Lexicographic.{pointwise, nat_list_eq_equiv};
ghost use Rattle.std.specs.Cmp.Rules.{hashing};
ghost use Rattle.std.specs.Hash as fed;
ghost use Rattle.std.proofs.Common.{rules};
ghost use Rattle.plain_text.specs.Bytes.{is_run_byte, is_word};

use crate::bytes::{is_letter, is_run_byte};
use std::hash::{Hash, Hasher};
use std::marker::Model;

/// The most bytes that a name has.
pub const NAME_LIMIT: usize = 32;

/// A name: a letter followed by letters, digits and `_`, at most 32 bytes. The limit is own.
#[derive(Clone, Copy, Debug)]
pub struct Name {
    cells: [u8; 32],
    len: usize,
}

impl Model for Name {
    ghost use Rattle.std.specs.Prelude.{List, ℕ, take, length, ◌++◌, ◌-◌, replicate};
    ghost use Rattle.plain_text.specs.Name.{IsNamed, named_back, named_len};

    ghost Value = { List ℕ };

    ghost view = { λ n. take n.len n.cells };

    ghost invariant = { λ n. IsNamed n.cells n.len };

    ghost inverse = { λ xs. record { cells = xs ++ replicate (32 - length xs) 0; len = length xs } };

    ghost inverse_ok = { λ n h i. record {
      cells = named_back n.cells n.len h i;
      len = named_len n.cells n.len h i;
    } };
}

impl Name {
    /// The name of these bytes. None exactly where they are no name.
    pub fn of(bytes: &[u8]) -> Option<Name>
        ensures { result ≡ (if is_word bytes.now then Some bytes.now else None) }
    {
        if !is_word(bytes) {
            return None;
        }
        Some(Name::kept(bytes))
    }

    fn kept(bytes: &[u8]) -> Name
        requires { IsTrue (is_word bytes.now) }
        ensures { result ≡ bytes.now }
    {
        let mut cells = [0; 32];
        let len = bytes.len();
        fill(&mut cells[..len], bytes);
        Name { cells, len }
    }

    /// The bytes, which are a word.
    pub fn as_bytes(&self) -> &[u8]
        ensures value { result.now ≡ self.now }
        ensures word { IsTrue (is_word self.now) }
    {
        &self.cells[..self.len]
    }
}

fn all_run(bytes: &[u8]) -> bool
    ensures { result ≡ list_all is_run_byte bytes.now }
{
    bytes.iter().all(|byte| is_run_byte(*byte))
}

// Whether the bytes are a word.
fn is_word(bytes: &[u8]) -> bool
    ensures { result ≡ is_word bytes.now }
{
    let Some((first, rest)) = bytes.split_first() else {
        return false;
    };
    is_letter(*first) && all_run(rest) && rest.len() < NAME_LIMIT
}

fn fill(cells: &mut [u8], bytes: &[u8])
    requires { length cells.old ≡ length bytes.now }
    ensures { cells.new ≡ bytes.now }
{
    cells.copy_from_slice(bytes);
}

impl PartialEq for Name {
    ghost eq = { pointwise nat_eq };

    ghost laws = { partial_equiv_from_equiv nat_list_eq_equiv };

    fn eq(&self, other: &Name) -> bool {
        self.as_bytes() == other.as_bytes()
    }
}

impl Eq for Name {
    ghost laws = { nat_list_eq_equiv };
}

impl Hash for Name {
    ghost hash_input = { fed.slice fed.u8 };

    ghost respects_eq = { Prim.search (hashing, rules) };

    fn hash<H: Hasher>(&self, state: &mut H) {
        self.as_bytes().hash(state);
    }
}
