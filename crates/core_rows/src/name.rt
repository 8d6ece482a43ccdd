// A name of at most twelve bytes, which contracts see as its bytes.
ghost use Rattle.std.specs.Prelude.{◌≡◌, ◌≤◌, ◌↔◌, ℕ, List, true, IsTrue, Some, length};
ghost use Rattle.std.specs.List.{list_all};
ghost use Rattle.core_rows.specs.Fields.{IsName, is_name_byte, name_of};
ghost use Rattle.core_rows.specs.Names.{padded};

use std::marker::Model;

/// A name: 1 to 12 bytes, each a capital letter or a digit. Contracts see its bytes.
#[derive(Clone, Copy, PartialEq, Eq, PartialOrd, Ord, Hash)]
pub struct Name {
    bytes: [u8; 12],
    len: u8,
}

impl Model for Name {
    ghost use Rattle.std.specs.Prelude.{List, ℕ, take, length};
    ghost use Rattle.std.proofs.Common.{refl};
    ghost use Rattle.core_rows.specs.Fields.{IsName};
    ghost use Rattle.core_rows.specs.Names.{padded, IsPadded, same_len};

    ghost Value = { List ℕ };

    ghost view = { λ a. take a.len a.bytes };

    ghost invariant = { λ a. IsPadded a.bytes a.len × IsName (take a.len a.bytes) };

    ghost inverse = { λ name. record { bytes = padded name; len = length name } };

    ghost inverse_ok = { λ a h. Prim.rw (h.0.filled, same_len a.bytes a.len h.0) refl };
}

impl Name {
    /// The bytes.
    pub fn bytes(&self) -> &[u8]
        ensures value { result.now ≡ self.now }
        ensures grammar { IsName self.now }
        ensures reads_back { name_of self.now ≡ Some self.now }
    {
        &self.bytes[..self.len as usize]
    }
}

fn is_name_byte(byte: u8) -> bool
    ensures { result ≡ is_name_byte byte }
{
    matches!(byte, b'A'..=b'Z' | b'0'..=b'9')
}

fn all_name_bytes(field: &[u8]) -> bool
    ensures { result ≡ list_all is_name_byte field.now }
{
    field.iter().all(|b| is_name_byte(*b))
}

fn is_name(field: &[u8]) -> bool
    ensures { IsTrue result ↔ IsName field.now }
{
    !field.is_empty() && field.len() <= 12 && all_name_bytes(field)
}

/// The bytes, and nought after them.
fn padded(name: &[u8]) -> [u8; 12]
    requires { length name.now ≤ 12 }
    ensures { result ≡ padded name.now }
{
    let mut bytes = [0u8; 12];
    bytes[..name.len()].copy_from_slice(name);
    bytes
}

/// The name that a field writes, None exactly where it writes none.
pub fn name_of(field: &[u8]) -> Option<Name>
    ensures { result ≡ name_of field.now }
{
    if !is_name(field) {
        return None;
    }
    Some(Name {
        bytes: padded(field),
        len: field.len() as u8,
    })
}

/// Two names are equal by `==` exactly where their bytes are equal.
pub fn names_equal_by_bytes()
    ensures { (a b : List ℕ) → (⟦<Name as PartialEq>⟧.eq a b ≡ true) ↔ (a ≡ b) }
{}
