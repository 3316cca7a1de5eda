ghost use Rattle.std.specs.Prelude.{◌≡◌, IfSome, IsSome, ◌↔◌, IsTrue, nat_eq, refl, Some};
ghost use Rattle.std.specs.Cmp.{partial_equiv_from_equiv};
ghost use Rattle.std.specs.List.{list_all};
ghost use Rattle.std.specs.Cmp.Lexicographic.{slice_cmp, texts_po, texts_ties};
ghost use Rattle.std.specs.Ordering.{nat_cmp};
ghost use Rattle.std.proofs.lemmas.Cmp.{nat_list_cmp_total, nat_list_eq_equiv};
ghost use lib.Pointwise.{pointwise};
ghost use Rattle.eris_txn.specs.Names.{is_name, is_name_byte};

use eris_base::{Dup, NoMemory, Same};
use std::alloc::Global;
use std::cmp::Ordering;
use std::marker::Model;

/// A key's name within its shard: 1 to 16 bytes of `a` to `z`, `0` to `9` and `_`. Contracts see its
/// bytes; names are ordered by them.
#[derive(Clone, Copy, Debug)]
pub struct Name {
    cells: [u8; 16],
    len: usize,
}

impl Model for Name {
    ghost use Rattle.std.specs.Prelude.{List, ℕ, take, replicate, ◌++◌, ◌-◌, length};
    ghost use Rattle.eris_txn.specs.NameCells.{AreCells, cells_back, len_back};

    ghost Value = { List ℕ };

    ghost view = { λ n. take n.len n.cells };

    ghost invariant = { λ n. AreCells n.cells n.len };

    ghost inverse = { λ bytes. record { cells = bytes ++ replicate (16 - length bytes) 0; len = length bytes } };

    ghost inverse_ok = { λ n facts i. record { cells = cells_back n.cells n.len facts i; len = len_back n.cells n.len facts i } };
}

impl Name {
    /// The name of these bytes. None exactly where they aren't 1 to 16 of the allowed ones. It takes no
    /// memory.
    pub fn new(bytes: &[u8]) -> Option<Name>
        ensures found { IsSome result ↔ IsTrue (is_name bytes.now) }
        ensures value { IfSome result (λ name. name ≡ bytes.now) }
    {
        let len = bytes.len();
        if len == 0 || len > 16 || !are_name_bytes(bytes) {
            return None;
        }
        let mut cells = [0; 16];
        cells[..len].copy_from_slice(bytes);
        Some(Name { cells, len })
    }

    /// The bytes of the name, 1 to 16 of the allowed ones. It takes no memory.
    pub fn bytes(&self) -> &[u8]
        ensures exact { result.now ≡ self.now }
        ensures fits { IsTrue (is_name self.now) }
    {
        &self.cells[..self.len]
    }
}

impl PartialEq for Name {
    ghost eq = { pointwise nat_eq };

    ghost laws = { partial_equiv_from_equiv nat_list_eq_equiv };

    fn eq(&self, other: &Name) -> bool {
        self.bytes() == other.bytes()
    }
}

impl Eq for Name {
    ghost laws = { nat_list_eq_equiv };
}

impl PartialOrd for Name {
    ghost partial_cmp = { λ some other. Some (slice_cmp nat_cmp some other) };

    ghost laws = { texts_po };

    fn partial_cmp(&self, other: &Name) -> Option<Ordering> {
        Some(self.cmp(other))
    }
}

impl Ord for Name {
    ghost cmp = { slice_cmp nat_cmp };

    ghost total = { nat_list_cmp_total };

    ghost matches_partial_cmp = { λ _ _. refl };

    ghost matches_eq = { texts_ties };

    fn cmp(&self, other: &Name) -> Ordering {
        self.bytes().cmp(other.bytes())
    }
}

impl Dup for Name {
    fn copy(&self, _: Global) -> Result<Name, NoMemory> {
        Ok(*self)
    }
}

impl Same for Name {
    fn same(&self, other: &Name) -> bool {
        self == other
    }
}

fn are_name_bytes(bytes: &[u8]) -> bool
    ensures { result ≡ list_all is_name_byte bytes.now }
{
    bytes.iter().all(|byte| is_name_byte(*byte))
}

/// Whether the byte can stand in a name: `a` to `z`, `0` to `9` or `_`.
pub fn is_name_byte(byte: u8) -> bool
    ensures { result ≡ is_name_byte byte }
{
    matches!(byte, b'a'..=b'z' | b'0'..=b'9' | b'_')
}
