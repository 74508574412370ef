ghost use Rattle.std.specs.Prelude.{◌≡◌, ◌≤◌, length, if◌then◌else◌, nat_eq, Some, refl};
ghost use Rattle.std.specs.Ordering.{nat_cmp};
ghost use Rattle.std.specs.Cmp.{partial_equiv_from_equiv};
ghost use Rattle.std.specs.Cmp.Lexicographic.{slice_cmp, pointwise, nat_list_eq_equiv, nat_list_cmp_total, texts_po, texts_ties};

use crate::text;
use crate::text::{NAME_BYTES, padded};
use std::cmp::Ordering;
use std::marker::Model;

/// A name in capitals: a letter, then letters, digits and `_`, then perhaps `$`; at most 31 bytes.
#[derive(Clone, Copy, Debug)]
pub struct Name {
    buffer: [u8; NAME_BYTES],
    count: usize,
}

impl Model for Name {
    ghost use Rattle.std.specs.Prelude.{List, ℕ, length, take};
    ghost use Rattle.bas_base.specs.Names.{HoldsText, padded_text};

    ghost Value = { List ℕ };

    ghost view = { λ name. take name.count name.buffer };

    ghost invariant = { λ name. HoldsText 31 name.buffer name.count };

    ghost inverse = { λ text. record { buffer = padded_text 31 text; count = length text } };
}

impl Name {
    ghost use Rattle.std.specs.Str.{str_to_ascii_uppercase};
    ghost use Rattle.bas_base.specs.Names.{is_name};

    /// The name that the text spells, or `None` where it spells none. Capitals are kept in place
    /// of small letters.
    pub fn of(text: &[u8]) -> Option<Name>
        ensures { result ≡ (if is_name text.now then Some (str_to_ascii_uppercase text.now) else None) }
    {
        if text::is_name(text) {
            let mut buffer: [u8; NAME_BYTES] = padded(text);
            buffer[..text.len()].make_ascii_uppercase();
            Some(Name {
                buffer,
                count: text.len(),
            })
        } else {
            None
        }
    }

    /// The bytes of the name, in capitals.
    pub fn bytes(&self) -> &[u8]
        ensures same { result.now ≡ self.now }
        ensures short { length result.now ≤ 31 }
    {
        &self.buffer[..self.count]
    }
}

impl PartialEq for Name {
    ghost eq = { pointwise nat_eq };

    ghost laws = { partial_equiv_from_equiv nat_list_eq_equiv };

    fn eq(&self, other: &Name) -> bool {
        self.bytes() == other.bytes()
    }
}

impl Eq for Name {
    ghost laws = { nat_list_eq_equiv };
}

impl PartialOrd for Name {
    ghost partial_cmp = { λ x y. Some (slice_cmp nat_cmp x y) };

    ghost laws = { texts_po };

    fn partial_cmp(&self, other: &Name) -> Option<Ordering> {
        Some(self.cmp(other))
    }
}

/// Names are in the order of their bytes.
impl Ord for Name {
    ghost cmp = { slice_cmp nat_cmp };

    ghost total = { nat_list_cmp_total };

    ghost matches_partial_cmp = { λ x y. refl };

    ghost matches_eq = { texts_ties };

    fn cmp(&self, other: &Name) -> Ordering {
        self.bytes().cmp(other.bytes())
    }
}
