ghost use Rattle.std.specs.Prelude.{◌≡◌, ◌≤◌, length, IsTrue, nat_eq, Some, refl};
ghost use Rattle.std.specs.Ordering.{nat_cmp};
ghost use Rattle.std.specs.Cmp.{partial_equiv_from_equiv};
ghost use Rattle.std.specs.Cmp.Lexicographic.{slice_cmp, pointwise, nat_list_eq_equiv, nat_list_cmp_total, texts_po, texts_ties};

use crate::text;
use crate::text::{FILE_NAME_BYTES, padded};
use std::cmp::Ordering;
use std::marker::Model;

/// The bytes are no file name.
#[derive(Clone, Copy, Debug)]
pub struct BadName;

/// The name of a file: 1 to 68 letters, digits, `.`, `_` and `-`, the first a letter or a digit.
#[derive(Clone, Copy, Debug)]
pub struct FileName {
    buffer: [u8; FILE_NAME_BYTES],
    count: usize,
}

impl Model for FileName {
    ghost use Rattle.std.specs.Prelude.{List, ℕ, length, take};
    ghost use Rattle.bas_base.specs.Names.{HoldsText, padded_text};

    ghost Value = { List ℕ };

    ghost view = { λ name. take name.count name.buffer };

    ghost invariant = { λ name. HoldsText 68 name.buffer name.count };

    ghost inverse = { λ text. record { buffer = padded_text 68 text; count = length text } };
}

impl FileName {
    ghost use Rattle.std.specs.Result.{OkIff};
    ghost use Rattle.bas_base.specs.Names.{is_file_name};

    /// The file name of these bytes, or `BadName` where they are none. Case is kept.
    pub fn of(text: &[u8]) -> Result<FileName, BadName>
        ensures { OkIff result (IsTrue (is_file_name text.now)) text.now }
    {
        if text::is_file_name(text) {
            Ok(FileName {
                buffer: padded(text),
                count: text.len(),
            })
        } else {
            Err(BadName)
        }
    }

    /// The bytes of the name.
    pub fn bytes(&self) -> &[u8]
        ensures same { result.now ≡ self.now }
        ensures short { length result.now ≤ 68 }
    {
        &self.buffer[..self.count]
    }
}

impl PartialEq for FileName {
    ghost eq = { pointwise nat_eq };

    ghost laws = { partial_equiv_from_equiv nat_list_eq_equiv };

    fn eq(&self, other: &FileName) -> bool {
        self.bytes() == other.bytes()
    }
}

impl Eq for FileName {
    ghost laws = { nat_list_eq_equiv };
}

impl PartialOrd for FileName {
    ghost partial_cmp = { λ x y. Some (slice_cmp nat_cmp x y) };

    ghost laws = { texts_po };

    fn partial_cmp(&self, other: &FileName) -> Option<Ordering> {
        Some(self.cmp(other))
    }
}

/// Names are in the order of their bytes.
impl Ord for FileName {
    ghost cmp = { slice_cmp nat_cmp };

    ghost total = { nat_list_cmp_total };

    ghost matches_partial_cmp = { λ x y. refl };

    ghost matches_eq = { texts_ties };

    fn cmp(&self, other: &FileName) -> Ordering {
        self.bytes().cmp(other.bytes())
    }
}
