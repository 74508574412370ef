ghost use Rattle.std.specs.Prelude.{◌≡◌, [], true, false, codes};
ghost use Rattle.std.specs.Str.{str_to_ascii_uppercase};
ghost use Rattle.bas_base.specs.Names.{is_name, is_file_name};

/// Which texts are names: a letter first, a `$` at the end alone, and at most 31 bytes.
pub fn worked_names()
    ensures letter { is_name (codes "x") ≡ true }
    ensures word { is_name (codes "Rate_2") ≡ true }
    ensures text { is_name (codes "CITY$") ≡ true }
    ensures longest { is_name (codes "ABCDEFGHIJKLMNOPQRSTUVWXYZ0123$") ≡ true }
    ensures too_long { is_name (codes "ABCDEFGHIJKLMNOPQRSTUVWXYZ01234$") ≡ false }
    ensures nothing { is_name [] ≡ false }
    ensures dollar_alone { is_name (codes "$") ≡ false }
    ensures dollar_inside { is_name (codes "A$B") ≡ false }
    ensures two_dollars { is_name (codes "A$$") ≡ false }
    ensures digit_first { is_name (codes "2A") ≡ false }
    ensures underscore_first { is_name (codes "_A") ≡ false }
    ensures space { is_name (codes "A B") ≡ false }
    ensures capitals { str_to_ascii_uppercase (codes "Rate_2$") ≡ codes "RATE_2$" }
{}

/// Which texts are file names: a letter or a digit first, and at most 68 bytes.
pub fn worked_file_names()
    ensures source { is_file_name (codes "a.bas") ≡ true }
    ensures digit_first { is_file_name (codes "2-b_C.dat") ≡ true }
    ensures longest { is_file_name (codes "00112233445566778899aabbccddeeff00112233445566778899aabbccddeeff.dat") ≡ true }
    ensures too_long { is_file_name (codes "00112233445566778899aabbccddeeff00112233445566778899aabbccddeeff.data") ≡ false }
    ensures nothing { is_file_name [] ≡ false }
    ensures point_first { is_file_name (codes ".bas") ≡ false }
    ensures folder { is_file_name (codes "a/b") ≡ false }
    ensures option { is_file_name (codes "-a") ≡ false }
{}
