//! The supplied functions, by their names.

ghost use Rattle.std.specs.Prelude.{◌≡◌, bytes_eq, take, drop};
ghost use Rattle.bas_ast.specs.Supplied as supplied;

fn spells(name: &[u8], other: &[u8]) -> bool
    ensures { result ≡ bytes_eq name.now other.now }
{
    name == other
}

fn is_first_supplied(name: &[u8]) -> bool
    ensures { result ≡ supplied.is_among name.now (take 10 supplied.supplied_names) }
{
    spells(name, b"ABS")
        || spells(name, b"SGN")
        || spells(name, b"INT")
        || spells(name, b"IP")
        || spells(name, b"FP")
        || spells(name, b"CEIL")
        || spells(name, b"MOD")
        || spells(name, b"REMAINDER")
        || spells(name, b"ROUND")
        || spells(name, b"TRUNCATE")
}

fn is_second_supplied(name: &[u8]) -> bool
    ensures { result ≡ supplied.is_among name.now (take 10 (drop 10 supplied.supplied_names)) }
{
    spells(name, b"SQR")
        || spells(name, b"MAX")
        || spells(name, b"MIN")
        || spells(name, b"MAXNUM")
        || spells(name, b"RND")
        || spells(name, b"EXTYPE")
        || spells(name, b"EXLINE")
        || spells(name, b"LBOUND")
        || spells(name, b"UBOUND")
        || spells(name, b"LEN")
}

fn is_third_supplied(name: &[u8]) -> bool
    ensures { result ≡ supplied.is_among name.now (drop 20 supplied.supplied_names) }
{
    spells(name, b"ORD")
        || spells(name, b"CHR$")
        || spells(name, b"POS")
        || spells(name, b"STR$")
        || spells(name, b"VAL")
        || spells(name, b"UCASE$")
        || spells(name, b"LCASE$")
        || spells(name, b"LTRIM$")
        || spells(name, b"RTRIM$")
        || spells(name, b"REPEAT$")
}

/// Whether a name, written in capitals, is that of a supplied function.
#[tactic(auto, unfolding(crate::specs::Supplied::is_supplied))]
pub fn is_supplied(name: &[u8]) -> bool
    ensures { result ≡ supplied.is_supplied name.now }
{
    is_first_supplied(name) || is_second_supplied(name) || is_third_supplied(name)
}
