//! The least of the rules that are broken.

ghost use Rattle.std.specs.Prelude.{◌≡◌};
ghost use Rattle.bas_operands.specs.Operands.{least as least_of, first_broken as first_broken_of};

/// The lesser of two rules, where there are any.
pub fn least(a: Option<u8>, b: Option<u8>) -> Option<u8>
    ensures { result ≡ least_of a b }
{
    match (a, b) {
        (None, _) => b,
        (Some(_), None) => a,
        (Some(m), Some(n)) => Some(m.min(n)),
    }
}

/// The least of three rules, where there are any.
pub fn least_of_three(a: Option<u8>, b: Option<u8>, c: Option<u8>) -> Option<u8>
    ensures { result ≡ least_of a (least_of b c) }
{
    least(a, least(b, c))
}

/// The first of some rules that is broken, where each comes with whether it is.
pub fn first_broken(rules: &[(u8, bool)]) -> Option<u8>
    ensures { result ≡ first_broken_of rules.now }
{
    for (rule, is_broken) in rules {
        if *is_broken {
            return Some(*rule);
        }
    }
    None
}
