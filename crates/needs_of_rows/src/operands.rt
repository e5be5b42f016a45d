//! Operands, where there are so many of them.
ghost use Rattle.std.specs.Option.{option_copied};
ghost use Rattle.std.specs.Prelude.{◌≡◌, option_map};
ghost use Rattle.needs_of_rows.specs.inner.Operands.{the_first, the_one, the_three, the_two};

use type_model::SemType;

/// The operand, where there is one alone.
pub(crate) fn one_of<'c>(operands: &'c [SemType]) -> Option<&'c SemType>
    ensures { option_copied result ≡ the_one operands.now }
{
    match operands {
        [] => None,
        [a] => Some(a),
        [_, _, ..] => None,
    }
}

/// Both operands, where there are two.
pub(crate) fn two_of<'c>(operands: &'c [SemType]) -> Option<(&'c SemType, &'c SemType)>
    ensures { option_map (λ p. (p.0.now, p.1.now)) result ≡ the_two operands.now }
{
    match operands {
        [] => None,
        [_] => None,
        [a, b] => Some((a, b)),
        [_, _, _, ..] => None,
    }
}

/// All operands, where there are three.
pub(crate) fn three_of<'c>(
    operands: &'c [SemType],
) -> Option<(&'c SemType, &'c SemType, &'c SemType)>
    ensures { option_map (λ p. (p.0.now, p.1.now, p.2.now)) result ≡ the_three operands.now }
{
    match operands {
        [] => None,
        [_] => None,
        [_, _] => None,
        [a, b, third] => Some((a, b, third)),
        [_, _, _, _, ..] => None,
    }
}

/// The first operand, and those behind it.
pub(crate) fn first_of<'c>(operands: &'c [SemType]) -> Option<(&'c SemType, &'c [SemType])>
    ensures { option_map (λ p. (p.0.now, p.1.now)) result ≡ the_first operands.now }
{
    match operands {
        [] => None,
        [first, more @ ..] => Some((first, more)),
    }
}
