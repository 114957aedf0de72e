//! The kinds of faults of scopes, as numbers.
ghost use Rattle.std.specs.Prelude.{◌≡◌};
ghost use Rattle.oxc_sourcemap_c.specs.Words.{number_of_fault_kind, fault_kind_of};

use oxc_sourcemap_scopes::ScopesFaultKind;

/// The number of a kind, from 1.
pub(crate) fn number_of_fault_kind(kind: ScopesFaultKind) -> u32
    ensures { result ≡ number_of_fault_kind kind }
{
    match kind {
        ScopesFaultKind::NotADigit => 1,
        ScopesFaultKind::CutShort => 2,
        ScopesFaultKind::TooLarge => 3,
        ScopesFaultKind::MissingNumber => 4,
        ScopesFaultKind::BadIndex => 5,
        ScopesFaultKind::NothingOpen => 6,
        ScopesFaultKind::NotClosed => 7,
        ScopesFaultKind::TooDeep => 8,
        ScopesFaultKind::LeftOpen => 9,
        ScopesFaultKind::SplitTwice => 10,
    }
}

/// The kind with this number.
pub(crate) fn fault_kind_of(number: u32) -> Option<ScopesFaultKind>
    ensures { result ≡ fault_kind_of number }
{
    match number {
        1 => Some(ScopesFaultKind::NotADigit),
        2 => Some(ScopesFaultKind::CutShort),
        3 => Some(ScopesFaultKind::TooLarge),
        4 => Some(ScopesFaultKind::MissingNumber),
        5 => Some(ScopesFaultKind::BadIndex),
        6 => Some(ScopesFaultKind::NothingOpen),
        7 => Some(ScopesFaultKind::NotClosed),
        8 => Some(ScopesFaultKind::TooDeep),
        9 => Some(ScopesFaultKind::LeftOpen),
        10 => Some(ScopesFaultKind::SplitTwice),
        _ => None,
    }
}
