//! The numbers in the words of a plan and of the program's arguments.
ghost use Rattle.std.specs.Prelude.{◌≡◌};
ghost use Rattle.oxc_sourcemap_plan.specs.Words.{number_of};

/// The number of an argument of decimal digits, if it is at most 4294967295. There is no sign; zeros may come first.
pub fn read_number(argument: &str) -> Option<u32>
    ensures { result ≡ number_of argument.now }
{
    if argument.starts_with('+') {
        return None;
    }
    argument.parse().ok()
}
