// The digits that are tried in a cell, a bit for each.
ghost use Rattle.std.specs.Prelude.{◌≤◌};
ghost use Rattle.exploration.specs.Search.{NextDigit};

// The next digit of some, from one on, or 9.
#[inline]
pub fn next_digit(digits: u32, from: u32) -> u32
    requires { from ≤ 9 }
    ensures { NextDigit digits from result }
{
    (from + (digits >> from).trailing_zeros()).min(9)
}
