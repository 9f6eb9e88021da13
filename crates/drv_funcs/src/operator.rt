//! The comparisons of `version-compare`.

ghost use Rattle.drv_funcs.specs.Comparing.{holds, holds_of_none, is_earlier, operator_of};
ghost use Rattle.drv_funcs.specs.Comparing.{takes_two};
ghost use Rattle.std.specs.Prelude.{◌≡◌};

/// A comparison of versions.
#[derive(Clone, Copy)]
pub enum Operator {
    /// `>=`: the first version or later.
    AtLeast,
    /// `!>`: its opposite.
    NotAtLeast,
    /// `<`: earlier than the first version.
    Below,
    /// `!<`: its opposite.
    NotBelow,
    /// `><`: the first version or later, and earlier than the second.
    Between,
    /// `<>`: earlier than the first version, or the second or later.
    Outside,
}

impl Operator {
    /// The comparison with this name.
    pub fn by_name(word: &[u8]) -> Option<Operator>
        ensures { result ≡ operator_of word.now }
    {
        match word {
            b">=" => Some(Operator::AtLeast),
            b"!>" => Some(Operator::NotAtLeast),
            b"<" => Some(Operator::Below),
            b"!<" => Some(Operator::NotBelow),
            b"><" => Some(Operator::Between),
            b"<>" => Some(Operator::Outside),
            _ => None,
        }
    }

    /// Whether it compares with two versions.
    pub fn takes_two(self) -> bool
        ensures { result ≡ takes_two self }
    {
        matches!(self, Operator::Between | Operator::Outside)
    }

    /// Whether it holds if no switch has the prefix.
    pub fn holds_of_none(self) -> bool
        ensures { result ≡ holds_of_none self }
    {
        matches!(self, Operator::NotAtLeast | Operator::NotBelow)
    }

    /// Whether a version compares so with the first version, and with the second if the comparison
    /// takes two.
    pub fn holds(self, value: &[u32], first: &[u32], second: &[u32]) -> bool
        ensures { result ≡ holds self value.now first.now second.now }
    {
        match self {
            Operator::AtLeast | Operator::NotBelow => !is_earlier(value, first),
            Operator::NotAtLeast | Operator::Below => is_earlier(value, first),
            Operator::Between => !is_earlier(value, first) && is_earlier(value, second),
            Operator::Outside => is_earlier(value, first) || !is_earlier(value, second),
        }
    }
}

/// Whether a version is earlier than another.
fn is_earlier(one: &[u32], other: &[u32]) -> bool
    ensures { result ≡ is_earlier one.now other.now }
{
    one.cmp(other).is_lt()
}
