//! How a printed line ends.

ghost use Rattle.drv_words.specs.Code.LineEnd.{is_piped};
ghost use Rattle.std.specs.Prelude.{◌≡◌, ◌+◌, ◌<◌, nat_lt};

use crate::PlanLine;

/// How a printed line ends.
#[derive(Clone, Copy)]
pub(crate) enum LineEnd {
    /// The command is piped into that of the next line.
    Piped,
    /// The command is the last of its group.
    Last,
}

impl LineEnd {
    /// How this line ends.
    pub(crate) fn of(line: &PlanLine) -> LineEnd
        ensures { is_piped result ≡ line.now.piped }
    {
        if line.piped {
            LineEnd::Piped
        } else {
            LineEnd::Last
        }
    }

    /// How the line of the command at `index` of a group of `count` ends.
    pub(crate) fn within(index: usize, count: usize) -> LineEnd
        requires { index < count }
        ensures { is_piped result ≡ nat_lt (index + 1) count }
    {
        // The last command of a group writes no pipe.
        if index + 1 < count {
            LineEnd::Piped
        } else {
            LineEnd::Last
        }
    }

    /// Whether the command is piped.
    pub(crate) fn is_piped(self) -> bool
        ensures { result ≡ is_piped self }
    {
        matches!(self, LineEnd::Piped)
    }
}
