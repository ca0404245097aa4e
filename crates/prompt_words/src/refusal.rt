//! Why a command is refused.
ghost use Rattle.std.specs.Prelude.{◌≡◌};
ghost use Rattle.prompt_words.specs.Refusals.{refusal_line};

use crate::naming::PartSort;
use std::alloc::AllocError;

/// Why a command is refused: the first of these that holds. A refused command changes nothing.
#[derive(Clone, Copy)]
pub enum Refusal {
    /// No command or no sort of breakpoint has this name.
    B1,
    /// The number of words is another.
    B2,
    /// A word is no number where one is asked, or is out of its range; there is no such node, flow
    /// or kind.
    B3,
    /// As many breakpoints are set as there may be.
    B4,
    /// No breakpoint has this number.
    B5,
    /// There was no memory, as many events were run as there may be, or a worker did not give back what it ran.
    M,
}

/// What is expected where a word does not fit.
#[derive(Clone, Copy)]
pub enum Expected {
    /// A sort of condition.
    Sort,
    /// Another sort than one that is there already.
    OtherSort,
    /// A node, a link or a flow, by its name or its number.
    Part,
    /// A kind of events.
    Kind,
    /// A phase of a sender.
    Phase,
    /// A value of a flow, which changes.
    Changing,
    /// A sign.
    Sign,
    /// A moment, or a time that passes.
    Time,
    /// A number.
    Number,
}

/// A word that is the name of a part of another sort than is asked for.
#[derive(Clone, Copy)]
pub struct Misnamed<'a> {
    /// The word.
    pub word: &'a [u8],
    /// The sort of the part that it names.
    pub sort: PartSort,
}

/// Why a line is refused, and what would fit.
#[derive(Clone, Copy)]
pub struct Refused<'a> {
    /// Why.
    pub code: Refusal,
    /// What is expected at the first word that does not fit, or behind the last where one is missing.
    pub expected: Option<Expected>,
    /// The first name of a part of another sort than is asked for.
    pub misnamed: Option<Misnamed<'a>>,
}

impl Refusal {
    /// The line that tells of it.
    pub fn line(self) -> &'static [u8]
        ensures { result.now ≡ refusal_line self }
    {
        match self {
            Refusal::B1 => b"refused B1\n",
            Refusal::B2 => b"refused B2\n",
            Refusal::B3 => b"refused B3\n",
            Refusal::B4 => b"refused B4\n",
            Refusal::B5 => b"refused B5\n",
            Refusal::M => b"refused M\n",
        }
    }
}

impl From<AllocError> for Refusal {
    ghost use Rattle.std.specs.Prelude.{◌≡◌};
    ghost use Rattle.prompt_words.specs.declared.refusal.Refusal.TheVariants.{M};

    ghost from_gives = { λ _ e. e ≡ M };

    fn from(_error: AllocError) -> Refusal {
        Refusal::M
    }
}

impl<'a> From<Refusal> for Refused<'a> {
    /// With nothing to say of a word.
    fn from(code: Refusal) -> Refused<'a>
        ensures { result.code ≡ code }
    {
        Refused {
            code,
            expected: None,
            misnamed: None,
        }
    }
}
