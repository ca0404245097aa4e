//! How a session ended, as the program tells it.

use crate::fault::SessionFault;

/// How a session ended.
#[derive(Drop)]
pub struct Outcome {
    /// The status with which the program ends: 0 done, 1 input refused, 2 command line refused,
    /// 3 reading or writing failed, 4 no room to go on.
    pub status: u8,
    /// What goes to standard error, by its `Display`. None where the session is done.
    pub note: Option<SessionFault>,
}

impl From<Result<(), SessionFault>> for Outcome {
    ghost use Rattle.std.specs.Prelude.{◌≡◌};
    ghost use Rattle.sessions.specs.Outcome.{outcome_of};

    ghost from_gives = { λ ended outcome. outcome ≡ outcome_of ended };

    fn from(ended: Result<(), SessionFault>) -> Outcome {
        match ended {
            Ok(()) => Outcome {
                status: 0,
                note: None,
            },
            Err(fault) => Outcome {
                status: fault.status(),
                note: Some(fault),
            },
        }
    }
}
