//! What is shown of a session, and changes nothing.
ghost use Rattle.std.specs.Prelude.{◌≡◌, [], OnOk};
ghost use Rattle.debug_session.specs.Answers.{session_state};
ghost use Rattle.debug_session.specs.TypedAnswers.{Tells};

use crate::missing::append_why;
use crate::stall_list::append_stalls;
use crate::typed_move::{append_last, append_whereabouts};
use debugger::{Debugger, MoveFault};
use prompt_words::{Naming, Shown, append_help, append_help_on, append_names};

/// Puts what is shown into an empty text. On a fault some of it may stand there.
pub(crate) fn append_shown(
    out: &mut Vec<u8>,
    debugger: &mut Debugger,
    naming: &Naming,
    what: Shown,
) -> Result<(), MoveFault>
    requires { out.old.items ≡ [] }
    ensures ok { OnOk result (Tells naming.now debugger.old.start (session_state debugger.old) what out.new.items) }
    ensures same { debugger.new ≡ debugger.old }
{
    match what {
        Shown::Part(part) => Ok(debugger.part_text(part, out)?),
        Shown::Why(flow) => append_why(out, debugger, &naming.names, flow),
        Shown::Stalls => append_stalls(out, debugger, &naming.names.flows),
        Shown::Lines(count) => append_last(out, debugger, count),
        Shown::Where(known) => append_whereabouts(out, debugger, naming, known),
        Shown::Names => Ok(append_names(out, naming)?),
        Shown::Help => Ok(append_help(out)?),
        Shown::HelpOn(place) => Ok(append_help_on(out, place)?),
    }
}
