//! Displays that are set, taken away and shown.
ghost use Rattle.std.specs.Prelude.{◌≡◌};
ghost use Rattle.prompt_words.specs.Refusals.{answer_of};
ghost use Rattle.prompt_words.specs.Displays.{Reads, ObeysDisplays};
ghost use Rattle.debug_session.specs.Prompt.{at_prompt, ObeysDisplay};
ghost use Rattle.debug_session.specs.Readouts.{present};

use crate::dialogue::Dialogue;
use crate::said::Said;
use crate::typed_move::present_time;
use debugger::Debugger;
use flow_waits::ScenarioNames;
use prompt_words::{
    DisplayCommand, DisplayItem, MOST_DISPLAYS, Naming, Refusal, number_of_display, of_number,
};
use sim_time::Time;

/// Displays something, and tells its number: what is displayed already keeps it.
#[tactic(none)]
fn set_display(
    debugger: &Debugger,
    names: &ScenarioNames,
    time: Time,
    item: DisplayItem,
    displays: &mut Vec<DisplayItem>,
    said: &mut Said,
) -> Result<(), Refusal>
    ensures { ObeysDisplays names.now (present debugger.now time) (DisplayCommand.Add item) displays.old.items displays.new.items (answer_of result said.new) }
{
    let set = displays.as_slice();
    match number_of_display(set, item) {
        Some(number) => return said.say_display(debugger, names, time, number, item),
        None => {}
    }
    if set.len() >= MOST_DISPLAYS {
        return Err(Refusal::B4);
    }
    let number = set.len() as u64 + 1;
    match said.say_display(debugger, names, time, number, item) {
        Ok(()) => match displays.push(item) {
            Ok(()) => Ok(()),
            Err(_) => Err(Refusal::M),
        },
        Err(_) => Err(Refusal::M),
    }
}

/// Takes the display of a number away, where one has it.
#[tactic(none)]
fn undisplay(
    names: &ScenarioNames,
    number: u64,
    displays: &mut Vec<DisplayItem>,
    said: &mut Said,
) -> Result<(), Refusal>
    ensures { (now : Reads) → ObeysDisplays names.now now (DisplayCommand.TakeAway number) displays.old.items displays.new.items (answer_of result said.new) }
{
    match of_number(displays.as_slice(), number) {
        None => Err(Refusal::B5),
        Some((index, item)) => match said.say_undisplayed(names, number, item) {
            Ok(()) => {
                let _taken = displays.remove(index);
                Ok(())
            }
            Err(_) => Err(Refusal::M),
        },
    }
}

/// Does what is asked of displays, whose values are those of a moment.
#[tactic(none)]
fn change_displays(
    debugger: &Debugger,
    names: &ScenarioNames,
    time: Time,
    asked: DisplayCommand,
    displays: &mut Vec<DisplayItem>,
    said: &mut Said,
) -> Result<(), Refusal>
    ensures { ObeysDisplays names.now (present debugger.now time) asked displays.old.items displays.new.items (answer_of result said.new) }
{
    match asked {
        DisplayCommand::All => said.say_displays(debugger, names, time, displays.as_slice()),
        DisplayCommand::Add(item) => set_display(debugger, names, time, item, displays, said),
        DisplayCommand::TakeAway(number) => undisplay(names, number, displays, said),
    }
}

/// Does what is asked of the displays of a session.
#[tactic(none)]
pub(crate) fn obey_display(
    dialogue: &mut Dialogue,
    naming: &Naming,
    asked: DisplayCommand,
    said: &mut Said,
) -> Result<(), Refusal>
    ensures obeyed { ObeysDisplay naming.now dialogue.old.debugger.start asked (at_prompt dialogue.old) (at_prompt dialogue.new) (answer_of result said.new) }
    ensures start { dialogue.new.debugger.start ≡ dialogue.old.debugger.start }
{
    match present_time(&mut dialogue.debugger) {
        Ok(time) => change_displays(
            &dialogue.debugger,
            &naming.names,
            time,
            asked,
            &mut dialogue.displays,
            said,
        ),
        Err(_) => Err(Refusal::M),
    }
}
