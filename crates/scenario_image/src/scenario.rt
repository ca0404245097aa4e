//! A scenario: parts that can be simulated.
ghost use Rattle.std.specs.Prelude.{◌≡◌, ◌↔◌, IfOk, IfErr, IsOk, IsErrOf, MatchOption};
ghost use Rattle.scenario_image.specs.Scenario.{IsScenario};
ghost use Rattle.scenario_image.specs.Fault.{IsFirstFault};

use crate::ends::has_its_ends;
use crate::fault::LoadFault;
use crate::kinds::has_its_kinds;
use crate::limits::is_in_limits;
use crate::parts::ScenarioParts;
use crate::paths::{paths_are_simple, paths_are_unbroken};
use std::marker::Model;

/// A scenario that can be simulated. Contracts see its parts.
#[derive(Drop)]
pub struct Scenario {
    parts: ScenarioParts,
}

impl Model for Scenario {
    ghost use Rattle.scenario_image.specs.declared.parts.ScenarioParts.{ScenarioParts};
    ghost use Rattle.scenario_image.specs.Scenario.{IsScenario};

    ghost Value = { ScenarioParts };

    ghost view = { λ scenario. scenario.parts };

    ghost invariant = { λ scenario. IsScenario scenario.parts };
}

/// The first fault of parts, if they have one.
fn first_fault(parts: &ScenarioParts) -> Option<LoadFault>
    ensures { MatchOption result (IsScenario parts.now) (IsFirstFault parts.now) }
{
    if !is_in_limits(parts) {
        return Some(LoadFault::L3);
    }
    if !has_its_ends(parts) {
        return Some(LoadFault::L5);
    }
    if !has_its_kinds(parts) {
        return Some(LoadFault::L6);
    }
    if !paths_are_unbroken(parts) {
        return Some(LoadFault::L7);
    }
    if !paths_are_simple(parts) {
        return Some(LoadFault::L8);
    }
    None
}

impl Scenario {
    /// The scenario of these parts, or the first fault that they have. Refused parts are given up.
    /// No memory is taken.
    pub fn of_parts(parts: ScenarioParts) -> Result<Scenario, LoadFault>
        ensures ok { IfOk result (λ scenario. scenario ≡ parts) }
        ensures scenario { IsOk result ↔ IsScenario parts }
        ensures fault { IfErr result (IsFirstFault parts) }
        ensures only_fault { (fault : LoadFault) → IsFirstFault parts fault → IsErrOf result fault }
    {
        match first_fault(&parts) {
            Some(fault) => Err(fault),
            None => Ok(Scenario { parts }),
        }
    }

    /// What the scenario is made of.
    pub fn parts(&self) -> &ScenarioParts
        ensures value { result.now ≡ self.now }
        ensures scenario { IsScenario self.now }
    {
        &self.parts
    }
}
