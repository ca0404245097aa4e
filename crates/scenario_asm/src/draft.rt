//! What the lines so far say together.
ghost use Rattle.std.specs.Prelude.{◌≡◌, ◌≢◌, ℕ, List, [], ◌∷◌, ◌++◌, Option, OnOk, IfOk};
ghost use Rattle.std.specs.Option.{ForSome};
ghost use Rattle.scenario_asm.specs.declared.statement.Statement.{Statement};
ghost use Rattle.scenario_asm.specs.Meaning.{statements_of};
ghost use Rattle.scenario_asm.specs.Text.{losing_link_part};
ghost use Rattle.scenario_asm.specs.Table.{known_in};
ghost use Rattle.scenario_asm.specs.Right.{IsRight, AreOfKinds};
ghost use Rattle.scenario_asm.specs.Declarations.{GiveParts};
ghost use Rattle.scenario_asm.specs.Draft.{HasTheseEnds, Holds, IsWholeAnswer, WholeGives};

use crate::fault::{AsmFault, Fault};
use crate::statement::{LinkLine, Statement};
use crate::table::Table;
use scenario_image::{LinkPart, LoadFault, Records, Scenario, ScenarioParts};
use sim_time::Time;
use std::alloc::{AllocError, Global};

/// What `sim` statements have said.
#[derive(Clone, Copy)]
pub enum Ends {
    /// There was none.
    Unset,
    /// There was one, with this end.
    Set(Time),
    /// There was more than one.
    Repeated,
}

impl Ends {
    /// After one more `sim` statement, with this end.
    fn and(self, end: Time) -> Ends
        ensures { (ends : List ℕ) → HasTheseEnds self ends → HasTheseEnds result (ends ++ end ∷ []) }
    {
        match self {
            Ends::Unset => Ends::Set(end),
            Ends::Set(_) | Ends::Repeated => Ends::Repeated,
        }
    }
}

/// What the lines so far say together.
#[derive(Drop)]
pub struct Draft<'a> {
    /// What `sim` statements have said.
    pub ends: Ends,
    /// All that is declared.
    pub table: Table<'a>,
}

/// The link that a statement declares, which loses nothing yet.
fn new_link(alloc: Global, line: LinkLine) -> LinkPart
    ensures { result ≡ losing_link_part line [] }
{
    LinkPart {
        from: line.from,
        to: line.to,
        rate: line.rate,
        delay: line.delay,
        queue: line.queue,
        capacity: line.capacity,
        lose: Records::new(Vec::new(alloc)),
    }
}

/// What is wrong with a text whose lines are right, by what is wrong with its parts.
fn whole_fault(fault: LoadFault) -> AsmFault
    requires bytes { (fault ≢ LoadFault.L1) × (fault ≢ LoadFault.L2) × (fault ≢ LoadFault.L4) }
    requires kinds { fault ≢ LoadFault.L6 }
    ensures { IsWholeAnswer fault result }
{
    let fault = match fault {
        LoadFault::L3 => Fault::L3,
        LoadFault::L5 => Fault::L5,
        LoadFault::L1 | LoadFault::L2 | LoadFault::L4 | LoadFault::L6 => unreachable!(),
        LoadFault::L7 => Fault::L7,
        LoadFault::L8 => Fault::L8,
        LoadFault::NoMemory => return AsmFault::NoMemory,
    };
    AsmFault::At { line: 0, fault }
}

impl<'a> Draft<'a> {
    /// What no lines say.
    pub fn new(alloc: Global) -> Draft<'a>
        ensures { Holds result [] }
    {
        Draft {
            ends: Ends::Unset,
            table: Table::new(alloc),
        }
    }

    /// Adds one more statement. An `Err` may leave a part of it.
    fn add(&mut self, alloc: Global, statement: Statement<'a>) -> Result<(), AllocError>
        requires { IsRight (known_in self.old.table) statement }
        ensures { (statements : List Statement) → Holds self.old statements → OnOk result (Holds self.new (statements ++ statement.entry ∷ [])) }
    {
        match statement {
            Statement::Sim(end) => self.ends = self.ends.and(end),
            Statement::Node(name, kind) => self.table.add_node(&name, kind)?,
            Statement::Link(name, line) => self.table.add_link(&name, new_link(alloc, line))?,
            Statement::Flow(name, part) => self.table.add_flow(&name, part)?,
            Statement::Route(route) => self.table.add_route(route)?,
            Statement::Lose(line) => self.table.add_lost(alloc, line.link, line.number)?,
        }
        Ok(())
    }

    /// Adds what one more line says. An `Err` may leave a part of it.
    pub fn add_said(&mut self, alloc: Global, said: Option<Statement<'a>>) -> Result<(), AllocError>
        requires { ForSome said (IsRight (known_in self.old.table)) }
        ensures { (all : List (Option Statement)) → Holds self.old (statements_of all) → OnOk result (Holds self.new (statements_of (all ++ said.entry ∷ []))) }
    {
        match said {
            Some(statement) => self.add(alloc, statement),
            None => Ok(()),
        }
    }

    /// The parts that the lines make, whether they are a scenario or not; `None` where they have not
    /// exactly one end.
    pub fn into_parts(self, alloc: Global) -> Result<Option<ScenarioParts>, AllocError>
        ensures { (statements : List Statement) → Holds self.entry statements → IfOk result (GiveParts statements) }
    {
        let Draft { ends, table } = self;
        match ends {
            Ends::Set(end) => Ok(Some(table.into_parts(alloc, end)?)),
            Ends::Unset | Ends::Repeated => Ok(None),
        }
    }

    /// The scenario that the lines mean, if they are the whole text.
    pub fn finish(self, alloc: Global) -> Result<Scenario, AsmFault>
        requires { AreOfKinds (known_in self.table) }
        ensures { (statements : List Statement) → Holds self.entry statements → WholeGives statements result }
    {
        let Draft { ends, table } = self;
        let Ends::Set(end) = ends else {
            return Err(AsmFault::At {
                line: 0,
                fault: Fault::E10,
            });
        };
        let parts = table.into_parts(alloc, end)?;
        match Scenario::of_parts(parts) {
            Ok(scenario) => Ok(scenario),
            Err(fault) => Err(whole_fault(fault)),
        }
    }
}
