//! How the nodes, links and flows of a scenario are called.
ghost use Rattle.std.specs.Prelude.{◌≡◌, IfOk, ok_or};
ghost use Rattle.scenario_asm.specs.Text.{number_among};
ghost use Rattle.prompt_words.specs.Input.{words_in};
ghost use Rattle.prompt_words.specs.Refusals.{by_code};
ghost use Rattle.prompt_words.specs.Namings.{naming_by, by_numbers, count_of, names_of, sort_of, part_meant, one_part};

use crate::command::Limits;
use crate::grammar::{is_numeral, number_below, one_word};
use crate::refusal::{Expected, Misnamed, Refusal, Refused};
use flow_waits::{PartNames, ScenarioNames};
use scenario_asm::NamedParts;
use std::alloc::{AllocError, Global};

/// A sort of the parts of a scenario that have names.
#[derive(Clone, Copy)]
pub enum PartSort {
    /// The nodes.
    Node,
    /// The links.
    Link,
    /// The flows.
    Flow,
}

/// How the nodes, links and flows of a scenario are called.
#[derive(Drop)]
pub struct Naming {
    /// Their numbers are below these.
    pub limits: Limits,
    /// Their names.
    pub names: ScenarioNames,
}

impl Naming {
    /// The names that a text declares, and numbers below these.
    pub fn of(alloc: Global, limits: Limits, named: &NamedParts<'_>) -> Result<Naming, AllocError>
        ensures { IfOk result (λ naming. naming ≡ naming_by limits named.now) }
    {
        let nodes = PartNames::of(alloc, &named.nodes)?;
        let links = PartNames::of(alloc, &named.links)?;
        let flows = PartNames::of(alloc, &named.flows)?;
        Ok(Naming {
            limits,
            names: ScenarioNames {
                nodes,
                links,
                flows,
            },
        })
    }

    /// Numbers alone.
    pub fn of_numbers(alloc: Global, limits: Limits) -> Naming
        ensures { result ≡ by_numbers limits }
    {
        Naming {
            limits,
            names: ScenarioNames {
                nodes: PartNames::none(alloc),
                links: PartNames::none(alloc),
                flows: PartNames::none(alloc),
            },
        }
    }

    /// How many parts of a sort there are.
    fn count(&self, sort: PartSort) -> u16
        ensures { result ≡ count_of self.now.limits sort }
    {
        match sort {
            PartSort::Node => self.limits.nodes,
            PartSort::Link => self.limits.links,
            PartSort::Flow => self.limits.flows,
        }
    }

    /// The number of the part of a sort that has a name.
    fn number_named(&self, sort: PartSort, name: &[u8]) -> Option<usize>
        ensures { result ≡ number_among (names_of self.now sort) name.now }
    {
        match sort {
            PartSort::Node => self.names.nodes.number_of(name),
            PartSort::Link => self.names.links.number_of(name),
            PartSort::Flow => self.names.flows.number_of(name),
        }
    }

    /// The sort of the part that has a name.
    fn sort_named(&self, name: &[u8]) -> Option<PartSort>
        ensures { result ≡ sort_of self.now name.now }
    {
        if self.names.nodes.number_of(name).is_some() {
            Some(PartSort::Node)
        } else if self.names.links.number_of(name).is_some() {
            Some(PartSort::Link)
        } else if self.names.flows.number_of(name).is_some() {
            Some(PartSort::Flow)
        } else {
            None
        }
    }

    /// The number of the part of a sort that a word means.
    pub fn part(&self, sort: PartSort, word: &[u8]) -> Option<u16>
        ensures { result ≡ part_meant self.now sort word.now }
    {
        let count = self.count(sort);
        if is_numeral(word) {
            let number = number_below(word, u64::from(count))?;
            return Some(number as u16);
        }
        let number = self.number_named(sort, word)?;
        if number < usize::from(count) {
            Some(number as u16)
        } else {
            None
        }
    }

    /// A word that is the name of a part of another sort than this one.
    pub(crate) fn misnamed<'a>(&self, asked: PartSort, word: &'a [u8]) -> Option<Misnamed<'a>> {
        if self.part(asked, word).is_some() {
            return None;
        }
        let sort = self.sort_named(word)?;
        Some(Misnamed { word, sort })
    }

    /// The number of the part of a sort that a word has to mean.
    pub(crate) fn meant<'a>(&self, sort: PartSort, word: &'a [u8]) -> Result<u16, Refused<'a>>
        ensures { by_code result ≡ ok_or (part_meant self.now sort word.now) Refusal.B3 }
    {
        match self.part(sort, word) {
            Some(number) => Ok(number),
            None => Err(Refused {
                code: Refusal::B3,
                expected: Some(Expected::Part),
                misnamed: self.misnamed(sort, word),
            }),
        }
    }

    /// The number of the part of a sort that the only word of a line has to mean.
    pub(crate) fn one_part<'a>(&self, sort: PartSort, line: &'a [u8]) -> Result<u16, Refused<'a>>
        ensures { by_code result ≡ one_part self.now sort (words_in line.now) }
    {
        match one_word(line) {
            None => Err(Refused::from(Refusal::B2)),
            Some(word) => self.meant(sort, word),
        }
    }
}
