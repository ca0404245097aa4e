//! What the lines so far declare.
ghost use Rattle.std.specs.Prelude.{◌≡◌, ◌<◌, ◌++◌, ◌∷◌, [], false, length, set, OnOk, IfOk, Some, map};
ghost use Rattle.std.specs.List.{slice_get};
ghost use Rattle.std.specs.Map.{update};
ghost use Rattle.std.specs.Str.{bytes_eq};
ghost use Rattle.scenario_image.specs.declared.parts.LinkPart.{LinkPart};
ghost use Rattle.scenario_asm.specs.Routes.{as_route, placed};
ghost use Rattle.scenario_asm.specs.Names.{with_node, with_link, with_flow, is_routed, known_parts};

mod lookup;

use crate::name::Name;
use scenario_image::{FlowPart, LinkPart, NodeKind, Records, RoutePart, ScenarioParts};
use sim_time::Time;
use std::alloc::{AllocError, Global};
use std::collections::{BTreeMap, HashMap};
use std::mem;

/// What a name is the name of.
#[derive(Clone, Copy)]
pub enum Item {
    /// The node of this number.
    Node(u16),
    /// The link of this number.
    Link(u16),
    /// A flow.
    Flow,
}

/// What the lines so far declare: what each name is the name of, and all nodes, links, flows and
/// routes.
#[derive(Drop)]
pub struct Table<'a> {
    /// What each declared name is the name of.
    pub items: HashMap<&'a [u8], Item>,
    /// What the nodes do, in the order of their numbers.
    pub kinds: Vec<NodeKind>,
    /// The links, in the order of their numbers.
    pub links: Vec<LinkPart>,
    /// The flows, in the order of their numbers.
    pub flows: Vec<FlowPart>,
    /// The links of the routes, by router and destination.
    pub routes: BTreeMap<(u16, u16), u16>,
}

/// Has a link lose one more packet. After an `Err` it loses none.
fn lose(alloc: Global, part: &mut LinkPart, number: u32) -> Result<(), AllocError>
    ensures { OnOk result (part.new ≡ record part.old { lose = part.old.lose ++ number ∷ [] }) }
{
    let mut numbers = mem::replace(&mut part.lose, Records::new(Vec::new(alloc))).into_vec();
    numbers.push(number)?;
    part.lose = Records::new(numbers);
    Ok(())
}

/// The routes of a table, in its order.
fn route_list(
    alloc: Global,
    routes: &BTreeMap<(u16, u16), u16>,
) -> Result<Vec<RoutePart>, AllocError>
    ensures { IfOk result (λ list. list.items ≡ map as_route routes.now.entries) }
{
    routes
        .iter()
        .map(|(ends, link)| RoutePart {
            router: ends.0,
            destination: ends.1,
            link: *link,
        })
        .collect(alloc)
}

impl<'a> Table<'a> {
    ghost use Rattle.scenario_asm.specs.Table.{known_in};

    /// Nothing declared.
    pub fn new(alloc: Global) -> Table<'a>
        ensures kinds { result.kinds.items ≡ [] }
        ensures links { result.links.items ≡ [] }
        ensures flows { result.flows.items ≡ [] }
        ensures routes { result.routes.entries ≡ [] }
        ensures items { result.items.entries ≡ [] }
    {
        Table {
            items: HashMap::new(alloc),
            kinds: Vec::new(alloc),
            links: Vec::new(alloc),
            flows: Vec::new(alloc),
            routes: BTreeMap::new(alloc),
        }
    }

    /// Declares a name. An `Err` leaves the table as it was.
    fn declare(&mut self, name: &Name<'a>, item: Item) -> Result<(), AllocError>
        ensures { OnOk result (known_in self.new ≡ record (known_in self.old) { item = update bytes_eq (known_in self.old).item name.now (Some item) }) }
    {
        self.items.insert(name.bytes(), item)?;
        Ok(())
    }

    /// Declares the next node. After an `Err` the table may have its name alone.
    pub fn add_node(&mut self, name: &Name<'a>, kind: NodeKind) -> Result<(), AllocError>
        requires { length self.old.kinds.items < 256 }
        ensures { OnOk result (known_in self.new ≡ with_node (known_in self.old) name.now kind) }
    {
        let number = self.kinds.len() as u16;
        self.declare(name, Item::Node(number))?;
        self.kinds.push(kind)?;
        Ok(())
    }

    /// Declares the next link. After an `Err` the table may have its name alone.
    pub fn add_link(&mut self, name: &Name<'a>, part: LinkPart) -> Result<(), AllocError>
        requires { length self.old.links.items < 1024 }
        ensures { OnOk result (known_in self.new ≡ with_link (known_in self.old) name.now part) }
    {
        let number = self.links.len() as u16;
        self.declare(name, Item::Link(number))?;
        self.links.push(part)?;
        Ok(())
    }

    /// Declares the next flow. After an `Err` the table may have its name alone.
    pub fn add_flow(&mut self, name: &Name<'a>, part: FlowPart) -> Result<(), AllocError>
        ensures { OnOk result (known_in self.new ≡ with_flow (known_in self.old) name.now part) }
    {
        self.declare(name, Item::Flow)?;
        self.flows.push(part)?;
        Ok(())
    }

    /// Declares a router's first route to a destination. An `Err` leaves the table as it was.
    pub fn add_route(&mut self, route: RoutePart) -> Result<(), AllocError>
        requires { is_routed (known_in self.old).routes route.router route.destination ≡ false }
        ensures { OnOk result (known_in self.new ≡ record (known_in self.old) { routes = placed (known_in self.old).routes route }) }
    {
        let ends = (route.router, route.destination);
        self.routes.insert(ends, route.link)?;
        Ok(())
    }

    /// Has a link lose one more packet. After an `Err` it may lose none.
    pub fn add_lost(&mut self, alloc: Global, link: u16, number: u32) -> Result<(), AllocError>
        requires { link < length self.old.links.items }
        ensures { (part : LinkPart) → slice_get self.old.links.items link ≡ Some part → OnOk result (known_in self.new ≡ record (known_in self.old) { links = set self.old.links.items link (record part { lose = part.lose ++ number ∷ [] }) }) }
    {
        lose(alloc, &mut self.links[usize::from(link)], number)
    }

    /// What is declared, as a scenario of this end.
    pub fn into_parts(self, alloc: Global, end: Time) -> Result<ScenarioParts, AllocError>
        ensures { IfOk result (λ parts. parts ≡ known_parts end (known_in self.entry)) }
    {
        let Table {
            items: _items,
            kinds,
            links,
            flows,
            routes,
        } = self;
        let routes = route_list(alloc, &routes)?;
        Ok(ScenarioParts {
            end,
            nodes: Records::new(kinds),
            links: Records::new(links),
            flows: Records::new(flows),
            routes: Records::new(routes),
        })
    }
}
