//! What the words of a line mean by what the lines above declare.
ghost use Rattle.std.specs.Prelude.{◌≡◌, option_map};
ghost use Rattle.scenario_image.specs.Ends.{outgoing_count};
ghost use Rattle.scenario_asm.specs.Names.{item_number, item_kind, item_link, number_of, is_routed, lost_of, is_full_router, new_name_verdict, used_verdict, node_verdict, other_node_verdict, sender_verdict, receiver_verdict, router_verdict, destination_verdict, link_verdict, outgoing_verdict};
ghost use Rattle.scenario_asm.specs.Table.{known_in};
ghost use Rattle.scenario_asm.specs.Verdicts.{Judges};

use super::{Item, Table};
use crate::fault::Fault;
use crate::lexer::Word;
use crate::name::Name;
use scenario_image::NodeKind;
use scenario_image::limits::MOST_ROUTER_LINKS;

/// Whether a word is a name that is declared, and is the name of what is asked.
fn used(word: &Word<'_>, item: Option<Item>, right: bool) -> Result<(), Fault>
    ensures { Judges (used_verdict word.now item right) tt result }
{
    if Name::of(word).is_none() {
        return Err(Fault::E4);
    }
    if item.is_none() {
        return Err(Fault::E7);
    }
    if !right {
        return Err(Fault::E8);
    }
    Ok(())
}

/// The number of the node or link that an item is.
fn number(item: Option<Item>) -> u16
    ensures { result ≡ item_number item }
{
    match item {
        Some(Item::Node(number) | Item::Link(number)) => number,
        Some(Item::Flow) | None => 0,
    }
}

impl<'a> Table<'a> {
    /// What a word is the name of.
    fn item(&self, word: &Word<'a>) -> Option<Item>
        ensures { result ≡ (known_in self.now).item word.now }
    {
        self.items.get(&word.bytes()).copied()
    }

    /// What the node does that an item is.
    fn kind(&self, item: Option<Item>) -> Option<NodeKind>
        ensures { result ≡ item_kind self.now.kinds.items item }
    {
        match item {
            Some(Item::Node(number)) => self.kinds.get(usize::from(number)).copied(),
            Some(Item::Link(_) | Item::Flow) | None => None,
        }
    }

    /// The node where the link begins that an item is.
    fn from(&self, item: Option<Item>) -> Option<u16>
        ensures { result ≡ option_map (λ part. part.from) (item_link self.now.links.items item) }
    {
        match item {
            Some(Item::Link(number)) => self.links.get(usize::from(number)).map(|part| part.from),
            Some(Item::Node(_) | Item::Flow) | None => None,
        }
    }

    /// The name that a word declares.
    pub fn new_name(&self, word: &Word<'a>) -> Result<Name<'a>, Fault>
        ensures { Judges (new_name_verdict (known_in self.now) word.now) word.now result }
    {
        let Some(name) = Name::of(word) else {
            return Err(Fault::E4);
        };
        if self.item(word).is_some() {
            return Err(Fault::E6);
        }
        Ok(name)
    }

    /// The node that a word means.
    pub fn node(&self, word: &Word<'a>) -> Result<u16, Fault>
        ensures { Judges (node_verdict (known_in self.now) word.now) (number_of (known_in self.now) word.now) result }
    {
        let item = self.item(word);
        used(word, item, self.kind(item).is_some())?;
        Ok(number(item))
    }

    /// The node that a word means, where it is another than that.
    pub fn other_node(&self, other: u16, word: &Word<'a>) -> Result<u16, Fault>
        ensures { Judges (other_node_verdict (known_in self.now) other word.now) (number_of (known_in self.now) word.now) result }
    {
        let item = self.item(word);
        used(
            word,
            item,
            self.kind(item).is_some() && number(item) != other,
        )?;
        Ok(number(item))
    }

    /// The sender that a word means.
    pub fn sender(&self, word: &Word<'a>) -> Result<u16, Fault>
        ensures { Judges (sender_verdict (known_in self.now) word.now) (number_of (known_in self.now) word.now) result }
    {
        let item = self.item(word);
        let right = matches!(self.kind(item), Some(NodeKind::Sender));
        used(word, item, right)?;
        Ok(number(item))
    }

    /// The receiver that a word means.
    pub fn receiver(&self, word: &Word<'a>) -> Result<u16, Fault>
        ensures { Judges (receiver_verdict (known_in self.now) word.now) (number_of (known_in self.now) word.now) result }
    {
        let item = self.item(word);
        let right = matches!(self.kind(item), Some(NodeKind::Receiver));
        used(word, item, right)?;
        Ok(number(item))
    }

    /// The router that a word means.
    pub fn router(&self, word: &Word<'a>) -> Result<u16, Fault>
        ensures { Judges (router_verdict (known_in self.now) word.now) (number_of (known_in self.now) word.now) result }
    {
        let item = self.item(word);
        let right = matches!(self.kind(item), Some(NodeKind::Router));
        used(word, item, right)?;
        Ok(number(item))
    }

    /// Whether a router has a route to a destination.
    fn is_routed(&self, router: u16, destination: u16) -> bool
        ensures { result ≡ is_routed (known_in self.now).routes router destination }
    {
        self.routes.contains_key(&(router, destination))
    }

    /// The sender or receiver that a word means, to which that router has no route yet.
    pub fn destination(&self, router: u16, word: &Word<'a>) -> Result<u16, Fault>
        ensures { Judges (destination_verdict (known_in self.now) router word.now) (number_of (known_in self.now) word.now) result }
    {
        let item = self.item(word);
        let right = matches!(self.kind(item), Some(NodeKind::Sender | NodeKind::Receiver));
        used(word, item, right)?;
        if self.is_routed(router, number(item)) {
            return Err(Fault::E6);
        }
        Ok(number(item))
    }

    /// The link that a word means.
    pub fn link(&self, word: &Word<'a>) -> Result<u16, Fault>
        ensures { Judges (link_verdict (known_in self.now) word.now) (number_of (known_in self.now) word.now) result }
    {
        let item = self.item(word);
        used(word, item, self.from(item).is_some())?;
        Ok(number(item))
    }

    /// The link that a word means, where it leaves that node.
    pub fn outgoing(&self, node: u16, word: &Word<'a>) -> Result<u16, Fault>
        ensures { Judges (outgoing_verdict (known_in self.now) node word.now) (number_of (known_in self.now) word.now) result }
    {
        let item = self.item(word);
        used(word, item, self.from(item) == Some(node))?;
        Ok(number(item))
    }

    /// The packets of a link that are lost so far, counted from 1 among those offered to it.
    pub fn lost(&self, link: u16) -> &[u32]
        ensures { result.now ≡ lost_of (known_in self.now) link }
    {
        match self.links.get(usize::from(link)) {
            Some(part) => part.lose.as_slice(),
            None => &[],
        }
    }

    /// How many links leave a node.
    fn outgoing_count(&self, node: u16) -> usize
        ensures { result ≡ outgoing_count self.now.links.items node }
    {
        self.links.iter().filter(|part| part.from == node).count()
    }

    /// Whether a node is a router with as many outgoing links as it may have.
    pub fn is_full_router(&self, node: u16) -> bool
        ensures { result ≡ is_full_router (known_in self.now) node }
    {
        matches!(self.kinds.get(usize::from(node)), Some(NodeKind::Router))
            && self.outgoing_count(node) >= MOST_ROUTER_LINKS
    }
}
