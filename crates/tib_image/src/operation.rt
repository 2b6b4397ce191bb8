//! A transducer and a tree, with what is looked up in them, and the edges of a key.

ghost use Rattle.std.specs.Prelude.{◌≡◌, ℕ, ◌<◌, ◌≤◌, ◌^◌, length, IfOk, OnOk, Err};
ghost use Rattle.tib_tree.specs.Trees.{size, count};
ghost use Rattle.tib_expand.specs.Reached.{most_parts};
ghost use Rattle.tib_transducer.specs.Rules.{transducer_rule};
ghost use Rattle.tib_image.specs.Image.{IsImageEdge};
ghost use Rattle.tib_image.specs.Nodes.{subtree};
ghost use Rattle.tib_key_edges.specs.Positions.{IsIndex};
ghost use Rattle.tib_image.specs.Shapes.{has_shape};
ghost use Rattle.tib_key_edges.specs.Listing.{IsWithinBudget};
ghost use Rattle.tib_image.specs.Listing.{ListsOrigin, OriginOverruns, ListsKey, KeyOverruns};

use crate::index::ByRoot;
use crate::key::Key;
use crate::listing::{Listing, add_edge};
use crate::walk::match_items;
use std::alloc::{AllocError, Global};
use tib_expand::ExpandError;
use tib_key_edges::{ShapeIndex, index_rules};
use tib_transducer::Transducer;
use tib_tree::{Label, Tree};

/// The number of nodes of a tree.
fn size_of_tree(tree: &Tree) -> u32
    ensures { result ≡ size tree.now }
{
    tree.nodes()[0].size
}

/// The label of a node of a tree, and the number of its children.
fn root_at(tree: &Tree, node: u32) -> (Label, u32)
    requires { node < size tree.now }
    ensures label { result.0 ≡ (subtree tree.now node).label }
    ensures rank { result.1 ≡ count (subtree tree.now node).kids }
{
    let found = &tree.nodes()[node as usize];
    (found.label, found.rank)
}

/// A transducer and a tree, with the rules of the transducer by their states and the roots of their
/// left-hand sides.
#[derive(Drop)]
pub struct Image<'a, S> {
    /// The transducer.
    pub transducer: &'a Transducer<S>,
    /// The tree.
    pub tree: &'a Tree,
    index: ShapeIndex,
    pub ghost indexed: { IsIndex has_shape transducer.now.rules index },
    pub ghost few: { size tree.now < 2 ^ 32 },
}

impl<'a, S> Image<'a, S> {
    /// What is hunted for a transducer and a tree. Err only if memory is refused. Cost: for each
    /// rule one look-up by hash.
    pub fn new(
        alloc: Global,
        transducer: &'a Transducer<S>,
        tree: &'a Tree,
    ) -> Result<Image<'a, S>, AllocError>
        ensures transducer { IfOk result (λ i. i.transducer.now ≡ transducer.now) }
        ensures tree { IfOk result (λ i. i.tree.now ≡ tree.now) }
    {
        let _nodes = size_of_tree(tree);
        transducer.is_sound();
        let index = index_rules::<ByRoot>(alloc, transducer.rule_list())?;
        Ok(Image {
            transducer,
            tree,
            index,
        })
    }

    /// Lists the edge of a key and of the rule at a position, if the left-hand side of the rule
    /// matches at the node.
    fn list_rule(
        &self,
        key: Key,
        position: u32,
        found: &mut Vec<u32>,
        listing: &mut Listing<'a>,
    ) -> Result<(), ExpandError>
        requires below { position < length self.now.transducer.now.rules }
        requires state { (transducer_rule self.now.transducer.now.rules position).state ≡ key.0 }
        requires node { key.1 < size self.now.tree.now }
        requires within { IsWithinBudget listing.old }
        ensures listed { let gives = IsImageEdge self.now.transducer.now.rules self.now.tree.now key
            in
            OnOk result (ListsOrigin gives key position listing.old listing.new) }
        ensures more { let gives = IsImageEdge self.now.transducer.now.rules self.now.tree.now key
            in
            result ≡ Err ExpandError.More → OriginOverruns gives key position listing.old }
        ensures within { OnOk result (IsWithinBudget listing.new) }
        ensures position { listing.new.position ≡ listing.old.position }
        ensures budget { listing.new.budget ≡ listing.old.budget }
    {
        let transducer = self.transducer;
        transducer.is_sound();
        let rule = &transducer.rule_list()[position as usize];
        match match_items(self.tree.nodes(), key.node(), rule.left.items(), found) {
            Ok(true) => add_edge(listing, &rule.right, found, rule.cost),
            Ok(false) => Ok(()),
            Err(_) => Err(ExpandError::OutOfMemory),
        }
    }

    /// The edges of a key at a position.
    pub(crate) fn list_edges(
        &self,
        alloc: Global,
        key: Key,
        position: u32,
        budget: u64,
    ) -> Result<Listing<'a>, ExpandError>
        requires node { key.1 < size self.now.tree.now }
        requires budget { budget ≤ most_parts }
        ensures listed { let gives = IsImageEdge self.now.transducer.now.rules self.now.tree.now key
            in
            IfOk result (ListsKey gives key position) }
        ensures more { let gives = IsImageEdge self.now.transducer.now.rules self.now.tree.now key
            in
            result ≡ Err ExpandError.More → KeyOverruns gives key position budget }
        ensures within { IfOk result IsWithinBudget }
        ensures budget { IfOk result (λ l. l.budget ≡ budget) }
    {
        self.transducer.is_sound();
        let (label, rank) = root_at(self.tree, key.node());
        let mut listing = Listing::new(alloc, position, budget);
        let mut found = Vec::new(alloc);
        for rule_position in self.index.find(key.state(), label, rank) {
            match self.list_rule(key, *rule_position, &mut found, &mut listing) {
                Ok(()) => {}
                Err(fault) => return Err(fault),
            }
        }
        Ok(listing)
    }
}
