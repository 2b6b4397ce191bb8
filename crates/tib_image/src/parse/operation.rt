//! A transducer and a string, with what is looked up in them, and the edges of a key.

ghost use Rattle.std.specs.Prelude.{
  ◌≡◌,
  ◌<◌,
  ◌≤◌,
  ◌^◌,
  [],
  ◌∷◌,
  length,
  map,
  false,
  IsTrue,
  IfOk,
  IfErr,
  OnOk,
  Err,
};
ghost use Rattle.tib_lex.specs.Lists.{total};
ghost use Rattle.tib_expand.specs.Reached.{most_parts};
ghost use Rattle.tib_strings.specs.Rules.{string_rule};
ghost use Rattle.tib_strings.specs.Range.{AreLinear, AreNondeleting};
ghost use Rattle.tib_strings.specs.Remaining.{IsSearch, GoesTo, remaining};
ghost use Rattle.tib_image.specs.Restrictions.{restricted_labels};
ghost use Rattle.tib_image.specs.ParseOperation.{IsKey, edge_parts};
ghost use Rattle.tib_image.specs.ParseEdges.{edges_of};
ghost use Rattle.tib_image.specs.ParseMoves.{IsMoves};
ghost use Rattle.tib_image.specs.ParseLaws.{AreStatesBelow};
ghost use Rattle.tib_key_edges.specs.Listing.{IsWithinBudget};
ghost use Rattle.tib_image.specs.ParseListing.{
  IsListed,
  Adds,
  Overruns,
  edges_at,
  cut_edge,
  HasPlaces,
  AdmitsRule,
};
ghost use Rattle.tib_image.specs.ParseAnswered.{IsStringFault};

use crate::parse::key::Key;
use crate::parse::listing::{Listing, add_edge};
use crate::parse::moves::Moves;
use crate::parse::readers::restrictions_of;
use crate::parse::spans::{Span, make_room, put_spans};
use std::alloc::Global;
use tib_apply::Restrictions;
use tib_expand::ExpandError;
use tib_grammar::Item;
use tib_strings::{Cuts, StringRule, StringTransducer, string_outside};
use tib_transducer::ClassError;
use tib_tree::Label;

/// Whether the restriction of a key admits what a rule reads.
fn admits(restrictions: &Restrictions, key: Key, rule: &StringRule<u32>) -> bool
    ensures yes { IsTrue result → AdmitsRule restrictions.now key rule.now }
    ensures no { result ≡ false → AdmitsRule restrictions.now key rule.now → ⊥ }
{
    match rule.left.items().first() {
        Some(item) => match item {
            Item::Label { label, .. } => restrictions.admits(key.restriction(), *label),
            Item::Hole(_) => false,
        },
        None => false,
    }
}

/// Lists the edge of a key with a rule and the cut of these places after its tokens. `More` comes
/// exactly where it has more parts than the budget leaves.
fn add_cut<'a>(
    restrictions: &Restrictions,
    rule: &'a StringRule<u32>,
    key: Key,
    places: &[u32],
    spans: &mut Vec<Span>,
    listing: &mut Listing<'a>,
) -> Result<(), ExpandError>
    requires as_many { length places.now ≡ length rule.now.right }
    requires room { HasPlaces (length spans.old.items) rule.now }
    requires within { IsWithinBudget listing.old }
    ensures added { OnOk result (Adds key (cut_edge restrictions.now key rule.now places.now ∷ [])
        listing.old listing.new) }
    ensures more { result ≡ Err ExpandError.More →
        Overruns (cut_edge restrictions.now key rule.now places.now ∷ []) listing.old }
    ensures within { OnOk result (IsWithinBudget listing.new) }
    ensures long { length spans.new.items ≡ length spans.old.items }
{
    put_spans(rule.right.tokens(), key.from(), places, spans);
    add_edge(listing, restrictions, &rule.left, spans, rule.cost)
}

/// Goes on to the next cut.
fn next_cut(cuts: &mut Cuts) -> Result<bool, ExpandError>
    requires { IsSearch cuts.old }
    ensures goes { IfOk result (GoesTo cuts.old cuts.new) }
    ensures more { result ≡ Err ExpandError.More → ⊥ }
{
    match cuts.go_on() {
        Ok(found) => Ok(found),
        Err(_) => Err(ExpandError::OutOfMemory),
    }
}

/// Lists the edges of a key with a rule and with each cut that is still to come, one after another.
/// `More` comes exactly where they have more parts than the budget leaves, as soon as they do.
fn add_cuts<'a>(
    restrictions: &Restrictions,
    rule: &'a StringRule<u32>,
    key: Key,
    cuts: &mut Cuts,
    spans: &mut Vec<Span>,
    listing: &mut Listing<'a>,
) -> Result<(), ExpandError>
    requires search { IsSearch cuts.old }
    requires tokens { cuts.old.tokens.now ≡ rule.now.right }
    requires room { HasPlaces (length spans.old.items) rule.now }
    requires within { IsWithinBudget listing.old }
    ensures added { OnOk result (Adds key (map (cut_edge restrictions.now key rule.now)
        (remaining cuts.old)) listing.old listing.new) }
    ensures more { result ≡ Err ExpandError.More →
        Overruns (map (cut_edge restrictions.now key rule.now) (remaining cuts.old)) listing.old }
    ensures within { OnOk result (IsWithinBudget listing.new) }
{
    while next_cut(cuts)? {
        match add_cut(restrictions, rule, key, cuts.places(), spans, listing) {
            Ok(()) => {}
            Err(fault) => return Err(fault),
        }
    }
    Ok(())
}

/// A linear and nondeleting transducer and a string, with what is looked up in them.
#[derive(Drop)]
pub struct Parse<'a, S> {
    /// The transducer.
    pub transducer: &'a StringTransducer<S>,
    /// The words of the string.
    pub string: &'a [Label],
    restrictions: Restrictions,
    moves: Moves,
    pub ghost numbered: { restrictions ≡ restricted_labels transducer.now.rules },
    pub ghost indexed: { IsMoves transducer.now.rules moves },
    pub ghost few: { length string.now < 2 ^ 32 },
    pub ghost start: { 0 < length transducer.now.names },
    pub ghost range: { AreStatesBelow (length transducer.now.names) transducer.now.rules },
}

impl<'a, S> Parse<'a, S> {
    /// What is hunted for a transducer and a string. `Class` exactly where the transducer is not
    /// linear and nondeleting: it names the first such rule, and linear comes before nondeleting.
    /// `OutOfMemory` only if memory is refused, or where the string has 2^32 words or more, a
    /// left-hand side more than 4,000,000,000 items, or its variables more than 4,000,000,000
    /// labels. Cost: a few passes over the rules of the transducer.
    pub fn new(
        alloc: Global,
        transducer: &'a StringTransducer<S>,
        string: &'a [Label],
    ) -> Result<Parse<'a, S>, ClassError>
        ensures transducer { IfOk result (λ p. p.transducer.now ≡ transducer.now) }
        ensures string { IfOk result (λ p. p.string.now ≡ string.now) }
        ensures linear { IfOk result (λ _. AreLinear transducer.now.rules) }
        ensures nondeleting { IfOk result (λ _. AreNondeleting transducer.now.rules) }
        ensures fault { IfErr result (IsStringFault transducer.now.rules) }
    {
        if let Some((rule, fault)) = string_outside(transducer) {
            return Err(ClassError::Class { rule, fault });
        }
        if string.len() > 4_294_967_295 {
            return Err(ClassError::OutOfMemory);
        }
        transducer.is_sound();
        let Ok(restrictions) = restrictions_of(alloc, transducer.rule_list()) else {
            return Err(ClassError::OutOfMemory);
        };
        let Ok(moves) = Moves::new(alloc, transducer) else {
            return Err(ClassError::OutOfMemory);
        };
        Ok(Parse {
            transducer,
            string,
            restrictions,
            moves,
        })
    }

    /// Lists the edges of a key with the rule at a position of the transducer.
    fn add_rule(
        &self,
        alloc: Global,
        key: Key,
        position: u32,
        spans: &mut Vec<Span>,
        listing: &mut Listing<'a>,
    ) -> Result<(), ExpandError>
        requires below { position < length self.now.transducer.now.rules }
        requires state { (string_rule self.now.transducer.now.rules position).state ≡ key.0 }
        requires from { key.1 ≤ key.2 }
        requires to { key.2 ≤ length self.now.string.now }
        requires within { IsWithinBudget listing.old }
        ensures added { let edges = edges_at self.now.transducer.now.rules self.now.string.now key
            position in
            OnOk result (Adds key edges listing.old listing.new) }
        ensures more { let edges = edges_at self.now.transducer.now.rules self.now.string.now key
            position in
            result ≡ Err ExpandError.More → Overruns edges listing.old }
        ensures within { OnOk result (IsWithinBudget listing.new) }
    {
        let transducer = self.transducer;
        transducer.is_sound();
        let rule = &transducer.rule_list()[position as usize];
        if !admits(&self.restrictions, key, rule) {
            return Ok(());
        }
        let Ok(()) = make_room(spans, rule.left.items().len()) else {
            return Err(ExpandError::OutOfMemory);
        };
        match Cuts::new(
            alloc,
            self.string,
            rule.right.tokens(),
            key.from(),
            key.to(),
        ) {
            Ok(Some(mut cuts)) => {
                add_cuts(&self.restrictions, rule, key, &mut cuts, spans, listing)
            }
            Ok(None) => Ok(()),
            Err(_) => Err(ExpandError::OutOfMemory),
        }
    }

    /// The edges of a key at a position.
    pub(crate) fn list_edges(
        &self,
        alloc: Global,
        key: Key,
        position: u32,
        budget: u64,
    ) -> Result<Listing<'a>, ExpandError>
        requires from { key.1 ≤ key.2 }
        requires to { key.2 ≤ length self.now.string.now }
        requires budget { budget ≤ most_parts }
        ensures listed { IfOk result (IsListed key (edges_of self.now.transducer.now.rules
            self.now.string.now key)) }
        ensures more { result ≡ Err ExpandError.More →
            budget < total edge_parts (edges_of self.now.transducer.now.rules self.now.string.now
            key) }
        ensures within { IfOk result IsWithinBudget }
        ensures position { IfOk result (λ l. l.position ≡ position) }
        ensures budget { IfOk result (λ l. l.budget ≡ budget) }
    {
        let mut listing = Listing::new(alloc, position, budget);
        let mut spans = Vec::new(alloc);
        for place in self.moves.of(key.state()) {
            match self.add_rule(alloc, key, *place, &mut spans, &mut listing) {
                Ok(()) => {}
                Err(fault) => return Err(fault),
            }
        }
        Ok(listing)
    }
}
