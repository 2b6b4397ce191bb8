// Small hunts: what they reach, how many parts that has, and what a limit leaves.
ghost use Rattle.std.specs.Prelude.{◌≡◌, ◌<◌, ◌≤◌, ◌+◌, ◌-◌, ℕ, [], ◌∷◌, length, IfOk, IfErr, OnOk};
ghost use Rattle.tib_lex.specs.Lists.{Has};
ghost use Rattle.tib_table.specs.Known.{on};
ghost use Rattle.tib_expand.specs.EdgeLists.{IsWithin, position_of};
ghost use Rattle.tib_expand.specs.Reached.{most_parts};
ghost use Rattle.tib_hunt.specs.RoundModel.{opened};
ghost use Rattle.tib_expand.specs.declared.place.Place.{Place};
ghost use Rattle.std.proofs.Common.{◌∙◌, sym};

use std::alloc::{AllocError, Global};
use tib_expand::{Edges, Expand, ExpandError, Found, HuntError, Open, Place, TableKey};
use tib_hunt::{Answer, Event, Itemized, Round, RoundOf, hunt_alone};
use tib_table::{Number, Problem};

#[derive(Clone, Copy, Debug, Drop, PartialEq, Eq, PartialOrd, Ord, Hash)]
pub(crate) struct Node {
    pub(crate) number: u32,
}

impl TableKey for Node {
    ghost use Rattle.std.specs.Prelude.{◌%◌};
    ghost use Rattle.std.proofs.Common.{rules, arith, mod-lt};

    ghost shelf_of = { λ k. k.number % 16 };

    ghost entries_of = { λ k. k.number % 3 };

    fn shelf(&self) -> u32 {
        self.number % 16
    }

    fn entries(&self) -> u64 {
        self.number as u64 % 3
    }

    ghost low = { λ k. mod-lt k.number (Prim.omega arith) };

    ghost same = { λ x y e. Prim.search rules };
}

/// An operation whose seed is the node 5, and of which each position has one edge, to the node 7.
struct Sevens;

impl Expand for Sevens {
    ghost use Rattle.std.specs.Prelude.{◌≡◌, [], ◌∷◌, refl};
    ghost use Rattle.tib_expand.specs.Keys.{key_parts};
    ghost use Rattle.tib_expand.specs.Reached.{exploration};

    type Key = Node;

    type Over = Place;

    type Rule = u32;

    type Index = ();

    type Origin = u32;

    type Edge = Node;

    ghost hunted = { λ _. exploration ⟦<Node as Ord>⟧.cmp (λ k. k ≡ record { number = 5 })
        (λ _ _. ⊥) (λ _ _ o e. (o ≡ 0) × (e ≡ record { number = 7 })) (λ e. e ∷ [])
        (key_parts ⟦<Node as TableKey>⟧.entries_of) (λ _. 1) };

    ghost admits = { λ _ _. Unit {0} };

    ghost indexes = { λ _ _ _. Unit {0} };

    ghost reading = { record {
      places = λ r. r ∷ [];
      positions = λ r. r ∷ [];
      read_places = λ f r. f r;
      read_positions = λ f r. f r;
    } };

    fn seeds(&self, alloc: Global, budget: u64) -> Result<Edges<Node, Place>, ExpandError> {
        let _budget = budget;
        let Ok(ends) = Vec::from_array(alloc, [Node { number: 5 }]) else {
            return Err(ExpandError::OutOfMemory);
        };
        Ok(Edges {
            ends,
            rules: Vec::new(alloc),
            parts: 0,
        })
    }

    fn begin_index(&self, _alloc: Global) -> Result<(), AllocError> {
        Ok(())
    }

    fn extend_index(
        &self,
        _alloc: Global,
        _index: &mut (),
        _order: &[Node],
        _from: u32,
    ) -> Result<(), AllocError> {
        Ok(())
    }

    fn expand(
        &self,
        alloc: Global,
        order: &[Node],
        _index: &(),
        n: u32,
        budget: u64,
    ) -> Result<Edges<Node, Place>, ExpandError> {
        let _position = &order[n as usize];
        if budget == 0 {
            return Err(ExpandError::More);
        }
        let Ok(ends) = Vec::from_array(alloc, [Node { number: 7 }]) else {
            return Err(ExpandError::OutOfMemory);
        };
        let Ok(rules) = Vec::from_array(alloc, [Place::End(0)]) else {
            return Err(ExpandError::OutOfMemory);
        };
        Ok(Edges {
            ends,
            rules,
            parts: 1,
        })
    }

    fn settle(&self, alloc: Global, rule: &Place, ends: &[u32]) -> Result<u32, AllocError> {
        let _alloc = alloc;
        match *rule {
            Place::Known(position) => Ok(position),
            Place::End(end) => Ok(ends[end as usize]),
        }
    }

    ghost lawful = { λ p. record {
      same_order = refl;
      same_parts = refl;
      reads_places = λ rule f g same. same.0;
      reads_positions = λ rule f g same. same.0;
      one_edge = λ order n o e f a b. a.1 ∙ sym b.1;
      one_seed_edge = λ o e f a b. absurd a;
      seeds_admitted = λ k s. tt;
      ends_admitted = λ order n o e k all low is has. tt;
      seeds_end = λ o e k is has. absurd is;
      edges_stay = λ xs ys n o e a b same is. is;
    } };
}

// The answers of a draw in a new round, and of the number of the node 7.
fn draw_and_number<P: Itemized + Problem<Key = Node>>(
    round: &mut Round<P>,
) -> Result<(Answer, Answer), AllocError>
    requires new { round.old.core ≡ opened }
    requires one { P.count_of round.old.about ≡ 1 }
    requires first { P.first_of round.old.about ≡ 0 }
    requires seven { P.is_end round.old.about 0 (record { number = 7 }) }
    ensures about { round.new.about ≡ round.old.about }
    ensures drawn { OnOk result (round.new.core.drawn ≡ 1) }
    ensures filed { OnOk result (round.new.core.filed ≡ []) }
    ensures shelved { OnOk result (Has (on round.new.core.shelves 7) (record { number = 7 })) }
{
    let drawn = round.step(Event::Draw)?;
    let key = Node { number: 7 };
    let numbered = round.step(Event::Number { key })?;
    Ok((drawn, numbered))
}

// The answers of those two events, of the filing of the item that was drawn, and of another draw.
fn take_one_item<P: Itemized + Problem<Key = Node>>(
    round: &mut Round<P>,
) -> Result<[Answer; 4], AllocError>
    requires new { round.old.core ≡ opened }
    requires one { P.count_of round.old.about ≡ 1 }
    requires first { P.first_of round.old.about ≡ 0 }
    requires seven { P.is_end round.old.about 0 (record { number = 7 }) }
    requires only { (k : Node) → P.is_end round.old.about 0 k → k ≡ record { number = 7 } }
{
    let (drawn, numbered) = draw_and_number(round)?;
    let filed = round.step(Event::File { item: 0 })?;
    let none = round.step(Event::Draw)?;
    Ok([drawn, numbered, filed, none])
}

// What those events are answered where the item ends at the node 7 alone.
const ANSWERS: [Answer; 4] = [
    Answer::Drawn(Some(0)),
    Answer::Numbered(Number { shelf: 7, place: 0 }),
    Answer::Filed,
    Answer::Drawn(None),
];

// Whether a round of one item, which ends at the node 7 alone, has these answers.
fn takes_one_item<P: Itemized + Problem<Key = Node> + Copy>(alloc: Global, problem: P) -> bool
    requires one { P.count_of (P.about problem) ≡ 1 }
    requires first { P.first_of (P.about problem) ≡ 0 }
    requires seven { P.is_end (P.about problem) 0 (record { number = 7 }) }
    requires only { (k : Node) → P.is_end (P.about problem) 0 k → k ≡ record { number = 7 } }
{
    match Round::open(alloc, problem) {
        Ok(mut round) => take_one_item(&mut round) == Ok(ANSWERS),
        Err(_) => false,
    }
}

// The order of the one seed.
static SEED: [Node; 1] = [Node { number: 5 }];

// Whether a round of the one seed has these answers.
fn takes_the_seed(alloc: Global) -> bool {
    let round = RoundOf {
        problem: &Sevens,
        order: &SEED,
        first: 0,
    };
    takes_one_item(alloc, &round)
}

#[test]
fn a_round_of_the_one_seed(rt: HostRuntime) {
    assert!(rt; takes_the_seed(rt.alloc()));
}

// Whether this many keys and rules were found, with this many parts.
pub(crate) fn has_sizes<K, R>(found: &Found<K, R>, keys: usize, rules: usize, parts: u64) -> bool {
    found.order.len() == keys && found.rules.len() == rules && found.parts == parts
}

// Whether seven parts are room for what an operation reaches, and that has two keys, two rules and
// seven parts.
fn finds_seven_parts<E: Expand>(alloc: Global, problem: &E) -> bool {
    match hunt_alone(alloc, problem, 7, &Open) {
        Ok(found) => has_sizes(&found, 2, 2, 7),
        Err(_) => false,
    }
}

#[test]
fn sevens_are_found_within_seven_parts(rt: HostRuntime) {
    assert!(rt; finds_seven_parts(rt.alloc(), &Sevens));
}

// Whether what an operation reaches has more parts than the limit.
fn exceeds<E: Expand>(alloc: Global, problem: &E, limit: u64) -> bool
    requires { (1 ≤ limit) × (limit ≤ most_parts) }
{
    match hunt_alone(alloc, problem, limit, &Open) {
        Ok(_) => false,
        Err(error) => error == HuntError::TooMany { limit },
    }
}

#[test]
fn sevens_have_more_than_six_parts(rt: HostRuntime) {
    assert!(rt; exceeds(rt.alloc(), &Sevens, 6));
}

/// An operation whose seed is the node 1, and of which each of the first four positions n has one
/// edge, to the nodes 15 + n and 18 - n. The first round appends 15 and 18, of which 18 has the
/// lower shelf. The second sees 16 and 17 twice, and the third ends at known keys alone.
struct Fans;

impl Expand for Fans {
    ghost use Rattle.std.specs.Prelude.{◌≡◌, ◌<◌, ◌+◌, ◌-◌, [], ◌∷◌, refl};
    ghost use Rattle.tib_expand.specs.Keys.{key_parts};
    ghost use Rattle.tib_expand.specs.Reached.{exploration};

    type Key = Node;

    type Over = (Place, Place);

    type Rule = (u32, u32);

    type Index = ();

    type Origin = u32;

    type Edge = (Node, Node);

    ghost hunted = { λ _. exploration ⟦<Node as Ord>⟧.cmp (λ k. k ≡ record { number = 1 })
        (λ _ _. ⊥) (λ _ n o e. (n < 4) × (o ≡ 0) × (e ≡ (record { number = 15 + n }, record { number = 18 - n }))) (λ e. e.0 ∷ e.1 ∷ [])
        (key_parts ⟦<Node as TableKey>⟧.entries_of) (λ _. 1) };

    ghost admits = { λ _ _. Unit {0} };

    ghost indexes = { λ _ _ _. Unit {0} };

    ghost reading = { record {
      places = λ r. r.0 ∷ r.1 ∷ [];
      positions = λ r. r.0 ∷ r.1 ∷ [];
      read_places = λ f r. (f r.0, f r.1);
      read_positions = λ f r. (f r.0, f r.1);
    } };

    fn seeds(
        &self,
        alloc: Global,
        budget: u64,
    ) -> Result<Edges<Node, (Place, Place)>, ExpandError> {
        let _budget = budget;
        let Ok(ends) = Vec::from_array(alloc, [Node { number: 1 }]) else {
            return Err(ExpandError::OutOfMemory);
        };
        Ok(Edges {
            ends,
            rules: Vec::new(alloc),
            parts: 0,
        })
    }

    fn begin_index(&self, _alloc: Global) -> Result<(), AllocError> {
        Ok(())
    }

    fn extend_index(
        &self,
        _alloc: Global,
        _index: &mut (),
        _order: &[Node],
        _from: u32,
    ) -> Result<(), AllocError> {
        Ok(())
    }

    fn expand(
        &self,
        alloc: Global,
        order: &[Node],
        _index: &(),
        n: u32,
        budget: u64,
    ) -> Result<Edges<Node, (Place, Place)>, ExpandError> {
        let _position = &order[n as usize];
        if n >= 4 {
            return Ok(Edges {
                ends: Vec::new(alloc),
                rules: Vec::new(alloc),
                parts: 0,
            });
        }
        if budget == 0 {
            return Err(ExpandError::More);
        }
        match fan(alloc, n) {
            Ok(edges) => Ok(edges),
            Err(error) => Err(error),
        }
    }

    fn settle(
        &self,
        alloc: Global,
        rule: &(Place, Place),
        ends: &[u32],
    ) -> Result<(u32, u32), AllocError> {
        let _alloc = alloc;
        Ok((position_at(rule.0, ends), position_at(rule.1, ends)))
    }

    ghost lawful = { λ p. record {
      same_order = refl;
      same_parts = refl;
      reads_places = λ rule f g same. λ i. (same.0 i, same.1.0 i);
      reads_positions = λ rule f g same. λ i. (same.0 i, same.1.0 i);
      one_edge = λ order n o e f a b. a.2 ∙ sym b.2;
      one_seed_edge = λ o e f a b. absurd a;
      seeds_admitted = λ k s. tt;
      ends_admitted = λ order n o e k all low is has. tt;
      seeds_end = λ o e k is has. absurd is;
      edges_stay = λ xs ys n o e a b same is. is;
    } };
}

// The edge of a position.
fn fan(alloc: Global, n: u32) -> Result<Edges<Node, (Place, Place)>, ExpandError>
    requires { n < 4 }
    ensures ends { IfOk result (λ r. r.ends.items ≡ record { number = 15 + n } ∷ record
        { number = 18 - n } ∷ []) }
    ensures rules { IfOk result (λ r. r.rules.items ≡ (Place.End 0, Place.End 1) ∷ []) }
    ensures parts { IfOk result (λ r. r.parts ≡ 1) }
    ensures error { IfErr result (λ e. e ≡ ExpandError.OutOfMemory) }
{
    let nodes = [Node { number: 15 + n }, Node { number: 18 - n }];
    let Ok(ends) = Vec::from_array(alloc, nodes) else {
        return Err(ExpandError::OutOfMemory);
    };
    let Ok(rules) = Vec::from_array(alloc, [(Place::End(0), Place::End(1))]) else {
        return Err(ExpandError::OutOfMemory);
    };
    Ok(Edges {
        ends,
        rules,
        parts: 1,
    })
}

pub(crate) fn position_at(place: Place, ends: &[u32]) -> u32
    requires { (known : ℕ) × IsWithin known (length ends.now) place }
    ensures { result ≡ position_of ends.now place }
{
    match place {
        Place::Known(position) => position,
        Place::End(end) => ends[end as usize],
    }
}

// The keys that fans reach, in the order by rounds.
static FANNED: [Node; 5] = [
    Node { number: 1 },
    Node { number: 15 },
    Node { number: 18 },
    Node { number: 16 },
    Node { number: 17 },
];

// The rules of fans, over places of that order.
static FOLDS: [(u32, u32); 4] = [(1, 2), (3, 4), (4, 3), (2, 1)];

// Whether all keys and rules of fans were found, in order, and thirteen parts.
fn are_fans(found: &Found<Node, (u32, u32)>) -> bool {
    &found.order[..] == &FANNED[..] && &found.rules[..] == &FOLDS[..] && found.parts == 13
}

// Whether thirteen parts are room for what fans reach.
fn finds_fans(alloc: Global) -> bool {
    match hunt_alone(alloc, &Fans, 13, &Open) {
        Ok(found) => are_fans(&found),
        Err(_) => false,
    }
}

#[test]
fn fans_are_found_in_the_order_by_rounds(rt: HostRuntime) {
    assert!(rt; finds_fans(rt.alloc()));
}

#[test]
fn fans_have_more_than_twelve_parts(rt: HostRuntime) {
    for limit in 1..13 {
        assert!(rt; exceeds(rt.alloc(), &Fans, limit));
    }
}
