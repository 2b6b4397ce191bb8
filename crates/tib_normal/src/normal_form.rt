// The normal form of a grammar.
ghost use Rattle.tib_grammar.specs.Series.{KeepsSeries};
ghost use Rattle.tib_lex.specs.Lists.{total};
ghost use Rattle.tib_lex.specs.Limits.{most_parts};
ghost use Rattle.tib_grammar.specs.Sides.{labels_in};
ghost use Rattle.std.specs.Prelude.{◌≡◌, ℕ, ◌+◌, ◌<◌, ◌≤◌, ◌^◌, List, [], ◌∷◌, length, OnOk, IfErr, IfOk, None, Some, Option, IfSome, IfNone, sum_by, reverse, ◌++◌};
ghost use Rattle.tib_normal.specs.NormalForm.{all_inner, IsNormalForm, rule_parts, normal_parts};
ghost use Rattle.tib_normal.specs.Rows.{AreSides, AreOwn, AreTooMany, IfTooMany, HasMoreParts};
ghost use Rattle.tib_normal.specs.Rules.{IsNormal};
ghost use Rattle.tib_grammar.specs.Range.{AreInRange};
ghost use Rattle.tib_grammar.specs.ShapeBuckets.{lists_of};
ghost use Rattle.tib_normal.specs.Places.{below_root, parts_below, rule_labels};

use crate::error::NormalError;
use crate::normal::Normal;
use crate::place_names::all_names;
use crate::rows::{Made, arrange};
use crate::sides::Sides;
use crate::spread::gather;
use crate::ways::Ways;
use std::alloc::{AllocError, Global};
use tib_cost::Semiring;
use tib_grammar::{Grammar, Item, Names, Rule};

/// How many inner states there are, and the parts that they and their rules have.
#[derive(Drop)]
struct Places {
    states: u32,
    parts: u64,
}

impl Places {
    /// Counts the labels below a root, where the parts stay within the limit.
    fn count_side(self, items: &[Item<u32>], limit: u64) -> Option<Places>
        requires items { 0 < length items.now }
        requires limit { limit ≤ most_parts }
        requires parts { self.parts ≤ limit }
        requires states { self.states ≤ self.parts }
        ensures within { IfSome result (λ p. p.parts ≤ limit) }
        ensures states { IfSome result (λ p. p.states + self.parts ≤ p.parts + self.states) }
        ensures counted { IfSome result (λ p. p.states
            ≡ self.states + labels_in (below_root items.now)) }
        ensures parts { IfSome result (λ p. p.parts ≡ self.parts + parts_below items.now) }
        ensures many { IfNone result (limit < self.parts + parts_below items.now) }
    {
        let Places {
            mut states,
            mut parts,
        } = self;
        for item in &items[1..] {
            if let Item::Label { rank, .. } = item {
                states += 1;
                parts += 3 + *rank as u64;
                if parts > limit {
                    return None;
                }
            }
        }
        Some(Places { states, parts })
    }
}

/// The inner states of some rules, and the parts of these states and of their rules, besides the
/// parts of the grammar's states; none where there are more than the limit.
fn count_places(rules: &[Rule<u32>], states: u32, limit: u64) -> Option<Places>
    requires { limit ≤ most_parts }
    ensures within { IfSome result (λ p. p.parts ≤ limit) }
    ensures states { IfSome result (λ p. p.states + states ≤ p.parts) }
    ensures counted { IfSome result (λ p. p.states ≡ sum_by rule_labels rules.now) }
    ensures parts { IfSome result (λ p. p.parts
        ≡ normal_parts (states + length (all_inner states rules.now))
        (all_inner states rules.now)) }
    ensures many { IfNone result (limit < normal_parts
        (states + length (all_inner states rules.now)) (all_inner states rules.now)) }
{
    if states as u64 > limit {
        return None;
    }
    let mut places = Places {
        states: 0,
        parts: states as u64,
    };
    for rule in rules {
        places = places.count_side(rule.right.items(), limit)?;
    }
    Some(places)
}

/// The normal form of a grammar: its states, and an inner state for each label below the root of a
/// right side. Each state gets, at the least cost, the right sides of the states to which its chain
/// rules lead: each side spreads against the chain rules, from all rules with this side together
/// (least costs by Dijkstra, 1959).
///
/// The limit is from 1 to 20,000,000. It returns `TooMany` if the normal form has more parts than
/// that, and takes no memory for more; `OutOfMemory` says nothing about the grammar, which is
/// unchanged in each case.
///
/// Worst case: with n rules, of which c are chain rules, and s states, each of at most n sides
/// spreads to each state once and follows each chain rule once, so O(n (s + c) log n) steps besides
/// one pass over the grammar. A side makes a rule at each state that it reaches, so with m rules
/// made, at most the limit, the steps are also within O((n + m (1 + d)) log n), where d is the
/// greatest number of chain rules to one state.
pub fn normalize<S: Semiring + Drop>(
    alloc: Global,
    grammar: &Grammar<S>,
    limit: u64,
) -> Result<Normal<S>, NormalError>
    requires from { 1 ≤ limit }
    requires to { limit ≤ most_parts }
    ensures form { IfOk result (λ n. IsNormalForm S.product (length grammar.now.names)
        grammar.now.rules (length n.names) n.rules) }
    ensures names { IfOk result (λ n. (rest : List (List ℕ))
        × (n.names ≡ grammar.now.names ++ rest)) }
    ensures series { IfOk result (λ n. KeepsSeries S.product (length grammar.now.names)
        grammar.now.rules n.rules) }
    ensures within { IfOk result (λ n. normal_parts (length n.names) n.rules ≤ limit) }
    ensures many { IfErr result (λ e. IfTooMany e limit
        (HasMoreParts S.product (length grammar.now.names) grammar.now.rules limit)) }
{
    grammar.is_sound();
    let listed = match list_rules::<S>(alloc, grammar.rule_list(), grammar.states(), limit) {
        Ok(listed) => listed,
        Err(fault) => return Err(fault),
    };
    let Listed { rules, places } = listed;
    match assemble(alloc, grammar.names(), places, rules) {
        Ok(normal) => Ok(normal),
        Err(_) => Err(NormalError::OutOfMemory),
    }
}

/// The rules of the normal form, and how many inner states they have.
#[derive(Drop)]
struct Listed {
    rules: Vec<Rule<u32>>,
    places: u32,
}

/// The rules of the normal form of some rules over this number of states.
fn list_rules<S: Semiring>(
    alloc: Global,
    rules: &[Rule<u32>],
    states: u32,
    limit: u64,
) -> Result<Listed, NormalError>
    requires limit { limit ≤ most_parts }
    requires few { length rules.now < 2 ^ 32 }
    requires range { AreInRange states rules.now }
    ensures form { IfOk result (λ l. IsNormalForm S.product states rules.now (states + l.places)
        l.rules.items) }
    ensures within { IfOk result (λ l. normal_parts (states + l.places) l.rules.items ≤ limit) }
    ensures many { IfErr result (λ e. IfTooMany e limit
        (HasMoreParts S.product states rules.now limit)) }
{
    let places = match count_places(rules, states, limit) {
        Some(places) => places,
        None => return Err(NormalError::TooMany { limit }),
    };
    let sides = Sides::new(alloc, rules, states, states + places.states, S::one())?;
    let own = match list_own::<S>(alloc, rules, &sides, states, places.parts, limit) {
        Ok(own) => own,
        Err(fault) => return Err(fault),
    };
    let rules = with_places(own, sides)?;
    Ok(Listed {
        rules,
        places: places.states,
    })
}

/// The rules of the grammar's own states in the normal form; `parts` counts what the inner states
/// have already.
fn list_own<S: Semiring>(
    alloc: Global,
    rules: &[Rule<u32>],
    sides: &Sides,
    states: u32,
    parts: u64,
    limit: u64,
) -> Result<Vec<Rule<u32>>, NormalError>
    requires limit { limit ≤ most_parts }
    requires parts { parts ≤ limit }
    requires few { length rules.now < 2 ^ 32 }
    requires range { AreInRange states rules.now }
    requires long { length sides.now.numbers.items ≡ length rules.now }
    requires sides { AreSides states rules.now (lists_of sides.now.table.keys)
        sides.now.numbers.items }
    ensures own { IfOk result (λ own. AreOwn S.product states rules.now states own.items) }
    ensures within { IfOk result (λ own. parts + total rule_parts own.items ≤ limit) }
    ensures many { IfErr result (λ e. IfTooMany e limit
        (AreTooMany S.product states rules.now parts limit)) }
{
    let ways = Ways::new(
        alloc,
        rules,
        &sides.numbers,
        sides.table.len(),
        states as usize,
    )?;
    let mut made = Made {
        rows: Vec::new(alloc),
        parts,
        limit,
    };
    match gather::<S>(alloc, rules, &ways, sides, states, &mut made) {
        Ok(()) => {}
        Err(error) => return Err(error),
    }
    Ok(arrange(alloc, &made.rows, sides, states)?)
}

/// The rules of the states and, after them, those of the inner states.
fn with_places(rules: Vec<Rule<u32>>, sides: Sides) -> Result<Vec<Rule<u32>>, AllocError>
    ensures { IfOk result (λ all. all.items ≡ rules.items ++ reverse sides.inner.items) }
{
    let mut all = rules;
    let Sides { mut inner, .. } = sides;
    while let Some(rule) = inner.pop() {
        all.push(rule)?;
    }
    Ok(all)
}

/// The grammar of these rules in normal form.
fn assemble<S: Drop>(
    alloc: Global,
    names: &Names,
    places: u32,
    rules: Vec<Rule<u32>>,
) -> Result<Normal<S>, AllocError>
    requires start { 0 < length names.now }
    requires few_places { places < 100000000 }
    requires few_states { length names.now + places < 2 ^ 32 }
    requires few_rules { length rules.items ≤ most_parts }
    requires range { AreInRange (length names.now + places) rules.items }
    requires normal { IsNormal rules.items }
    ensures rules { IfOk result (λ n. n.rules ≡ rules.items) }
    ensures states { IfOk result (λ n. length n.names ≡ length names.now + places) }
    ensures names { IfOk result (λ n. (rest : List (List ℕ)) × (n.names ≡ names.now ++ rest)) }
{
    let names = all_names(alloc, names, places)?;
    match Grammar::new(names, rules) {
        Some(grammar) => Normal::indexed(alloc, grammar),
        None => unreachable!(),
    }
}
