//! The keys that parsing reaches, with their rules.

ghost use Rattle.std.specs.Prelude.{◌≤◌, length, IfOk, IfErr};
ghost use Rattle.tib_expand.specs.Reached.{most_parts};
ghost use Rattle.tib_strings.specs.Range.{AreLinear, AreNondeleting};
ghost use Rattle.tib_image.specs.ParseAnswered.{IsParsed, AreOverOrder, HasParts, HasStringSeries, IsParseFault};

use crate::hunters::Hunters;
use std::alloc::Global;
use std::sync::Wait;
use std::thread::Threads;
use tib_apply::ApplyError;
use tib_cost::Semiring;
use tib_expand::{Found, Gate};
use tib_grammar::Rule;
use tib_hunt::{hunt, hunt_alone};
use tib_image::parse::laws::reached_parses;
use tib_image::parse::{Key, Parse};
use tib_strings::StringTransducer;
use tib_tree::Label;

/// The keys that parsing reaches from the key of the start over a whole string, in the order by
/// rounds, and the rules over their positions. As a grammar whose start is position 0 they give
/// each tree the cost that the transducer gives the tree and the string. `Class` exactly where the
/// transducer is not linear and nondeleting: it names the first such rule, and linear comes before
/// nondeleting. `TooMany` exactly where it is and the keys and rules have more parts than the
/// limit, 1 to `MOST_PARTS` of tib_expand; `OutOfMemory` if memory is refused, or where the string
/// has 2^32 words or more. Calls `gate` once for each key. Cost: for each key and each rule of its
/// state one step for each token of its right-hand side and each place between those of the key,
/// and the search for its cuts (`Cuts` of tib_strings), in addition to the hunt's own
/// (`hunt_alone`).
pub fn parse<S: Semiring, G: Gate>(
    alloc: Global,
    transducer: &StringTransducer<S>,
    string: &[Label],
    limit: u64,
    gate: &G,
) -> Result<Found<Key, Rule<u32>>, ApplyError>
    requires some { 1 ≤ limit }
    requires limit { limit ≤ most_parts }
    ensures linear { IfOk result (λ _. AreLinear transducer.now.rules) }
    ensures nondeleting { IfOk result (λ _. AreNondeleting transducer.now.rules) }
    ensures reached { IfOk result (IsParsed transducer.now.rules string.now) }
    ensures range { IfOk result AreOverOrder }
    ensures series { IfOk result (HasStringSeries S.product transducer.now.rules string.now) }
    ensures parts { IfOk result (HasParts transducer.now.rules string.now) }
    ensures within { IfOk result (λ f. f.parts ≤ limit) }
    ensures few { IfOk result (λ f. length f.order.items ≤ limit) }
    ensures few_rules { IfOk result (λ f. length f.rules.items ≤ limit) }
    ensures fault { IfErr result (IsParseFault transducer.now.rules string.now limit) }
{
    transducer.is_sound();
    reached_parses::<S>();
    let problem = Parse::new(alloc, transducer, string)?;
    let found = hunt_alone(alloc, &problem, limit, gate)?;
    Ok(found)
}

/// What `parse` returns, found by this number of workers, 1 to 16, whatever the order of their
/// steps. It may wait forever, as the hunt by several workers (`hunt` of tib_hunt). Errors are
/// those of `parse`, and so is the cost, except for keys that are expanded again.
pub fn parse_together<S: Semiring + Sync, R: Threads + Wait + Sync, G: Gate + Sync>(
    hunters: &Hunters<R, G>,
    alloc: Global,
    transducer: &StringTransducer<S>,
    string: &[Label],
    limit: u64,
) -> Result<Found<Key, Rule<u32>>, ApplyError>
    requires workers { (1 ≤ hunters.now.workers) × (hunters.now.workers ≤ 16) }
    requires some { 1 ≤ limit }
    requires limit { limit ≤ most_parts }
    ensures linear { IfOk result (λ _. AreLinear transducer.now.rules) }
    ensures nondeleting { IfOk result (λ _. AreNondeleting transducer.now.rules) }
    ensures reached { IfOk result (IsParsed transducer.now.rules string.now) }
    ensures range { IfOk result AreOverOrder }
    ensures series { IfOk result (HasStringSeries S.product transducer.now.rules string.now) }
    ensures parts { IfOk result (HasParts transducer.now.rules string.now) }
    ensures within { IfOk result (λ f. f.parts ≤ limit) }
    ensures few { IfOk result (λ f. length f.order.items ≤ limit) }
    ensures few_rules { IfOk result (λ f. length f.rules.items ≤ limit) }
    ensures fault { IfErr result (IsParseFault transducer.now.rules string.now limit) }
{
    transducer.is_sound();
    reached_parses::<S>();
    let problem = Parse::new(alloc, transducer, string)?;
    let found = hunt(
        hunters.rt,
        alloc,
        &problem,
        hunters.workers,
        limit,
        hunters.gate,
    )?;
    Ok(found)
}
