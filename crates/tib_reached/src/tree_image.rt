//! The keys that are reached, with their rules.

ghost use Rattle.std.specs.Prelude.{◌≤◌, length, IfOk, IfErr};
ghost use Rattle.tib_expand.specs.Reached.{most_parts, IsBeyond};
ghost use Rattle.tib_expand.specs.Limits.{IfTooMany};
ghost use Rattle.tib_image.specs.Answered.{IsImage, AreOverOrder, HasParts};
ghost use Rattle.tib_image.specs.Image.{image_of};

use crate::hunters::Hunters;
use std::alloc::Global;
use std::sync::Wait;
use std::thread::Threads;
use tib_cost::Semiring;
use tib_expand::{Found, Gate, HuntError};
use tib_grammar::Rule;
use tib_hunt::{hunt, hunt_alone};
use tib_image::{Image, Key};
use tib_transducer::Transducer;
use tib_tree::Tree;

/// The keys that are reached from the key of the start and the root of a tree, in the order by
/// rounds, and the rules over their positions. As a grammar whose start is position 0 they give
/// each tree the cost of the transducer at the tree that is given and it (`image_means` of
/// tib_image). The transducer may copy, delete, be extended and be labelled. `TooMany` exactly
/// where they have more parts than the limit, 1 to `MOST_PARTS` of tib_expand; `OutOfMemory` if
/// memory is refused. Calls `gate` once for each key. Cost: for each key one look-up by hash, one
/// step for each item of the left-hand sides that begin with the label and the rank of its node,
/// and the edges that are made, in addition to the hunt's own (`hunt_alone`). The image of a tree
/// under a transducer is from Comon and others, 2007.
pub fn image<S: Semiring, G: Gate>(
    alloc: Global,
    transducer: &Transducer<S>,
    tree: &Tree,
    limit: u64,
    gate: &G,
) -> Result<Found<Key, Rule<u32>>, HuntError>
    requires some { 1 ≤ limit }
    requires limit { limit ≤ most_parts }
    ensures reached { IfOk result (IsImage transducer.now.rules tree.now) }
    ensures range { IfOk result AreOverOrder }
    ensures parts { IfOk result (HasParts transducer.now.rules tree.now) }
    ensures within { IfOk result (λ f. f.parts ≤ limit) }
    ensures few { IfOk result (λ f. length f.order.items ≤ limit) }
    ensures few_rules { IfOk result (λ f. length f.rules.items ≤ limit) }
    ensures more { IfErr result
        (IfTooMany limit (IsBeyond (image_of transducer.now.rules tree.now) limit)) }
{
    let Ok(problem) = Image::new(alloc, transducer, tree) else {
        return Err(HuntError::OutOfMemory);
    };
    hunt_alone(alloc, &problem, limit, gate)
}

/// What `image` returns, found by this number of workers, 1 to 16, whatever the order of their
/// steps. It may wait forever, as the hunt by several workers (`hunt` of tib_hunt). Errors are
/// those of `image`, and so is the cost, except for keys that are expanded again.
pub fn image_together<S: Semiring + Sync, R: Threads + Wait + Sync, G: Gate + Sync>(
    hunters: &Hunters<R, G>,
    alloc: Global,
    transducer: &Transducer<S>,
    tree: &Tree,
    limit: u64,
) -> Result<Found<Key, Rule<u32>>, HuntError>
    requires workers { (1 ≤ hunters.now.workers) × (hunters.now.workers ≤ 16) }
    requires some { 1 ≤ limit }
    requires limit { limit ≤ most_parts }
    ensures reached { IfOk result (IsImage transducer.now.rules tree.now) }
    ensures range { IfOk result AreOverOrder }
    ensures parts { IfOk result (HasParts transducer.now.rules tree.now) }
    ensures within { IfOk result (λ f. f.parts ≤ limit) }
    ensures few { IfOk result (λ f. length f.order.items ≤ limit) }
    ensures few_rules { IfOk result (λ f. length f.rules.items ≤ limit) }
    ensures more { IfErr result
        (IfTooMany limit (IsBeyond (image_of transducer.now.rules tree.now) limit)) }
{
    let Ok(problem) = Image::new(alloc, transducer, tree) else {
        return Err(HuntError::OutOfMemory);
    };
    hunt(
        hunters.rt,
        alloc,
        &problem,
        hunters.workers,
        limit,
        hunters.gate,
    )
}
