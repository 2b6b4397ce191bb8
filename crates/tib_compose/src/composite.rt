//! The pairs of the states of two transducers, as what is hunted.

ghost use Rattle.std.specs.Prelude.{◌≡◌, ℕ, ◌<◌, length, IfOk, IfErr, true, false};
ghost use Rattle.tib_transducer.specs.Outside.{demands, AllMeet};
ghost use Rattle.tib_transducer.specs.Faults.{IsClassFault};
ghost use Rattle.tib_compose.specs.EdgeLaws.{StatesBelow};
ghost use Rattle.tib_compose.specs.Readers.{HoldsReaders};
ghost use Rattle.tib_transducer.specs.Moves.{IsStateIndex};

use crate::index::ByReading;
use std::alloc::Global;
use tib_key_edges::{ShapeIndex, index_rules};
use tib_transducer::{ClassError, StateIndex, Transducer, first_outside};

/// The pairs of a state of the first transducer and a state of the second, reached from the pair of
/// the starts.
#[derive(Drop)]
pub struct Composite<'a, S> {
    /// The first transducer.
    pub first: &'a Transducer<S>,
    /// The second transducer.
    pub second: &'a Transducer<S>,
    pub(crate) index: ShapeIndex,
    pub(crate) moves: StateIndex,
    pub ghost indexed: { HoldsReaders second.now.rules index },
    pub ghost moved: { IsStateIndex first.now.rules moves },
    pub ghost first_start: { 0 < length first.now.names },
    pub ghost second_start: { 0 < length second.now.names },
    pub ghost first_range: { StatesBelow (length first.now.names) first.now.rules },
    pub ghost second_range: { StatesBelow (length second.now.names) second.now.rules },
}

impl<'a, S> Composite<'a, S> {
    /// The pairs of two transducers, of which the second is linear, nondeleting, not extended and
    /// not labelled. `Class` exactly where it is not, with its first rule outside and the first
    /// class that this rule is outside of; `OutOfMemory` if memory is refused. Cost: one look-up by
    /// hash for each rule of the second transducer, and a pass over the states and the rules of the
    /// first, in addition to that of `first_outside`.
    pub fn new(
        alloc: Global,
        first: &'a Transducer<S>,
        second: &'a Transducer<S>,
    ) -> Result<Composite<'a, S>, ClassError>
        ensures first { IfOk result (λ c. c.first.now ≡ first.now) }
        ensures second { IfOk result (λ c. c.second.now ≡ second.now) }
        ensures class { IfOk result (λ _. AllMeet (demands true true true true false)
            second.now.rules) }
        ensures fault { IfErr result (IsClassFault (demands true true true true false)
            second.now.rules) }
    {
        if let Some((rule, fault)) = first_outside(second, true, true, true, true, false) {
            return Err(ClassError::Class { rule, fault });
        }
        first.is_sound();
        second.is_sound();
        let Ok(moves) = StateIndex::new(alloc, first) else {
            return Err(ClassError::OutOfMemory);
        };
        match index_rules::<ByReading>(alloc, second.rule_list()) {
            Ok(index) => Ok(Composite {
                first,
                second,
                index,
                moves,
            }),
            Err(_) => Err(ClassError::OutOfMemory),
        }
    }
}
