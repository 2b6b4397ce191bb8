// The rule of a turn lock: what holds of its words and its seats after every step.
use crate::grows::Grows;
use crate::view::View;
use atomic_table::{Join, Play, Split, TableRule};
use std::marker::PhantomData;
use std::snapshot::Snapshot;

/// What holds between any two steps: the log of the value under the lock extends what each pass has
/// seen.
pub struct TakesTurns<V> {
    of: PhantomData<V>,
}

impl<V: Grows> TableRule<Option<V>, View<V::Entry>, Snapshot<V>> for TakesTurns<V> {
    ghost use Rattle.tib_turn.specs.Turns.{InTurns, idle};

    ghost holds = { λ _. InTurns V.log };

    ghost first = { λ key. idle (V.log key.value) };
}

/// A step that draws the ticket that it expects to be next.
pub struct DrawTicket<V> {
    of: PhantomData<V>,
}

impl<V: Grows> Play<Option<V>, View<V::Entry>> for DrawTicket<V> {
    ghost use Rattle.tib_turn.specs.Steps.{Drawn};

    ghost then = { Drawn V.log };
}

/// A step that reads which ticket is served, and takes the value if it is the pass's own.
pub struct ReadServed<V> {
    of: PhantomData<V>,
}

impl<V: Grows> Play<Option<V>, View<V::Entry>> for ReadServed<V> {
    ghost use Rattle.tib_turn.specs.Steps.{Looked};

    ghost then = { Looked V.log };
}

/// A step that gives the value back and serves the next ticket.
pub struct EndTurn<V> {
    of: PhantomData<V>,
}

impl<V: Grows> Play<Option<V>, View<V::Entry>> for EndTurn<V> {
    ghost use Rattle.tib_turn.specs.Steps.{Left};

    ghost then = { Left V.log };
}

/// A step that changes nothing, and shows a pass that one of its two lists is a prefix of the
/// other.
pub struct SeeLonger<V> {
    of: PhantomData<V>,
}

impl<V: Grows> Play<Option<V>, View<V::Entry>> for SeeLonger<V> {
    ghost use Rattle.tib_turn.specs.Steps.{Learned};

    ghost then = { Learned V.log };
}

/// A second pass that has seen what the first has.
pub struct SplitPass;

impl<E> Split<View<E>> for SplitPass {
    ghost use Rattle.tib_turn.specs.Turns.{idle};

    ghost left = { λ v. v };

    ghost right = { λ v. idle v.seen };
}

/// A pass that keeps, beside its own list, the list that another pass has seen.
pub struct JoinPasses;

impl<E> Join<View<E>> for JoinPasses {
    ghost use Rattle.std.specs.Prelude.{[]};
    ghost use Rattle.tib_turn.specs.declared.view.Stage.TheVariants.{Idle};
    ghost use Rattle.tib_turn.specs.Turns.{idle, view};

    ghost both = { λ v w. view v.seen w.seen Idle };

    ghost spent = { idle [] };
}
