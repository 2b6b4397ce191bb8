// Canonical transducers, as text.
ghost use Rattle.std.specs.Prelude.{◌≡◌, ◌<◌, ◌^◌, length, IfOk};
ghost use Rattle.tib_lex.specs.Lists.{Distinct};
ghost use Rattle.tib_canon.specs.TransducerKeys.{AreMovesOver};
ghost use Rattle.tib_transducer_file.specs.Labelled.{AreLabelled};

use std::alloc::{AllocError, Global};
use std::test::Fail;
use tib_canon::{PrintedTransducer, to_transducer};
use tib_cost::{MinPlus, Semiring};
use tib_expand::Found;
use tib_io::GrowingSink;
use tib_key_edges::StatePair;
use tib_transducer::TransducerRule;
use tib_transducer_file::{print_transducer, read_transducer};
use tib_tree::Labels;

// Three keys in an order that does not ascend.
fn three_keys(alloc: Global) -> Result<Vec<StatePair>, AllocError>
    ensures three { IfOk result (λ v. length v.items ≡ 3) }
    ensures distinct { IfOk result (λ v. Distinct v.items) }
{
    let mut keys = Vec::new(alloc);
    keys.push(StatePair::new(9, 0))?;
    keys.push(StatePair::new(2, 0))?;
    keys.push(StatePair::new(7, 0))?;
    Ok(keys)
}

// The rules of the transducer of a text, which has three states.
fn rules_in<S: Semiring>(
    alloc: Global,
    text: &[u8],
    labels: &mut Labels,
) -> Result<Vec<TransducerRule<u32>>, AllocError>
    requires { length labels.old ≡ 0 }
    ensures few { IfOk result (λ v. length v.items < 2 ^ 32) }
    ensures moves { IfOk result (λ v. AreMovesOver S.SCALE labels.new 3 v.items) }
{
    if text.len() > 100_000 {
        return Err(AllocError);
    }
    let transducer = match read_transducer::<S>(alloc, text, labels) {
        Ok(transducer) => transducer,
        Err(_) => return Err(AllocError),
    };
    transducer.is_sound();
    if transducer.states() != 3 {
        return Err(AllocError);
    }
    let (_, rules) = transducer.into_parts();
    Ok(rules)
}

// The text of a form, which is what its transducer prints.
fn printed<S: Semiring>(
    alloc: Global,
    form: &PrintedTransducer<S>,
    labels: &Labels,
) -> Result<Vec<u8>, AllocError>
    requires { AreLabelled (length labels.now) form.now.transducer.rules }
{
    let mut sink = GrowingSink::new(alloc);
    let Ok(()) = print_transducer(&form.transducer, labels, &mut sink) else {
        return Err(AllocError);
    };
    if sink.bytes() != form.text.bytes() {
        return Err(AllocError);
    }
    sink.bytes().to_vec(alloc)
}

// The canonical transducer over the three keys with the rules of a text, as it is printed.
fn answer<S: Semiring>(alloc: Global, text: &[u8], start: u32) -> Result<Vec<u8>, AllocError>
    requires { start < 3 }
{
    let order = three_keys(alloc)?;
    let mut labels = Labels::new(alloc);
    let rules = rules_in::<S>(alloc, text, &mut labels)?;
    let found = Found {
        order,
        rules,
        parts: 0,
    };
    let form = to_transducer::<S, StatePair>(alloc, found, start, &labels)?;
    printed(alloc, &form, &labels)
}

const MOVES: &[u8] =
    b"q\nq.f(x0:) -> g(r.x0) # 3\nr.a -> b # 1\nr.a -> b # 2\nq.f(x0:b) -> g(s.x0) # 5\ns.c -> d # 0\n";

// A start, and what is printed of the canonical transducer.
static FORMS: [(u32, &[u8]); 2] = [
    (
        0,
        b"q0\nq0.f(x0:) -> g(q1.x0) # 3\nq0.f(x0:b) -> g(q2.x0) # 5\nq1.a -> b # 1\nq2.c -> d # 0\n",
    ),
    (
        1,
        b"q0\nq0.a -> b # 1\nq1.c -> d # 0\nq2.f(x0:) -> g(q0.x0) # 3\nq2.f(x0:b) -> g(q1.x0) # 5\n",
    ),
];

// Whether this is printed of the canonical transducer of these moves with a start.
fn prints(alloc: Global, start: u32, want: &[u8]) -> Result<bool, AllocError> {
    if start >= 3 {
        return Err(AllocError);
    }
    let found = answer::<MinPlus>(alloc, MOVES, start)?;
    Ok(found.as_slice() == want)
}

#[test]
fn states_are_keys_and_equal_rules_are_merged(rt: HostRuntime) -> Result<(), Fail> {
    for (start, want) in &FORMS {
        assert!(rt; prints(rt.alloc(), *start, want)?);
    }
    Ok(())
}
