// A heap of numbers in their own order.
ghost use Rattle.std.specs.Prelude.{ℕ};
ghost use Rattle.std.specs.Ordering.{nat_cmp};
ghost use Rattle.std.proofs.lemmas.Cmp.{nat_cmp_total};

use std::alloc::Global;
use std::cmp::Ordering;
use tib_ranked_trees::heap::{Ranking, pop, push};

struct Plain;

impl Ranking for Plain {
    ghost rank = { λ _ a b. nat_cmp a b };

    ghost knows = { λ _ _. Unit {0} };

    fn compare(&self, a: u32, b: u32) -> Ordering {
        a.cmp(&b)
    }

    ghost total = { λ _. nat_cmp_total };
}

// What six draws give, of which the last four come after another number; none where memory is
// refused.
fn drawn(alloc: Global) -> Option<[Option<u32>; 6]> {
    let mut heap = Vec::new(alloc);
    push(&Plain, &mut heap, 5).ok()?;
    push(&Plain, &mut heap, 1).ok()?;
    push(&Plain, &mut heap, 4).ok()?;
    push(&Plain, &mut heap, 1).ok()?;
    let first = pop(&Plain, &mut heap);
    let second = pop(&Plain, &mut heap);
    push(&Plain, &mut heap, 2).ok()?;
    let third = pop(&Plain, &mut heap);
    let fourth = pop(&Plain, &mut heap);
    let fifth = pop(&Plain, &mut heap);
    let last = pop(&Plain, &mut heap);
    Some([first, second, third, fourth, fifth, last])
}

static IN_ORDER: [Option<u32>; 6] = [Some(1), Some(1), Some(2), Some(4), Some(5), None];

fn are_in_order(alloc: Global) -> bool {
    match drawn(alloc) {
        Some(numbers) => numbers == IN_ORDER,
        None => false,
    }
}

#[test]
fn numbers_come_out_in_order(rt: HostRuntime) {
    assert!(rt; are_in_order(rt.alloc()));
}
