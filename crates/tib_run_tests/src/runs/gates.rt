// The gate of all runs here.
use std::sync::atomic::{AtomicU64, Ordering};
use tib_expand::Gate;

/// What is done with the items that pass. It is one type, so that each operation is compiled for
/// one gate alone.
#[derive(Drop)]
pub enum Watch {
    /// Nothing is done.
    Nothing,
    /// They are counted.
    Count(Counting),
    /// Two workers meet with them.
    Meet(Meeting),
}

impl Watch {
    /// Whether it counted this many items, with this sum and this sum of squares.
    pub fn counts_are(&self, passes: u64, items: u64, squares: u64) -> bool {
        match self {
            Watch::Count(counting) => counting.counts_are(passes, items, squares),
            _ => false,
        }
    }

    /// Whether workers met this often.
    pub fn meetings_are(&self, times: u64) -> bool {
        match self {
            Watch::Meet(meeting) => meeting.met.load(Ordering::SeqCst) == times,
            _ => false,
        }
    }
}

impl Gate for Watch {
    fn pass(&self, worker: u32, item: u32) {
        match self {
            Watch::Nothing => {}
            Watch::Count(counting) => counting.count(item),
            Watch::Meet(meeting) => meeting.pass(worker, item),
        }
    }
}

/// The number of the items that passed, their sum and the sum of their squares.
#[derive(Drop)]
pub struct Counting {
    passes: AtomicU64,
    items: AtomicU64,
    squares: AtomicU64,
}

impl Counting {
    /// No item passed.
    pub fn new() -> Counting {
        Counting {
            passes: AtomicU64::new(0),
            items: AtomicU64::new(0),
            squares: AtomicU64::new(0),
        }
    }

    // Counts an item.
    fn count(&self, item: u32) {
        let item = u64::from(item);
        self.passes.fetch_add(1, Ordering::SeqCst);
        self.items.fetch_add(item, Ordering::SeqCst);
        self.squares
            .fetch_add(item.saturating_mul(item), Ordering::SeqCst);
    }

    // Whether this many items passed, with this sum and this sum of squares.
    fn counts_are(&self, passes: u64, items: u64, squares: u64) -> bool {
        self.passes.load(Ordering::SeqCst) == passes
            && self.items.load(Ordering::SeqCst) == items
            && self.squares.load(Ordering::SeqCst) == squares
    }
}

// How often a worker looks for another before it gives up.
const TURNS: u32 = 200_000_000;

/// Holds the worker of an item, and that of the next one, until another worker came with the other
/// of these, and counts the meetings.
#[derive(Drop)]
pub struct Meeting {
    first: u32,
    // the number of the worker that came with the item, from 1; 0 where none did
    at_first: AtomicU64,
    at_second: AtomicU64,
    met: AtomicU64,
}

// Whether another worker than this one came within a number of looks.
fn is_met(other: &AtomicU64, own: u64) -> bool {
    for _ in 0..TURNS {
        let worker = other.load(Ordering::SeqCst);
        if worker != 0 && worker != own {
            return true;
        }
    }
    false
}

impl Meeting {
    /// Nobody came to this item and the next.
    pub fn new(first: u32) -> Meeting {
        Meeting {
            first,
            at_first: AtomicU64::new(0),
            at_second: AtomicU64::new(0),
            met: AtomicU64::new(0),
        }
    }

    // Comes at one place, and waits until another came at the other.
    fn meet(&self, here: &AtomicU64, there: &AtomicU64, worker: u32) {
        let own = u64::from(worker) + 1;
        here.store(own, Ordering::SeqCst);
        if is_met(there, own) {
            self.met.fetch_add(1, Ordering::SeqCst);
        }
    }

    // Lets an item pass, once the workers met where it is one of the two.
    fn pass(&self, worker: u32, item: u32) {
        if item == self.first {
            self.meet(&self.at_first, &self.at_second, worker);
        }
        if item == self.first.saturating_add(1) {
            self.meet(&self.at_second, &self.at_first, worker);
        }
    }
}
