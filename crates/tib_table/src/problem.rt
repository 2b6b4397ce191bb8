// What a table is asked to hold: a type of keys, and which of them it may hold.
use tib_expand::TableKey;

/// What the keys of a table belong to. Its data alone decide which keys it may hold.
pub trait Problem: Drop {
    /// The keys.
    type Key: TableKey + Drop;

    /// What the problem is about.
    type Data;

    ghost about: { Self → Self.Data };

    ghost may_hold: { Self.Data → Self.Key → Type 0 };
}

/// A borrowed problem is about the same data, and may hold the same keys.
impl<P: Problem> Problem for &P {
    type Key = P::Key;

    type Data = P::Data;

    ghost about = { λ p. P.about p.now };

    ghost may_hold = { P.may_hold };
}

/// An entry of a shelf's log: what its problem is about, or a key. No value of it is made.
pub enum Entry<D, K> {
    Data(D),
    Key(K),
}
