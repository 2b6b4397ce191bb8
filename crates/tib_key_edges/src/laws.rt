// What holds for each keyed operation.
ghost use Rattle.tib_key_edges.specs.Keyed.{OrdersBegin, KeysStandOnce, EdgesAreKeyed, OneReachedSet};

/// Each order begins with the start.
pub fn orders_begin<K, O, E>()
    ensures { OrdersBegin K O E }
{}

/// No key is twice in an order.
pub fn keys_stand_once<K, O, E>()
    ensures { KeysStandOnce K O E }
{}

/// The edges of all positions are the edges of the keys there, by position and origin.
pub fn edges_are_keyed<K, O, E>()
    ensures { EdgesAreKeyed K O E }
{}

/// Two reached sets have the same order. They also have the same edges if an origin gives a key one
/// edge.
pub fn reached_set_is_one<K, O, E>()
    ensures { OneReachedSet K O E }
{}
