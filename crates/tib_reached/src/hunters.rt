// Who hunts, where several do.

/// Several workers that hunt together: how many, 1 to 16, the runtime that starts their threads,
/// and the gate that they pass before they expand a key.
#[derive(Drop)]
pub struct Hunters<'a, R, G> {
    /// The runtime that starts the threads and on which they wait.
    pub rt: &'a R,
    /// How many workers there are.
    pub workers: u32,
    /// What is called before a key is expanded.
    pub gate: &'a G,
}
