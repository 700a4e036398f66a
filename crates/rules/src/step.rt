// One step of a rule.

// The state that a step leads to, and what it costs.
#[derive(Clone, Copy, Debug, PartialEq, Eq)]
pub struct Step<C> {
    pub next: usize,
    pub cost: C,
}
