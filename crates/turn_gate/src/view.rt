//! What a pass knows. No value of these types is made, apart from [`Held`].
use std::collections::LinkedList;

/// One step of the history, by the pass of this name, and its reply.
pub struct Entry<S, R> {
    pub name: u64,
    pub step: S,
    pub reply: R,
}

/// A caller: its name, the places of its entries, and its own steps with the replies that it got.
/// A pass that was joined into another is kept so.
pub struct Joined<S, R> {
    pub name: u64,
    pub mine: LinkedList<u64>,
    pub pairs: LinkedList<(S, R)>,
}

/// What a pass has of the slot: nothing, the value, or the mark that the value was given up.
pub enum Has {
    Nothing,
    Value,
    Mark,
}

/// What the slot holds: the value, or the mark that it was given up. `Ask` never lies there: a
/// step is announced in it, for the proof alone.
#[derive(Drop)]
pub enum Held<T, S> {
    Value(T),
    Mark,
    Ask(S),
}

/// What a pass knows of its gate.
///
/// `opening` is the value that the gate was opened with. `named` is false once the pass was joined
/// into another. `seen` is the beginning of the history that the pass was told, and `mine` the
/// places in it of the pass's own entries. At least `floor` steps stand. `lost` says that the pass
/// was told that the value was given up. `kids` is how many passes were split from it. While the
/// pass has something of the slot, `base` is the history at the take, and `ask` the step to be
/// done.
pub struct View<T, S, R> {
    pub opening: Option<T>,
    pub named: bool,
    pub name: u64,
    pub seen: LinkedList<Entry<S, R>>,
    pub mine: LinkedList<u64>,
    pub floor: u64,
    pub lost: bool,
    pub kids: u64,
    pub joined: LinkedList<Joined<S, R>>,
    pub has: Has,
    pub base: LinkedList<Entry<S, R>>,
    pub ask: Option<S>,
}
