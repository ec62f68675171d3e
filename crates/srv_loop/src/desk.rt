//! Who opens the links that an accept loop is given.
ghost use Rattle.std.specs.Prelude.{◌≡◌, ℕ, ◌⊎◌, ◌∷◌, [], ◌++◌, true, IfOk, IfSome, OnOk, OnErr};
ghost use Rattle.srv_loop.specs.Links.{Deeds, opened_after, full_after, Begins};

use std::sync::Wait;

/// There was no memory.
#[derive(Debug, Drop)]
pub struct NoMemory;

/// Opens links, gives each a number and makes its two jobs, one for each half.
pub trait Desk<R, W> {
    type Job: Drop;

    /// What it has done.
    ghost deeds: { Self → Deeds };

    /// Which job is the first one of the link of a number.
    ghost is_first: { ℕ → Self.Job → Type 0 };

    /// Which job is the second one of the link of a number.
    ghost is_second: { ℕ → Self.Job → Type 0 };

    /// Opens a link, and answers its number and its two jobs, or None where it doesn't open it.
    /// After want of memory the link may have been opened.
    fn welcome<Rt: Wait>(
        &mut self,
        rt: &Rt,
        reads: R,
        writes: W,
    ) -> Result<Option<(u32, Self::Job, Self::Job)>, NoMemory>
        ensures opened { IfOk result (λ answer.
            (deeds self.new).opened ≡ opened_after answer (deeds self.old).opened) }
        ensures full { IfOk result (λ answer.
            (deeds self.new).full ≡ full_after answer (deeds self.old).full) }
        ensures jobs { IfOk result (λ answer. IfSome answer (λ link.
            is_first link.0 link.1 × is_second link.0 link.2)) }
        ensures dismissed { (deeds self.new).dismissed ≡ (deeds self.old).dismissed }
        ensures spent { (deeds self.old).spent ≡ true → (deeds self.new).spent ≡ true }
        // After want of memory.
        ensures stands { OnErr result (Begins (deeds self.old).opened (deeds self.new).opened) }
        ensures same_full { OnErr result ((deeds self.new).full ≡ (deeds self.old).full) };

    /// Whether it opens no further link, as its server was given up for want of memory.
    fn is_over(&self) -> bool;

    /// Dismisses a link that it opened, whose jobs don't both run. A desk that is spent changes
    /// nothing.
    fn dismiss<Rt: Wait>(&mut self, rt: &Rt, number: u32) -> Result<(), NoMemory>
        ensures dismissed { OnOk result (
            ((deeds self.new).dismissed ≡ (deeds self.old).dismissed ++ number ∷ [])
            ⊎ (((deeds self.new).dismissed ≡ (deeds self.old).dismissed)
            × ((deeds self.new).spent ≡ true))) }
        ensures opened { (deeds self.new).opened ≡ (deeds self.old).opened }
        ensures full { (deeds self.new).full ≡ (deeds self.old).full }
        ensures spent { (deeds self.old).spent ≡ true → (deeds self.new).spent ≡ true }
        // After want of memory.
        ensures stands { OnErr result ((deeds self.new).dismissed ≡ (deeds self.old).dismissed) };
}
