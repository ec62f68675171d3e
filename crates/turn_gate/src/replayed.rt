//! What a gate can hold.
ghost use Rattle.std.specs.Prelude.{◌≡◌, ℕ, Bool, Option, IfOk};

/// In how many places callers rest.
pub const PLACES: usize = 64;

/// There was no memory.
#[derive(Debug, Drop)]
pub struct NoMemory;

/// A value that changes in steps, each of which is answered by a reply.
pub trait Replayed: Drop {
    type Step: Drop;

    type Reply;

    /// The value after a step, and the reply.
    ghost next: { Self → Self.Step → Self × Self.Reply };

    /// Whether what goes by this number is over.
    ghost over: { Self → ℕ → Bool };

    /// Those who rest at this place look again behind the step, whatever it leaves. A number that
    /// is no place's calls nobody.
    fn called_by(s: &Self::Step) -> Option<usize>;

    /// At which places something is to be done. Behind each step those who rest there look again.
    /// No clause speaks of it: who isn't called notices late.
    fn work(&self) -> [bool; PLACES];

    /// Whether what goes by this number is over, as a caller asks that waits for something else.
    fn is_over(&self, about: u32) -> bool
        ensures { result ≡ over self.now about };

    /// Does the step. Where there is no memory for it the value is given up.
    fn step(self, s: Self::Step) -> Result<(Self, Self::Reply), NoMemory>
        ensures { IfOk result (λ r. r ≡ next self s) };
}

/// What a caller does in one hold of the value: a first step, and further ones by the replies.
pub trait Course<T: Replayed> {
    /// The step that comes behind one that got this reply, where one does.
    ghost further: { Self → T.Reply → Option T.Step };

    /// The step that comes behind one that got this reply, where one does.
    fn further(&self, reply: &T::Reply) -> Option<T::Step>
        ensures { result ≡ further self.now reply.now };
}
