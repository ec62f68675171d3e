//! Numbers that look drawn, and are determined by the first.
ghost use Rattle.std.specs.Prelude.{◌≡◌};
ghost use Rattle.sc_load.specs.Loads.{next, given};

const FACTOR: u128 = 6_364_136_223_846_793_005;

const SUMMAND: u128 = 1_442_695_040_888_963_407;

/// The number of the last draw, or the first one.
#[derive(Clone, Copy)]
pub(crate) struct Draws {
    pub(crate) number: u64,
}

/// The number that a draw makes of the one before.
fn next(number: u64) -> u64
    ensures { result ≡ next number }
{
    let wide = u128::from(number) * FACTOR + SUMMAND;
    (wide % (1 << 64)) as u64
}

impl Draws {
    /// A number below 1,000.
    pub(crate) fn draw(&mut self) -> u64
        ensures number { self.new.number ≡ next self.old.number }
        ensures given { result ≡ given (next self.old.number) }
    {
        self.number = next(self.number);
        (self.number >> 33) % 1000
    }
}
