// Draws, one after the other.
ghost use Rattle.std.specs.Prelude.{◌≡◌, ◌<◌};
ghost use Rattle.shunt_make.specs.defs.Draws.{next, drawn};

/// If the generator stands between two draws.
#[derive(Debug, Drop)]
pub struct Draws {
    pub state: u32,
}

impl Draws {
    /// One draw: a number below `n`.
    #[tactic(auto, unfolding(crate::specs::defs::Draws::next, crate::specs::defs::Draws::drawn))]
    pub fn below(&mut self, n: u32) -> u32
        requires { 0 < n }
        ensures state { self.new.state ≡ next self.old.state }
        ensures value { result ≡ drawn self.new.state n }
        ensures small { result < n }
    {
        self.state = ((1103515245 * u64::from(self.state) + 12345) % 2147483648) as u32;
        self.state / 65536 % n
    }
}
