// How long a search goes on, and what chance does in it.

/// A fall of the temperature in 256 steps to 300 thousandths of a grain: where it begins, in thousandths of a grain too, and how many
/// millionths of it each step leaves.
#[derive(Clone, Copy, Debug, Drop)]
pub struct Fall {
    pub first: i64,
    pub factor: i64,
}

/// From far above what blocks cost, when little is known.
pub const HOT: Fall = Fall {
    first: 60_000,
    factor: 979_516,
};

/// From about what a block costs, when a good plan is known.
pub const WARM: Fall = Fall {
    first: 30_000,
    factor: 982_172,
};

/// From less, when that plan was bettered from a warmer start.
pub const MILD: Fall = Fall {
    first: 10_000,
    factor: 986_396,
};

/// From so little that a night of many units comes to rest within its rounds.
pub const COOL: Fall = Fall {
    first: 8_000,
    factor: 987_256,
};

/// How long a search goes on, and what chance does in it.
#[derive(Clone, Copy, Debug, Drop)]
pub struct Course<'a> {
    /// The falls of the temperature, one after another. Each begins with the best plan so far.
    pub falls: &'a [Fall],
    /// How many rounds each fall takes.
    pub rounds: u32,
    /// What temperatures and noises count in, in cost units.
    pub grain: u32,
    /// Whether chance adds to weights as much as it does in a night of few units, or half as much.
    pub is_loud: bool,
}
