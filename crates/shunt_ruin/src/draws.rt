// Numbers that look random, with a fixed start, and how much worse a plan may become by chance.
ghost use Rattle.std.specs.Prelude.{◌<◌};

use std::alloc::{AllocError, Global};

/// Where the numbers stand. Two runs draw the same.
#[derive(Debug, Drop)]
pub(crate) struct Chance {
    state: u32,
}

impl Chance {
    /// The start.
    pub(crate) fn new() -> Chance {
        Chance { state: 1 }
    }

    /// A number below 32,768.
    fn draw(&mut self) -> usize
        ensures { result < 32768 }
    {
        self.state = ((1103515245 * u64::from(self.state) + 12345) % 2147483648) as u32;
        (self.state / 65536) as usize
    }

    /// A number below one of at most 32,768.
    pub(crate) fn below(&mut self, most: usize) -> usize
        requires { 0 < most }
        ensures { result < most }
    {
        self.draw() % most
    }

    /// A number below a greater one.
    pub(crate) fn far_below(&mut self, most: usize) -> usize
        requires { 0 < most }
        ensures { result < most }
    {
        (32768 * self.draw() + self.draw()) % most
    }

    /// A number from 0 on, below a level.
    pub(crate) fn noise(&mut self, level: i64) -> i64 {
        (self.draw() as i64).wrapping_mul(level) / 32768
    }
}

/// The negative natural logarithm of a fraction of 2^31, 2^16 to one, by squares.
fn logarithm(fraction: u64) -> i64 {
    let mut number = fraction;
    let mut binary: u64 = 0;
    for _double in 0..31 {
        if number < 2147483648 {
            number = number.wrapping_mul(2);
            binary = binary.wrapping_add(1048576);
        }
    }
    let mut bit: u64 = 524288;
    for _square in 0..20 {
        number = number.wrapping_mul(number) / 2147483648;
        if number >= 4294967296 {
            number = number / 2;
            binary = binary.wrapping_sub(bit);
        }
        bit = bit / 2;
    }
    i64::try_from(binary.wrapping_mul(726817) / 16777216).unwrap_or(0)
}

/// The negative logarithms of the middles of 1,024 equal parts of 0 to 1, 2^16 to one.
#[derive(Debug, Drop)]
pub(crate) struct Cooling {
    logarithms: Vec<i64>,
}

impl Cooling {
    /// The table. Err is want of memory.
    pub(crate) fn new(alloc: Global) -> Result<Cooling, AllocError> {
        let mut logarithms = Vec::with_capacity(alloc, 1024)?;
        for part in 0u64..1024 {
            logarithms.push(logarithm((2 * part + 1) * 1048576))?;
        }
        Ok(Cooling { logarithms })
    }

    /// By how much a sum may rise at a temperature, by a draw.
    pub(crate) fn rise(&self, temperature: i64, draws: &mut Chance) -> i64 {
        let logarithm = self.logarithms.get(draws.below(1024)).copied();
        temperature.wrapping_mul(logarithm.unwrap_or(0)) / 65536
    }
}
