// In how many blocks each unit is, or each position.
ghost use Rattle.std.specs.Prelude.{◌≡◌, ◌≢◌, ℕ, ◌+◌, ◌<◌, ◌≤◌, ◌==◌, nat_le, cond, IsTrue};
ghost use Rattle.shunt_lists.specs.defs.Below.{count_below};
ghost use Rattle.shunt_moves.specs.defs.Kept.{at, is_within};

use std::marker::Model;

/// For each of at most 160 units, or positions, in how many blocks it is; and how many are in none, and in two or more.
#[derive(Debug, Drop)]
pub struct Cover {
    times: [u16; 160],
    total: usize,
    bare: u32,
    twice: u32,
}

impl Model for Cover {
    ghost use Rattle.shunt_moves.specs.defs.Kept.{Times};

    ghost Value = { Times };

    ghost use Rattle.shunt_moves.specs.defs.Kept.{IsCounted};

    ghost view = { λ c. record { times = c.times; total = c.total } };

    ghost invariant = { λ c. IsCounted c.times c.total c.bare c.twice };
}

impl Cover {
    /// That many that are in no block.
    pub fn new(total: usize) -> Cover
        requires { total ≤ 160 }
        ensures total { result.total ≡ total }
        ensures none { (u : ℕ) → at result.times u ≡ 0 }
    {
        Cover {
            times: [0; 160],
            total,
            bare: total as u32,
            twice: 0,
        }
    }

    /// How many are in no block.
    pub fn bare(&self) -> u32
        ensures exact { result ≡ count_below self.now.total (λ u. at self.now.times u == 0) }
        ensures few { result ≤ 160 }
    {
        self.bare
    }

    /// How many are in two blocks or more.
    pub fn twice(&self) -> u32
        ensures exact { result ≡ count_below self.now.total (λ u. nat_le 2 (at self.now.times u)) }
        ensures few { result ≤ 160 }
    {
        self.twice
    }

    // In how many blocks one of them is.
    fn times(&self, u: usize) -> u16
        requires within { u < self.now.total }
        requires small { u < 160 }
        ensures { result ≡ at self.now.times u }
    {
        self.times[u]
    }

    // One of them is in another number of blocks.
    fn put(&mut self, u: usize, times: u16)
        requires within { u < self.old.total }
        requires small { u < 160 }
        ensures one { at self.new.times u ≡ times }
        ensures others { (v : ℕ) → v ≢ u → at self.new.times v ≡ at self.old.times v }
        ensures total { self.new.total ≡ self.old.total }
    {
        let before = self.times[u];
        self.times[u] = times;
        self.bare = self.bare + u32::from(times == 0) - u32::from(before == 0);
        self.twice = self.twice + u32::from(times >= 2) - u32::from(before >= 2);
    }

    /// That many from this one on are in one block more.
    pub fn raise(&mut self, from: usize, n: usize)
        requires within { from + n ≤ self.old.total }
        requires small { from + n ≤ 160 }
        requires few { (u : ℕ) → u < self.old.total → at self.old.times u ≤ 400 }
        ensures each { (u : ℕ) → u < self.old.total
            → at self.new.times u ≡ at self.old.times u + cond (is_within from n u) 1 0 }
        ensures total { self.new.total ≡ self.old.total }
    {
        for k in 0..n {
            let times = self.times(from + k);
            self.put(from + k, times + 1);
        }
    }

    /// That many from this one on are in one block less.
    pub fn lower(&mut self, from: usize, n: usize)
        requires within { from + n ≤ self.old.total }
        requires small { from + n ≤ 160 }
        requires some { (u : ℕ) → IsTrue (is_within from n u) → 1 ≤ at self.old.times u }
        ensures each { (u : ℕ) → u < self.old.total
            → at self.new.times u + cond (is_within from n u) 1 0 ≡ at self.old.times u }
        ensures total { self.new.total ≡ self.old.total }
    {
        for k in 0..n {
            let times = self.times(from + k);
            self.put(from + k, times - 1);
        }
    }
}
