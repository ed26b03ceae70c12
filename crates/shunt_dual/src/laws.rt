//! What follows from the definitions of this crate.
ghost use Rattle.std.specs.Prelude.{◌≡◌, ◌*◌, ◌/◌, ◌≤◌, ◌+ℤ◌, ℕ, []};
ghost use Rattle.shunt_base.specs.declared.duals.Duals.{Duals};
ghost use Rattle.shunt_instance.specs.defs.Instance.{Night, IsInstance};
ghost use Rattle.shunt_blocks.specs.declared.records.Shape.{Shape};
ghost use Rattle.shunt_blocks.specs.defs.Costs.{IsCheapest};
ghost use Rattle.shunt_prices.specs.defs.Sums.{sum_z};
ghost use Rattle.shunt_prices.specs.defs.Limits.{AreDuals};
ghost use Rattle.shunt_prices.specs.defs.Cases.{DualsHold};
ghost use Rattle.shunt_prices.specs.defs.Bounds.{duals_sum};
ghost use Rattle.shunt_dual.specs.defs.Shares.{Holds, IsShare, Table, AreShares};
ghost use Rattle.shunt_dual.specs.defs.Assignments.{AreUnder};

/// The share of a pair is at most what each shape that holds it gives by its least cost, and one gives it. It is at most
/// 3,000,000,000.
pub fn least_costs()
    ensures most { (night : Night) (u v share : ℕ) (s : Shape) (cost : ℕ) → IsShare night u v share
        → Holds night s u v → IsCheapest night s cost → share ≤ 1000 * cost / s.n }
    ensures given { (night : Night) (u v share : ℕ) (h : IsShare night u v share) (cost : ℕ)
        → IsCheapest night h.shape cost → share ≡ 1000 * cost / h.shape.n }
    ensures small { (night : Night) (u v share : ℕ) → IsInstance night → IsShare night u v share
        → share ≤ 3000000000 }
{}

/// Duals under the shares hold at the empty path.
pub fn shares_give_duals()
    ensures { (night : Night) (t : Table) (d : Duals) → AreShares night t → AreUnder night t d
        → DualsHold night [] d }
{}

/// The sum at the empty path of duals without prices is that of all their values.
pub fn sums_at_the_empty_path()
    ensures { (night : Night) (d : Duals) → AreDuals night d → d.prices ≡ []
        → duals_sum night [] d ≡ sum_z (λ z. z) d.alpha +ℤ sum_z (λ z. z) d.beta }
{}
