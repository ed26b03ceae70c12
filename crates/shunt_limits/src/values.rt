// Values within their limits.
ghost use Rattle.std.specs.Prelude.{◌≡◌, ◌<ℤ◌, pos, neg_ℤ};
ghost use Rattle.shunt_prices.specs.defs.Limits.{IsValue};

const GREATEST: i64 = 999_999_999_999;

/// The nearest of the values that a certificate states, which are -999,999,999,999 to 999,999,999,999 thousandths of a cost unit.
pub fn value_within(number: i64) -> i64
    ensures within { IsValue result }
    ensures same { IsValue number → result ≡ number }
    ensures above { pos 999999999999 <ℤ number → result ≡ pos 999999999999 }
    ensures below { number <ℤ neg_ℤ (pos 999999999999) → result ≡ neg_ℤ (pos 999999999999) }
{
    if number > GREATEST {
        return GREATEST;
    }
    if number < -GREATEST {
        -GREATEST
    } else {
        number
    }
}
