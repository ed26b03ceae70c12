ghost use Rattle.std.specs.Prelude.{◌≡◌, ◌≢◌, ◌<◌, ◌^◌, ◌↔◌, ◌+◌, ℕ, ℤ, pos, negsuc, IsTrue};
ghost use Rattle.std.specs.Prelude.{IfSome, Some, All};
ghost use Rattle.std.specs.List.{list_all};
ghost use Rattle.std.specs.Char.{is_ascii_digit};
ghost use Rattle.std.specs.Option.{SomeIff};
ghost use Rattle.std.specs.Fmt.{decimal, signed_decimal};
ghost use Rattle.std.specs.Str.Parse.{digits_value};
ghost use Rattle.shunt_base.specs.defs.Spelling.{IsDecimal, IsSigned, is_decimal_text, decimal_of};
ghost use Rattle.shunt_base.specs.defs.Spelling.{negative_of, signed_of};

fn are_digits(bytes: &[u8]) -> bool
    ensures fact { IsTrue result ↔ All (λ b. IsTrue (is_ascii_digit b)) bytes.now }
    ensures test { result ≡ list_all is_ascii_digit bytes.now }
{
    bytes.iter().all(|b| b.is_ascii_digit())
}

fn is_decimal(bytes: &[u8]) -> bool
    ensures fact { IsTrue result ↔ IsDecimal bytes.now }
    ensures test { result ≡ is_decimal_text bytes.now }
{
    if bytes.is_empty() || bytes.len() > 18 {
        return false;
    }
    if bytes[0] == b'0' && bytes.len() > 1 {
        return false;
    }
    are_digits(bytes)
}

fn value_of(bytes: &[u8]) -> u64
    requires { IsDecimal bytes.now }
    ensures { result ≡ digits_value 10 bytes.now }
{
    let mut value: u64 = 0;
    for b in bytes {
        value = 10 * value + u64::from(*b - b'0');
    }
    value
}

/// The number that these bytes spell: `0`, or up to 18 digits with no 0 in front.
///
/// None exactly when they spell no number.
#[tactic(auto, unfolding(crate::specs::defs::Spelling::decimal_of))]
pub fn parse_decimal(bytes: &[u8]) -> Option<u64>
    ensures exact { SomeIff result (IsDecimal bytes.now) (digits_value 10 bytes.now) }
    ensures value { result ≡ decimal_of bytes.now }
    ensures some { IfSome result (λ n. (n < 10 ^ 18) × (bytes.now ≡ decimal n)) }
    ensures only { (n : ℕ) → n < 10 ^ 18 → bytes.now ≡ decimal n → result ≡ Some n }
{
    if is_decimal(bytes) {
        Some(value_of(bytes))
    } else {
        None
    }
}

// What `-` before these digits spells.
fn parse_negative(bytes: &[u8]) -> Option<i64>
    ensures some { IfSome result
        (λ z. (n : ℕ) × (n + 1 < 10 ^ 18) × (z ≡ negsuc n) × (bytes.now ≡ decimal (n + 1))) }
    ensures only { (n : ℕ) → n + 1 < 10 ^ 18 → bytes.now ≡ decimal (n + 1)
        → result ≡ Some (negsuc n) }
    ensures value { result ≡ negative_of (decimal_of bytes.now) }
{
    match parse_decimal(bytes) {
        None => None,
        Some(0) => None,
        Some(value) => Some(-(value as i64)),
    }
}

/// The signed number that these bytes spell: a decimal, or `-` and a decimal that isn't `0`.
///
/// None exactly when they spell no signed number.
#[tactic(auto, unfolding(crate::specs::defs::Spelling::signed_of))]
pub fn parse_signed(bytes: &[u8]) -> Option<i64>
    ensures some { IfSome result (λ z. IsSigned z × (bytes.now ≡ signed_decimal z)) }
    ensures only { (z : ℤ) → IsSigned z → bytes.now ≡ signed_decimal z → result ≡ Some z }
    ensures value { result ≡ signed_of bytes.now }
{
    if !bytes.is_empty() && bytes[0] == b'-' {
        return parse_negative(&bytes[1..]);
    }
    match parse_decimal(bytes) {
        None => None,
        Some(value) => Some(value as i64),
    }
}
