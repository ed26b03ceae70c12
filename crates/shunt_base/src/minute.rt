ghost use Rattle.std.specs.Prelude.{◌≡◌, ◌<◌, ◌≤◌, ◌-◌, ℕ, IfSome};
ghost use Rattle.std.specs.Option.{SomeIff};
ghost use Rattle.shunt_base.specs.defs.Spelling.{minute_text, minute_of};

use std::marker::Model;

/// A minute of two days, from 0 to 2879.
#[derive(Clone, Copy, Debug, PartialEq, Eq, PartialOrd, Ord)]
pub struct Minute {
    number: u16,
}

impl Model for Minute {
    ghost use Rattle.std.specs.Prelude.{ℕ, ◌<◌};

    ghost Value = { ℕ };

    ghost view = { λ m. m.number };

    ghost invariant = { λ m. m.number < 2880 };

    ghost inverse = { λ n. record { number = n } };
}

impl Minute {
    /// The minute of this number; None exactly from 2880 on.
    pub fn new(number: u16) -> Option<Minute>
        ensures { SomeIff result (number < 2880) number }
    {
        if number < 2880 {
            Some(Minute { number })
        } else {
            None
        }
    }

    /// Its number, from 0 to 2879.
    pub fn number(self) -> u16
        ensures value { result ≡ self }
        ensures small { self < 2880 }
    {
        self.number
    }
}

// The number that a digit stands for.
fn digit(b: u8) -> Option<u16>
    ensures { SomeIff result ((48 ≤ b) × (b < 58)) (b - 48) }
{
    if b.is_ascii_digit() {
        Some(u16::from(b - b'0'))
    } else {
        None
    }
}

/// The minute that is spelled `HH:MM`, with hours below 48 and minutes below 60.
///
/// None exactly when the bytes spell no minute.
pub fn parse_minute(bytes: &[u8]) -> Option<Minute>
    ensures some { IfSome result (λ m. (m < 2880) × (bytes.now ≡ minute_text m)) }
    ensures only { (m : ℕ) → m < 2880 → bytes.now ≡ minute_text m → result ≡ Some m }
    ensures value { result ≡ minute_of bytes.now }
{
    minute_in(bytes)
}

fn minute_in(bytes: &[u8]) -> Option<Minute>
    ensures some { IfSome result (λ m. (m < 2880) × (bytes.now ≡ minute_text m)) }
    ensures only { (m : ℕ) → m < 2880 → bytes.now ≡ minute_text m → result ≡ Some m }
{
    let [a, b, b':', c, d] = bytes else {
        return None;
    };
    let hours = 10 * digit(*a)? + digit(*b)?;
    let minutes = 10 * digit(*c)? + digit(*d)?;
    if hours >= 48 || minutes >= 60 {
        return None;
    }
    Minute::new(60 * hours + minutes)
}

/// The spelling that `parse_minute` reads as this minute.
pub fn minute_bytes(minute: Minute) -> [u8; 5]
    ensures { result ≡ minute_text minute }
{
    let number = minute.number();
    let hours = number / 60;
    let minutes = number % 60;
    [
        b'0' + (hours / 10) as u8,
        b'0' + (hours % 10) as u8,
        b':',
        b'0' + (minutes / 10) as u8,
        b'0' + (minutes % 10) as u8,
    ]
}
