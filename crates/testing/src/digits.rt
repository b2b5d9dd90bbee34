// Bytes and entries, as the digits of a number.
ghost use Rattle.std.specs.Prelude.{◌≡◌, ◌≤◌, ◌<◌, ◌%◌, ℕ};
ghost use Rattle.std.proofs.Common.{lit≤};

// A digit in a base: a byte in base 256, or an entry in base 65,536.
pub trait Digit: Copy {
    ghost BASE: { ℕ };

    const BASE: u64;

    ghost value_of: { Self → ℕ };

    fn wide(self) -> u64
        ensures value { result ≡ value_of self }
        ensures upper_bound { result < BASE };

    fn narrow(number: u64) -> Self
        requires { number < BASE }
        ensures { value_of result ≡ number };

    ghost small: { BASE ≤ 65536 };
}

impl Digit for u8 {
    ghost BASE = { 256 };

    const BASE: u64 = 256;

    ghost value_of = { λ x. x };

    ghost small = { lit≤ tt };

    fn wide(self) -> u64 {
        u64::from(self)
    }

    fn narrow(number: u64) -> u8 {
        number as u8
    }
}

impl Digit for u16 {
    ghost BASE = { 65536 };

    const BASE: u64 = 65536;

    ghost value_of = { λ x. x };

    ghost small = { lit≤ tt };

    fn wide(self) -> u64 {
        u64::from(self)
    }

    fn narrow(number: u64) -> u16 {
        number as u16
    }
}

// A digit of which every number has a last one.
pub trait LastDigit: Digit {
    fn last(number: u64) -> Self
        ensures { Self.value_of result ≡ number % Self.BASE };
}

impl LastDigit for u8 {
    fn last(number: u64) -> u8 {
        (number % Self::BASE) as u8
    }
}

impl LastDigit for u16 {
    fn last(number: u64) -> u16 {
        (number % Self::BASE) as u16
    }
}
