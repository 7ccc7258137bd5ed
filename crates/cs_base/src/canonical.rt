ghost use Rattle.std.specs.Prelude.{◌≡◌, ℕ, ℤ, ◌-◌, ◌^◌, ◌<◌, ◌≤◌, ◌==◌, ◌↔◌, IsTrue, length, slice_index, decimal};
ghost use Rattle.std.specs.Prelude.{Some, IfSome, SomeIff, option_and_then, FitsSigned};
ghost use Rattle.std.specs.List.{position};
ghost use Rattle.std.specs.Str.Parse.{AllDigits, digits_value};
ghost use Rattle.std.specs.Fmt.{signed_decimal};
ghost use Rattle.std.specs.Option.{option_map};
ghost use Rattle.std.specs.Int.{w32};
ghost use Rattle.cs_base.specs.Address.{Address, IsAddress};
ghost use Rattle.cs_base.specs.Canonical.{below_zero, number_of, signed_number_of, address_text, address_of, parted};

use crate::Addr;

// The number below 2 ^ 32 that the text spells in decimal digits, with or without leading zeros.
fn read_digits(text: &[u8]) -> Option<u32>
    ensures { SomeIff result (AllDigits 10 text.now × (digits_value 10 text.now < 2 ^ 32)) (digits_value 10 text.now) }
{
    let mut number: u32 = 0;
    for byte in text {
        let digit = char::from(*byte).to_digit(10)?;
        number = number.checked_mul(10)?.checked_add(digit)?;
    }
    Some(number)
}

// Whether the text isn't empty and begins with no needless zero.
fn is_trimmed(text: &[u8]) -> bool
    ensures { IsTrue result ↔ ((0 < length text.now) × (slice_index text.now 0 ≡ 48 → length text.now ≡ 1)) }
{
    !text.is_empty() && (text[0] != b'0' || text.len() == 1)
}

// The number up to `top` that the text spells in decimal digits without a leading zero.
fn read_up_to(text: &[u8], top: u32) -> Option<u32>
    ensures exact { result ≡ number_of top text.now }
    ensures within { IfSome result (λ n. n ≤ top) }
{
    if !is_trimmed(text) {
        return None;
    }
    let number = read_digits(text)?;
    if number <= top { Some(number) } else { None }
}

/// The number that the text spells in decimal digits without a leading zero.
pub fn read_u32(text: &[u8]) -> Option<u32>
    ensures exact { result ≡ number_of (2 ^ 32 - 1) text.now }
    ensures found { IfSome result (λ n. text.now ≡ decimal n) }
    ensures only { (n : ℕ) → n < 2 ^ 32 → text.now ≡ decimal n → result ≡ Some n }
{
    read_up_to(text, u32::MAX)
}

// The number below 0 whose size the text spells.
fn read_below_zero(text: &[u8]) -> Option<i32>
    ensures { result ≡ option_and_then below_zero (number_of (2 ^ 31) text.now) }
{
    let size = read_up_to(text, 1 << 31)?;
    if size == 0 {
        None
    } else {
        Some((-i64::from(size)) as i32)
    }
}

/// The number that the text spells in decimal digits without a leading zero, with `-` in front where it is
/// below 0.
pub fn read_i32(text: &[u8]) -> Option<i32>
    ensures exact { result ≡ signed_number_of text.now }
    ensures found { IfSome result (λ n. text.now ≡ signed_decimal n) }
    ensures only { (n : ℤ) → FitsSigned w32 n → text.now ≡ signed_decimal n → result ≡ Some n }
{
    match text.strip_prefix(b"-") {
        Some(size) => read_below_zero(size),
        None => Some(read_up_to(text, (1 << 31) - 1)? as i32),
    }
}

// The place of the first such byte.
fn place_of(text: &[u8], byte: u8) -> Option<usize>
    ensures { result ≡ position (λ b. b == byte) text.now }
{
    text.iter().position(|b| *b == byte)
}

// What stands before and behind the first such byte.
fn part_at(text: &[u8], byte: u8) -> Option<(&[u8], &[u8])>
    ensures { option_map (λ parts. (parts.0.now, parts.1.now)) result ≡ parted byte text.now }
{
    let place = place_of(text, byte)?;
    Some((&text[..place], &text[place + 1..]))
}

/// The address that the text spells as `a.b.c.d:p`, each number in decimal digits without a leading zero.
pub fn read_addr(text: &[u8]) -> Option<Addr>
    ensures exact { result ≡ address_of text.now }
    ensures found { IfSome result (λ a. text.now ≡ address_text a) }
    ensures only { (a : Address) → IsAddress a → text.now ≡ address_text a → result ≡ Some a }
{
    let (a, rest) = part_at(text, b'.')?;
    let (b, rest) = part_at(rest, b'.')?;
    let (c, rest) = part_at(rest, b'.')?;
    let (d, port) = part_at(rest, b':')?;
    let ip = [
        read_up_to(a, 255)? as u8,
        read_up_to(b, 255)? as u8,
        read_up_to(c, 255)? as u8,
        read_up_to(d, 255)? as u8,
    ];
    Addr::new(ip, read_up_to(port, 65535)? as u16)
}
