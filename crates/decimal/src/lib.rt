//! Decimal numbers in a text.
#![tactic(auto)]

ghost use Rattle.std.specs.Prelude.{◌≡◌};
ghost use Rattle.decimal.specs.Numbers.{number_of};

/// The 32-bit number that the text writes, if it is a digit or more and nothing else.
pub fn parse(text: &[u8]) -> Option<u32>
    ensures { result ≡ number_of text.now }
{
    // The library takes a sign too.
    if text.first() == Some(&b'+') {
        return None;
    }
    u32::from_str_radix(str::from_utf8(text).ok()?, 10).ok()
}
