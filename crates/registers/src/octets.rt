//! Registers filled from octets.
ghost use Rattle.std.specs.Prelude.{◌≡◌, take};
ghost use Rattle.stream.specs.Bits.{octet_bits, octets_bit, packed};

/// The number whose bits are those of the octets in order, bit 0 of the first octet lowest. Octets after the sixteenth are not read.
pub fn number_of(octets: &[u8]) -> u128
    ensures { result ≡ packed (octet_bits (take 16 octets.now)) }
{
    octets[..octets.len().min(16)]
        .iter()
        .rev()
        .fold(0, |number, octet| number << 8 | u128::from(*octet))
}

/// Bit `i` of octets: bit `i` mod 8 of octet `i` div 8, and false past their end.
pub fn bit_of(octets: &[u8], i: usize) -> bool
    ensures { result ≡ octets_bit octets.now i }
{
    octets.get(i / 8).copied().unwrap_or(0) >> (i % 8) & 1 == 1
}
