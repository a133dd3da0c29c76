// What the octets of an item say where the form is the same in all categories.
ghost use Rattle.std.specs.Prelude.{◌≡◌, ◌≤◌, ◌<◌, ◌^◌, ℕ};
ghost use Rattle.std.specs.Option.{ForSome};
ghost use Rattle.asterix_frame.specs.Values.{big_endian, one_octet, two_octets, three_octets, has_bit, data_source};

/// The whole number in one octet. Octets of another length have none.
pub fn one_octet(octets: &[u8]) -> Option<u8>
    ensures { result ≡ one_octet octets.now }
{
    match octets {
        [octet] => Some(*octet),
        _ => None,
    }
}

/// The whole number in two octets, the highest first. Octets of another length have none.
pub fn two_octets(octets: &[u8]) -> Option<u16>
    ensures { result ≡ two_octets octets.now }
{
    match octets {
        [high, low] => Some(u16::from_be_bytes([*high, *low])),
        _ => None,
    }
}

/// The whole number in three octets, the highest first. Octets of another length have none.
pub fn three_octets(octets: &[u8]) -> Option<u32>
    ensures value { result ≡ three_octets octets.now }
    ensures within { ForSome result (λ number. number < 2 ^ 24) }
{
    match octets {
        [high, middle, low] => Some(u32::from_be_bytes([0, *high, *middle, *low])),
        _ => None,
    }
}

/// Whether bit n of a number is set, counted as ASTERIX does: bit 1 is the lowest.
pub fn has_bit(number: u16, n: u32) -> bool
    requires some { 1 ≤ n }
    requires within { n ≤ 16 }
    ensures { result ≡ has_bit number n }
{
    number >> (n - 1) & 1 == 1
}

/// SAC and SIC, the system area code and the system identification code, in the two octets of a
/// data source identifier. Octets of another length have none.
pub fn data_source(octets: &[u8]) -> Option<(u8, u8)>
    ensures { result ≡ data_source octets.now }
{
    match octets {
        [sac, sic] => Some((*sac, *sic)),
        _ => None,
    }
}

/// A number written in octets, the highest first, is the number that is read of them.
pub fn one_number()
    ensures two { (n : ℕ) → n < 2 ^ 16 → two_octets (big_endian 2 n) ≡ Some n }
    ensures three { (n : ℕ) → n < 2 ^ 24 → three_octets (big_endian 3 n) ≡ Some n }
{}
