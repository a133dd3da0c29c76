// Whole datagrams.
ghost use Rattle.std.specs.Prelude.{◌≡◌, ◌<◌, ◌⊎◌, ℕ, List, All};
ghost use Rattle.asterix_frame.specs.Datagrams.{Content, IsDatagram, DatagramFault};

/// A datagram has exactly one reading down to its items: as blocks, of which those of the
/// categories 34 and 48 are whole records, or as a first fault in the order of reading.
pub fn one_datagram()
    ensures some { (d : List ℕ) → All (λ octet. octet < 256) d → ((cs : List Content) × IsDatagram d cs) ⊎ ((offset : ℕ) × (cause : ℕ) × DatagramFault d offset cause) }
    ensures one_list { (d : List ℕ) (cs cs' : List Content) → IsDatagram d cs → IsDatagram d cs' → cs ≡ cs' }
    ensures one_fault { (d : List ℕ) (o c o' c' : ℕ) → DatagramFault d o c → DatagramFault d o' c' → (o ≡ o') × (c ≡ c') }
    ensures not_both { (d : List ℕ) (cs : List Content) (offset cause : ℕ) → IsDatagram d cs → DatagramFault d offset cause → ⊥ }
{}
