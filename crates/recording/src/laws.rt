// Laws of what is read.
ghost use Rattle.std.specs.Prelude.{◌≡◌, ◌<◌, ◌≤◌, ◌^◌, ◌++◌, ℕ, Bool, List, length, All, Option, None, Some};
ghost use Rattle.std.specs.List.{AllByRecursion};
ghost use Rattle.recording.specs.declared.header.Header.{Header};
ghost use Rattle.recording.specs.Items.{Item, IsItem};
ghost use Rattle.recording.specs.Readings.{recording, HasReading, IsReading, IsReadingOfPrefix, HasContents};

/// Octets have exactly one reading, as an input, and as a prefix of one.
pub fn one_recording()
    ensures some { (octets : List ℕ) (goes_on : Bool) → All (λ octet. octet < 256) octets → HasReading octets goes_on }
    ensures one { (octets : List ℕ) (goes_on : Bool) (g h : Option Header) (s t : ℕ) (xs ys : List Item) (f k : Option ℕ) → HasContents octets goes_on g s xs f → HasContents octets goes_on h t ys k → (g ≡ h) × (s ≡ t) × (xs ≡ ys) × (f ≡ k) }
{}

/// What is written, a header and then items, is read again.
pub fn reads_back()
    ensures { (header : Header) (start : ℕ) (items : List Item) → start < 2 ^ 40 → AllByRecursion (IsItem header) items → IsReading (recording header start items) (Some header) start items None }
{}

/// A fault before the end of a prefix is the fault of the whole input, which has the same header,
/// start and items.
pub fn prefix_fault_stays()
    ensures { (prefix more : List ℕ) (header : Option Header) (start : ℕ) (items : List Item) (offset : ℕ) → 9 ≤ length prefix → offset < length prefix → IsReadingOfPrefix prefix header start items (Some offset) → IsReading (prefix ++ more) header start items (Some offset) }
{}
