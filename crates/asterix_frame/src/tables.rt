// The items of the five categories: how many octets each has.
ghost use Rattle.std.specs.Prelude.{◌≡◌};
ghost use Rattle.asterix_frame.specs.Tables.{cat034, cat048, cat062, cat063, cat065, system_configuration, processing_mode, doppler_speed, plot_characteristics, update_ages, aircraft_data, accuracies, source_frn};

use ItemFormat::{Explicit, Extended, Fixed, Repetitive, Spare};

/// The format of a data item, as ASTERIX Part 1 names it: how many octets it has. Each has at least
/// one.
#[derive(Clone, Copy)]
pub enum ItemFormat {
    /// There is no item of this FRN.
    Spare,
    /// So many.
    Fixed(u8),
    /// Each but the last has bit 1, FX.
    Extended,
    /// One with a number n, and then n times so many.
    Repetitive(u8),
    /// As many as its first octet says, which counts itself.
    Explicit,
    /// A primary field, whose bits name the subfields that follow it.
    Compound(Compound),
}

/// A compound item. None has a subfield after the first seven bits of its primary field.
#[derive(Clone, Copy)]
pub enum Compound {
    /// System configuration and status, I034/050.
    SystemConfiguration,
    /// System processing mode, I034/060.
    ProcessingMode,
    /// Radial Doppler speed, I048/120.
    DopplerSpeed,
    /// Radar plot characteristics, I048/130.
    PlotCharacteristics,
    /// System track update ages, I062/290.
    UpdateAges,
    /// Aircraft derived data, I062/380.
    AircraftData,
    /// Estimated accuracies, I062/500.
    Accuracies,
}

/// The format of a subfield of a compound item: how many octets it has.
#[derive(Clone, Copy)]
pub enum SubfieldFormat {
    /// There is no subfield of this bit.
    Spare,
    /// So many.
    Fixed(u8),
    /// One with a number n, and then n times so many.
    Repetitive(u8),
}

impl ItemFormat {
    ghost use Rattle.std.specs.Prelude.{◌≡◌};
    ghost use Rattle.asterix_frame.specs.Items.{is_item};

    /// Whether there is an item.
    pub fn is_item(&self) -> bool
        ensures { result ≡ is_item self.now }
    {
        !matches!(self, ItemFormat::Spare)
    }
}

impl SubfieldFormat {
    ghost use Rattle.std.specs.Prelude.{◌≡◌};
    ghost use Rattle.asterix_frame.specs.Items.{is_subfield};

    /// Whether there is a subfield.
    pub fn is_subfield(&self) -> bool
        ensures { result ≡ is_subfield self.now }
    {
        !matches!(self, SubfieldFormat::Spare)
    }
}

/// The FRN of the data source identifier in each category: I034/010, I048/010, I062/010, I063/010
/// and I065/010. It has two octets, SAC and SIC.
pub const SOURCE_FRN: u8 = 1;

/// The user application profile of a category: its data items by field reference number, from 1
/// on.
#[derive(Clone, Copy, Debug, PartialEq, Eq)]
pub enum Uap {
    /// Radar service messages (ASTERIX Part 2b).
    Cat034,
    /// Monoradar target reports (ASTERIX Part 4).
    Cat048,
    /// System track data (ASTERIX Part 9), with the items that this system writes.
    Cat062,
    /// Sensor status (ASTERIX Part 10).
    Cat063,
    /// SDPS status (ASTERIX Part 15).
    Cat065,
}

impl Uap {
    ghost use Rattle.std.specs.Prelude.{◌≡◌};
    ghost use Rattle.asterix_frame.specs.Tables.{category_of, table_of, time_frn};

    /// The category.
    pub fn category(self) -> u8
        ensures { result ≡ category_of self }
    {
        match self {
            Uap::Cat034 => 34,
            Uap::Cat048 => 48,
            Uap::Cat062 => 62,
            Uap::Cat063 => 63,
            Uap::Cat065 => 65,
        }
    }

    /// The items by FRN, from 1 on.
    pub fn table(self) -> &'static [ItemFormat]
        ensures { result.now ≡ table_of self }
    {
        match self {
            Uap::Cat034 => &CAT034,
            Uap::Cat048 => &CAT048,
            Uap::Cat062 => &CAT062,
            Uap::Cat063 => &CAT063,
            Uap::Cat065 => &CAT065,
        }
    }

    /// The FRN of the time of day: I034/030, I048/140, I062/070, I063/030 or I065/030. It has
    /// three octets, in 1/128 s.
    pub fn time_of_day(self) -> u8
        ensures { result ≡ time_frn self }
    {
        match self {
            Uap::Cat034 | Uap::Cat063 => 3,
            Uap::Cat048 => 2,
            Uap::Cat062 | Uap::Cat065 => 4,
        }
    }
}

impl Compound {
    ghost use Rattle.std.specs.Prelude.{◌≡◌};
    ghost use Rattle.asterix_frame.specs.Tables.{subfields_of};

    /// The subfields by the bits of the primary field's first octet, from bit 8 down to bit 2.
    pub fn subfields(self) -> &'static [SubfieldFormat]
        ensures { result.now ≡ subfields_of self }
    {
        match self {
            Compound::SystemConfiguration => &SYSTEM_CONFIGURATION,
            Compound::ProcessingMode => &PROCESSING_MODE,
            Compound::DopplerSpeed => &DOPPLER_SPEED,
            Compound::PlotCharacteristics => &PLOT_CHARACTERISTICS,
            Compound::UpdateAges => &UPDATE_AGES,
            Compound::AircraftData => &AIRCRAFT_DATA,
            Compound::Accuracies => &ACCURACIES,
        }
    }
}

const NO: SubfieldFormat = SubfieldFormat::Spare;

const ONE: SubfieldFormat = SubfieldFormat::Fixed(1);

static SYSTEM_CONFIGURATION: [SubfieldFormat; 7] = [
    ONE,
    NO,
    NO,
    ONE,
    ONE,
    SubfieldFormat::Fixed(2),
    NO,
];

static PROCESSING_MODE: [SubfieldFormat; 7] = [ONE, NO, NO, ONE, ONE, ONE, NO];

static DOPPLER_SPEED: [SubfieldFormat; 7] = [
    SubfieldFormat::Fixed(2),
    SubfieldFormat::Repetitive(6),
    NO,
    NO,
    NO,
    NO,
    NO,
];

static PLOT_CHARACTERISTICS: [SubfieldFormat; 7] = [ONE, ONE, ONE, ONE, ONE, ONE, ONE];

static UPDATE_AGES: [SubfieldFormat; 7] = [NO, ONE, ONE, ONE, NO, NO, NO];

static AIRCRAFT_DATA: [SubfieldFormat; 7] = [SubfieldFormat::Fixed(3), NO, NO, NO, NO, NO, NO];

static ACCURACIES: [SubfieldFormat; 7] = [SubfieldFormat::Fixed(4), NO, NO, NO, NO, NO, NO];

static CAT034: [ItemFormat; 14] = [
    Fixed(2), //  1 I034/010
    Fixed(1), //  2 I034/000
    Fixed(3), //  3 I034/030
    Fixed(1), //  4 I034/020
    Fixed(2), //  5 I034/041
    ItemFormat::Compound(Compound::SystemConfiguration), //  6 I034/050
    ItemFormat::Compound(Compound::ProcessingMode), //  7 I034/060
    Repetitive(2), //  8 I034/070
    Fixed(8), //  9 I034/100
    Fixed(1), // 10 I034/110
    Fixed(8), // 11 I034/120
    Fixed(2), // 12 I034/090
    Explicit, // 13 RE
    Explicit, // 14 SP
];

static CAT048: [ItemFormat; 28] = [
    Fixed(2), //  1 I048/010
    Fixed(3), //  2 I048/140
    Extended, //  3 I048/020
    Fixed(4), //  4 I048/040
    Fixed(2), //  5 I048/070
    Fixed(2), //  6 I048/090
    ItemFormat::Compound(Compound::PlotCharacteristics), //  7 I048/130
    Fixed(3), //  8 I048/220
    Fixed(6), //  9 I048/240
    Repetitive(8), // 10 I048/250
    Fixed(2), // 11 I048/161
    Fixed(4), // 12 I048/042
    Fixed(4), // 13 I048/200
    Extended, // 14 I048/170
    Fixed(4), // 15 I048/210
    Extended, // 16 I048/030
    Fixed(2), // 17 I048/080
    Fixed(4), // 18 I048/100
    Fixed(2), // 19 I048/110
    ItemFormat::Compound(Compound::DopplerSpeed), // 20 I048/120
    Fixed(2), // 21 I048/230
    Fixed(7), // 22 I048/260
    Fixed(1), // 23 I048/055
    Fixed(2), // 24 I048/050
    Fixed(1), // 25 I048/065
    Fixed(2), // 26 I048/060
    Explicit, // 27 SP
    Explicit, // 28 RE
];

static CAT062: [ItemFormat; 27] = [
    Fixed(2), //  1 I062/010
    Spare, //  2
    Fixed(1), //  3 I062/015
    Fixed(3), //  4 I062/070
    Spare, //  5
    Fixed(6), //  6 I062/100
    Fixed(4), //  7 I062/185
    Spare, //  8
    Fixed(2), //  9 I062/060
    Spare, // 10
    ItemFormat::Compound(Compound::AircraftData), // 11 I062/380
    Fixed(2), // 12 I062/040
    Fixed(4), // 13 I062/080
    ItemFormat::Compound(Compound::UpdateAges), // 14 I062/290
    Spare, // 15
    Spare, // 16
    Fixed(2), // 17 I062/136
    Spare, // 18
    Spare, // 19
    Spare, // 20
    Spare, // 21
    Spare, // 22
    Spare, // 23
    Spare, // 24
    Spare, // 25
    Spare, // 26
    ItemFormat::Compound(Compound::Accuracies), // 27 I062/500
];

static CAT063: [ItemFormat; 8] = [
    Fixed(2), // 1 I063/010
    Fixed(1), // 2 I063/015
    Fixed(3), // 3 I063/030
    Fixed(2), // 4 I063/050
    Extended, // 5 I063/060
    Fixed(2), // 6 I063/070
    Fixed(4), // 7 I063/080
    Fixed(2), // 8 I063/081
];

static CAT065: [ItemFormat; 6] = [
    Fixed(2), // 1 I065/010
    Fixed(1), // 2 I065/000
    Fixed(1), // 3 I065/015
    Fixed(3), // 4 I065/030
    Fixed(1), // 5 I065/020
    Fixed(1), // 6 I065/040
];

/// The program's tables are the definition's lists, item by item and subfield by subfield, and the
/// data source identifier has the definition's FRN.
pub fn one_table()
    ensures cat034 { CAT034 ≡ cat034 }
    ensures cat048 { CAT048 ≡ cat048 }
    ensures cat062 { CAT062 ≡ cat062 }
    ensures cat063 { CAT063 ≡ cat063 }
    ensures cat065 { CAT065 ≡ cat065 }
    ensures system_configuration { SYSTEM_CONFIGURATION ≡ system_configuration }
    ensures processing_mode { PROCESSING_MODE ≡ processing_mode }
    ensures doppler_speed { DOPPLER_SPEED ≡ doppler_speed }
    ensures plot_characteristics { PLOT_CHARACTERISTICS ≡ plot_characteristics }
    ensures update_ages { UPDATE_AGES ≡ update_ages }
    ensures aircraft_data { AIRCRAFT_DATA ≡ aircraft_data }
    ensures accuracies { ACCURACIES ≡ accuracies }
    ensures source { SOURCE_FRN ≡ source_frn }
{}
