// The data items of a track's record, by FRN, and the bits that are named in them.

// I062/010, data source identifier.
pub(crate) const SOURCE: u8 = 1;
// I062/015, service identification.
pub(crate) const SERVICE: u8 = 3;
// I062/070, time of track information.
pub(crate) const TIME: u8 = 4;
// I062/100, calculated position, Cartesian.
pub(crate) const POSITION: u8 = 6;
// I062/185, calculated velocity, Cartesian.
pub(crate) const VELOCITY: u8 = 7;
// I062/060, track Mode 3/A code.
pub(crate) const CODE: u8 = 9;
// I062/380, aircraft derived data.
pub(crate) const AIRCRAFT: u8 = 11;
// I062/040, track number.
pub(crate) const NUMBER: u8 = 12;
// I062/080, track status.
pub(crate) const STATUS: u8 = 13;
// I062/290, system track update ages.
pub(crate) const AGES: u8 = 14;
// I062/136, measured flight level.
pub(crate) const LEVEL: u8 = 17;
// I062/500, estimated accuracies.
pub(crate) const ACCURACY: u8 = 27;

// A flag of I062/080.
#[derive(Clone, Copy)]
pub(crate) struct Flag {
    // The index of its octet.
    pub(crate) octet: usize,
    // Its bit, counted as the standard does: 1 is the lowest.
    pub(crate) bit: u32,
}

// MON: one radar alone saw the track.
pub(crate) const MON: Flag = Flag { octet: 0, bit: 8 };
// SPI: special position identification.
pub(crate) const SPI: Flag = Flag { octet: 0, bit: 7 };
// TSE: the track's last record.
pub(crate) const TSE: Flag = Flag { octet: 1, bit: 7 };
// TSB: the track's first record.
pub(crate) const TSB: Flag = Flag { octet: 1, bit: 6 };
// CST: the track is coasted.
pub(crate) const CST: Flag = Flag { octet: 3, bit: 8 };

// The bits of the primary field of I062/290: ages of the last detection by primary radar.
pub(crate) const PSR: u8 = 0x40;
// By secondary radar, not counting Mode S.
pub(crate) const SSR: u8 = 0x20;
// By Mode S.
pub(crate) const MDS: u8 = 0x10;
