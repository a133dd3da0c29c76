// What can be wrong with settings, and where.
use std::alloc::{AllocError, AllocFailed};

/// Where in the settings something is wrong.
#[derive(Clone, Copy, Debug, PartialEq, Eq)]
pub struct KeyPath {
    /// The index of the radar whose key it is, or None for a key of the system.
    pub radar: Option<u8>,
    /// The number of the key, from 1 to 19.
    pub key: u8,
}

/// What is wrong with the settings.
#[derive(Clone, Copy, Debug, PartialEq, Eq)]
pub enum SettingsFault {
    /// More than 65,536 octets, or no UTF-8, or no TOML document.
    Syntax,
    /// A required key isn't there. Where there are no radars it is the first key of the first.
    Missing(KeyPath),
    /// A key's value isn't an integer.
    Kind(KeyPath),
    /// A key's value is out of its range. Of more than 32 radars it is the first key of the 33rd.
    Range(KeyPath),
    /// There is a key that no setting has.
    Unknown,
    /// Two radars have the same SAC and SIC.
    Duplicate {
        /// The least radar that repeats an earlier one.
        radar: u8,
        /// The radar that it repeats.
        first: u8,
    },
}

/// Why there are no settings.
#[derive(Clone, Copy, Debug, PartialEq, Eq)]
pub enum SettingsError {
    /// The first fault of the document.
    Fault(SettingsFault),
    /// Memory is wanting.
    NoMemory,
}

impl From<SettingsFault> for SettingsError {
    ghost use Rattle.std.specs.Prelude.{◌≡◌};
    ghost use Rattle.settings_text.specs.declared.faults.SettingsError.TheVariants.{Fault};

    ghost from_gives = { λ fault error. error ≡ Fault fault };

    fn from(fault: SettingsFault) -> SettingsError {
        SettingsError::Fault(fault)
    }
}

impl From<AllocError> for SettingsError {
    ghost use Rattle.std.specs.Prelude.{◌≡◌};
    ghost use Rattle.settings_text.specs.declared.faults.SettingsError.TheVariants.{NoMemory};

    ghost from_gives = { λ _ error. error ≡ NoMemory };

    fn from(_: AllocError) -> SettingsError {
        SettingsError::NoMemory
    }
}

impl<T: Drop> From<AllocFailed<T>> for SettingsError {
    ghost use Rattle.std.specs.Prelude.{◌≡◌};
    ghost use Rattle.settings_text.specs.declared.faults.SettingsError.TheVariants.{NoMemory};

    ghost from_gives = { λ _ error. error ≡ NoMemory };

    fn from(_: AllocFailed<T>) -> SettingsError {
        SettingsError::NoMemory
    }
}
