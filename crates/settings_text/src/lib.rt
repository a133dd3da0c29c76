//! The settings as a site writes them: a TOML document, read to its values or to its first fault.
#![tactic(auto)]

mod document;
mod faults;
mod keys;
mod laws;
mod narrow;
mod radars;
mod system;
mod tables;
#[cfg(test)]
mod tests;
mod texts;

pub use document::{SETTINGS_LIMIT, read_settings};
pub use faults::{KeyPath, SettingsError, SettingsFault};
pub use laws::{one_settings_answer, one_table};
