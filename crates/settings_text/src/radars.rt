// Keys 8 to 19: the array of tables `radar`.
ghost use Rattle.std.specs.Prelude.{◌≡◌, ◌≤◌, length, vec_len, Some, IfOk, IfErr, IfSome, IfNone};
ghost use Rattle.std.specs.List.{AllZip, list_all};
ghost use Rattle.toml.specs.Data.{as_table};
ghost use Rattle.toml.specs.View.{view, table_view};
ghost use Rattle.admission_log.specs.Sources.{HaveOwnSources};
ghost use Rattle.settings_text.specs.Keys.{radar_keys};
ghost use Rattle.settings_text.specs.Tables.{AreWithin, path};
ghost use Rattle.settings_text.specs.Numbers.{radar_numbers};
ghost use Rattle.settings_text.specs.Documents.{radars_of, tables_of, entry_faults, numbered_faults, entries_faults, radars_faults, IsRadar, AreRadars, has_known_keys, radars_known};
ghost use Rattle.settings_text.specs.Answers.{IsFirst, OnFault, Repeats};

use crate::faults::{KeyPath, SettingsError, SettingsFault};
use crate::keys::RADAR_KEYS;
use crate::narrow::{to_i16, to_i32, to_u8, to_u16};
use crate::tables::{has_only, numbers, values_at};
use admission_log::{RADAR_LIMIT, radar_of};
use plot_geometry::RadarSettings;
use std::alloc::Global;
use toml::{Table, Value};

// A radar of these numbers.
fn radar_settings(numbers: &[i64; 12]) -> RadarSettings
    requires { AreWithin radar_keys numbers.now }
    ensures { radar_numbers result ≡ numbers.now }
{
    let [
        sac,
        sic,
        x,
        y,
        height,
        north,
        range_gain,
        range_bias,
        azimuth_bias,
        time_bias,
        range_sigma,
        azimuth_sigma,
    ] = numbers;
    RadarSettings {
        sac: to_u8(sac),
        sic: to_u8(sic),
        x: to_i32(x),
        y: to_i32(y),
        height: to_i16(height),
        north: to_u16(north),
        range_gain: to_i16(range_gain),
        range_bias: to_i16(range_bias),
        azimuth_bias: to_i16(azimuth_bias),
        time_bias: to_i16(time_bias),
        range_sigma: to_u16(range_sigma),
        azimuth_sigma: to_u16(azimuth_sigma),
    }
}

// The first key of a radar.
fn first_key(radar: u8) -> KeyPath
    ensures { result ≡ path (Some radar) 8 }
{
    KeyPath {
        radar: Some(radar),
        key: RADAR_KEYS[0].number,
    }
}

// The radar of an entry.
//
// It is refused exactly where something is wrong with its numbers, by the first such.
fn read_radar(radar: u8, entry: &Value) -> Result<RadarSettings, SettingsFault>
    ensures ok { IfOk result (IsRadar (as_table (view entry.now))) }
    ensures err { IfErr result (λ fault. IsFirst fault (entry_faults radar (as_table (view entry.now)))) }
{
    match entry.as_table() {
        None => Err(SettingsFault::Kind(first_key(radar))),
        Some(table) => match numbers(Some(radar), table, &RADAR_KEYS) {
            Ok(numbers) => Ok(radar_settings(&numbers)),
            Err(fault) => Err(fault),
        },
    }
}

// The radars of at most 32 entries.
fn read_first(alloc: Global, entries: &[Value]) -> Result<Vec<RadarSettings>, SettingsError>
    requires { length entries.now ≤ 32 }
    ensures ok { IfOk result (λ radars. AllZip IsRadar (tables_of entries.now) radars.items) }
    ensures err { IfErr result (λ error. OnFault error (λ fault. IsFirst fault (numbered_faults 0 (tables_of entries.now)))) }
{
    let mut radars = Vec::with_capacity(alloc, entries.len())?;
    for (radar, entry) in entries.iter().enumerate() {
        radars.push(read_radar(radar as u8, entry)?)?;
    }
    Ok(radars)
}

// The radars of all entries.
fn read_entries(alloc: Global, entries: &[Value]) -> Result<Vec<RadarSettings>, SettingsError>
    ensures ok { IfOk result (λ radars. AllZip IsRadar (tables_of entries.now) radars.items) }
    ensures some { IfOk result (λ radars. (1 ≤ vec_len radars) × (vec_len radars ≤ 32)) }
    ensures err { IfErr result (λ error. OnFault error (λ fault. IsFirst fault (entries_faults (tables_of entries.now)))) }
{
    if entries.is_empty() {
        return Err(SettingsError::Fault(SettingsFault::Missing(first_key(0))));
    }
    let first = entries.len().min(RADAR_LIMIT);
    let radars = read_first(alloc, &entries[..first])?;
    if entries.len() > RADAR_LIMIT {
        return Err(SettingsError::Fault(SettingsFault::Range(first_key(32))));
    }
    Ok(radars)
}

/// The radars of a document, from 1 to 32.
///
/// It is refused by a fault exactly where something is wrong with their numbers, by the first such.
pub fn read_radars(alloc: Global, document: &Table) -> Result<Vec<RadarSettings>, SettingsError>
    ensures ok { IfOk result (λ radars. AreRadars (table_view document.now) radars.items) }
    ensures some { IfOk result (λ radars. (1 ≤ vec_len radars) × (vec_len radars ≤ 32)) }
    ensures err { IfErr result (λ error. OnFault error (λ fault. IsFirst fault (radars_faults (radars_of (table_view document.now))))) }
{
    let fault = match values_at(document, "radar") {
        Some(Some(entries)) => return read_entries(alloc, entries),
        Some(None) => SettingsFault::Kind(first_key(0)),
        None => SettingsFault::Missing(first_key(0)),
    };
    Err(SettingsError::Fault(fault))
}

// Whether no key of an entry is unknown.
fn entry_is_known(entry: &Value) -> bool
    ensures { result ≡ has_known_keys radar_keys (as_table (view entry.now)) }
{
    match entry.as_table() {
        Some(table) => has_only(&RADAR_KEYS, table),
        None => true,
    }
}

// Whether no key of some entries is unknown.
fn entries_are_known(entries: &[Value]) -> bool
    ensures { result ≡ list_all (has_known_keys radar_keys) (tables_of entries.now) }
{
    entries.iter().all(|entry| entry_is_known(entry))
}

/// Whether no key of the radars is unknown.
pub fn radars_are_known(document: &Table) -> bool
    ensures { result ≡ radars_known (radars_of (table_view document.now)) }
{
    match values_at(document, "radar") {
        Some(Some(entries)) => entries_are_known(entries),
        _ => true,
    }
}

/// The least radar with the SAC and the SIC of an earlier one, and that one.
pub fn repeated(radars: &[RadarSettings]) -> Option<(u8, u8)>
    requires { length radars.now ≤ 32 }
    ensures found { IfSome result (λ pair. Repeats radars.now pair.0 pair.1) }
    ensures none { IfNone result (HaveOwnSources radars.now) }
{
    for (index, radar) in radars.iter().enumerate() {
        if let Some(first) = radar_of(&radars[..index], radar.sac, radar.sic) {
            return Some((index as u8, first as u8));
        }
    }
    None
}
