// Keys 1 to 7: the table `system`.
ghost use Rattle.std.specs.Prelude.{◌≡◌, ◌≤◌, vec_len, IfOk, IfErr};
ghost use Rattle.toml.specs.View.{table_view};
ghost use Rattle.admission_log.specs.Sources.{HaveOwnSources};
ghost use Rattle.settings_text.specs.Keys.{system_keys};
ghost use Rattle.settings_text.specs.Tables.{AreWithin};
ghost use Rattle.settings_text.specs.Numbers.{system_numbers};
ghost use Rattle.settings_text.specs.Documents.{SystemGives, system_of, system_faults, system_known};
ghost use Rattle.settings_text.specs.Answers.{IsFirst};

use crate::faults::{KeyPath, SettingsFault};
use crate::keys::SYSTEM_KEYS;
use crate::narrow::to_u8;
use crate::tables::{has_only, numbers, table_at};
use admission_log::Settings;
use plot_geometry::RadarSettings;
use toml::Table;
use track_life::LifeSettings;
use trk_base::Sequence;

/// The numbers of the system.
///
/// It is refused exactly where something is wrong with them, by the first such.
pub fn read_system(document: &Table) -> Result<[i64; 7], SettingsFault>
    ensures ok { IfOk result (λ numbers. SystemGives (table_view document.now) numbers) }
    ensures err { IfErr result (λ fault. IsFirst fault (system_faults (system_of (table_view document.now)))) }
{
    let path = KeyPath {
        radar: None,
        key: SYSTEM_KEYS[0].number,
    };
    match table_at(document, "system") {
        None => Err(SettingsFault::Missing(path)),
        Some(None) => Err(SettingsFault::Kind(path)),
        Some(Some(system)) => numbers(None, system, &SYSTEM_KEYS),
    }
}

/// Whether no key of the system is unknown.
pub fn system_is_known(document: &Table) -> bool
    ensures { result ≡ system_known (system_of (table_view document.now)) }
{
    match table_at(document, "system") {
        Some(Some(system)) => has_only(&SYSTEM_KEYS, system),
        _ => true,
    }
}

/// Settings of these numbers and radars.
pub fn settings_of(numbers: &[i64; 7], radars: Vec<RadarSettings>) -> Settings
    requires within { AreWithin system_keys numbers.now }
    requires some { 1 ≤ vec_len radars }
    requires most { vec_len radars ≤ 32 }
    requires own_sources { HaveOwnSources radars.items }
    ensures numbers { system_numbers result ≡ numbers.now }
    ensures radars { result.radars ≡ radars.items }
{
    let [
        sac,
        sic,
        service,
        window,
        hits,
        keep_tentative,
        keep_confirmed,
    ] = numbers;
    let life = LifeSettings {
        hits: to_u8(hits),
        keep_tentative: to_u8(keep_tentative),
        keep_confirmed: to_u8(keep_confirmed),
    };
    Settings {
        sac: to_u8(sac),
        sic: to_u8(sic),
        service: to_u8(service),
        window: to_u8(window),
        life,
        radars: Sequence::of(radars),
    }
}
