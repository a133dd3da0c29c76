// The whole document.
ghost use Rattle.std.specs.Prelude.{◌≡◌, ℕ, Result, Ok, Err, IfOk, IfErr};
ghost use Rattle.toml.specs.Data.{Members};
ghost use Rattle.toml.specs.View.{table_view};
ghost use Rattle.admission_log.specs.declared.settings.Settings.{Settings};
ghost use Rattle.settings_text.specs.declared.faults.SettingsFault.{SettingsFault};
ghost use Rattle.settings_text.specs.declared.faults.SettingsFault.TheVariants.{Syntax};
ghost use Rattle.std.specs.List.{list_all};
ghost use Rattle.settings_text.specs.Tables.{names};
ghost use Rattle.settings_text.specs.Documents.{is_known, is_part};
ghost use Rattle.settings_text.specs.Answers.{IsDocument, IsSettings, IsFaultOf, IsSettingsAnswer, OnFault, Agrees};

use crate::faults::{SettingsError, SettingsFault};
use crate::radars::{radars_are_known, read_radars, repeated};
use crate::system::{read_system, settings_of, system_is_known};
use admission_log::Settings;
use std::alloc::Global;
use toml::Table;

/// How many octets the settings have at most.
pub const SETTINGS_LIMIT: usize = 65_536;

/// The settings that a document gives: TOML 1.1, as `toml` defines it, in UTF-8 of at most 65,536
/// octets. `specs/Keys.antt` lists its keys, with ranges and defaults.
///
/// Else its first fault is told, in this order: that there is no such document; what is wrong with
/// keys 1 to 7 of the system; what is wrong with the radars, one after the other, each with keys 8
/// to 19; that there is an unknown key; that two radars have the same SAC and SIC. Want of memory
/// comes at any point.
pub fn read_settings(alloc: Global, bytes: &[u8]) -> Result<Settings, SettingsError>
    ensures ok { IfOk result (λ settings. IsSettingsAnswer bytes.now (Ok settings)) }
    ensures fault { IfErr result (λ error. OnFault error (λ fault. IsSettingsAnswer bytes.now (Err fault))) }

    // The other direction, unless memory is wanting.
    ensures exact { (answer : Result Settings SettingsFault) → IsSettingsAnswer bytes.now answer → Agrees result answer }
{
    let document = parse(alloc, bytes)?;
    read_document(alloc, &document)
}

// The document that some octets are.
fn parse(alloc: Global, bytes: &[u8]) -> Result<Table, SettingsError>
    ensures ok { IfOk result (λ document. IsDocument bytes.now (table_view document)) }
    ensures none { IfErr result (λ error. OnFault error (λ fault. (document : Members) → ¬ IsDocument bytes.now document)) }
    ensures syntax { IfErr result (λ error. OnFault error (λ fault. fault ≡ Syntax)) }
{
    if bytes.len() > SETTINGS_LIMIT {
        return Err(SettingsError::Fault(SettingsFault::Syntax));
    }
    match toml::table_from_slice(alloc, bytes) {
        Ok(document) => Ok(document),
        Err(error) => {
            if error.is_memory() {
                Err(SettingsError::NoMemory)
            } else {
                Err(SettingsError::Fault(SettingsFault::Syntax))
            }
        }
    }
}

// Whether no key of a document is unknown.
fn document_is_known(document: &Table) -> bool
    ensures { result ≡ is_known (table_view document.now) }
{
    has_parts_only(document) && system_is_known(document) && radars_are_known(document)
}

// Whether a document has no keys but `system` and `radar`.
fn has_parts_only(document: &Table) -> bool
    ensures { result ≡ list_all is_part (names (table_view document.now)) }
{
    document.keys().all(|name| is_part(name.as_str()))
}

// Whether this is the name of one of the two.
fn is_part(name: &str) -> bool
    ensures { result ≡ is_part name.now }
{
    name == "system" || name == "radar"
}

// The settings that a document gives.
fn read_document(alloc: Global, document: &Table) -> Result<Settings, SettingsError>
    ensures ok { IfOk result (IsSettings (table_view document.now)) }
    ensures err { IfErr result (λ error. OnFault error (IsFaultOf (table_view document.now))) }
{
    let system = read_system(document)?;
    let radars = read_radars(alloc, document)?;
    if !document_is_known(document) {
        return Err(SettingsError::Fault(SettingsFault::Unknown));
    }
    if let Some((radar, first)) = repeated(&radars) {
        return Err(SettingsError::Fault(SettingsFault::Duplicate { radar, first }));
    }
    Ok(settings_of(&system, radars))
}
