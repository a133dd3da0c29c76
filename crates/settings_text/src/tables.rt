// Reading the keys of one table.
ghost use Rattle.std.specs.Prelude.{◌≡◌, IfOk, IfErr, option_map};
ghost use Rattle.toml.specs.Data.{as_integer, as_table, get_member};
ghost use Rattle.toml.specs.View.{view, table_view};
ghost use Rattle.settings_text.specs.Rules.{key_of_rule, keys_of_rules};
ghost use Rattle.settings_text.specs.Tables.{number_at, fault_at, Gives, faults, is_key, has_only};
ghost use Rattle.settings_text.specs.Documents.{as_entries, tables_of};
ghost use Rattle.settings_text.specs.Answers.{IsFirst};

use crate::faults::{KeyPath, SettingsFault};
use crate::keys::KeyRule;
use toml::{Table, Value};

// What stands at a key of a table.
fn value_at<'a>(table: &'a Table, name: &str) -> Option<&'a Value>
    ensures { option_map (λ value. view value.now) result ≡ get_member name.now (table_view table.now) }
{
    table.get(name)
}

/// What stands at a key of a table: nothing, something that is no table, or a table.
pub fn table_at<'a>(table: &'a Table, name: &str) -> Option<Option<&'a Table>>
    ensures { option_map (option_map (λ inner. table_view inner.now)) result ≡ option_map as_table (get_member name.now (table_view table.now)) }
{
    match value_at(table, name) {
        Some(value) => Some(value.as_table()),
        None => None,
    }
}

/// What stands at a key of a table: nothing, something that is no array, or the values of an array.
pub fn values_at<'a>(table: &'a Table, name: &str) -> Option<Option<&'a [Value]>>
    ensures { option_map (option_map (λ values. tables_of values.now)) result ≡ option_map as_entries (get_member name.now (table_view table.now)) }
{
    match value_at(table, name) {
        Some(value) => Some(values_of(value)),
        None => None,
    }
}

// The values of what is an array.
fn values_of(value: &Value) -> Option<&[Value]>
    ensures { option_map (λ values. tables_of values.now) result ≡ as_entries (view value.now) }
{
    match value.as_array() {
        Some(values) => Some(values),
        None => None,
    }
}

// What a table has at a key: nothing, something that is no integer, or an integer.
fn integer_at(table: &Table, name: &str) -> Option<Option<i64>>
    ensures { result ≡ option_map as_integer (get_member name.now (table_view table.now)) }
{
    match value_at(table, name) {
        Some(value) => Some(value.as_integer()),
        None => None,
    }
}

// The number that a table gives the key of a rule.
fn number(radar: Option<u8>, table: &Table, rule: &KeyRule) -> Result<i64, SettingsFault>
    ensures ok { IfOk result (λ number. number_at (table_view table.now) (key_of_rule rule.now) ≡ Ok number) }
    ensures err { IfErr result (λ fault. fault_at radar (table_view table.now) (key_of_rule rule.now) ≡ Some fault) }
{
    let path = KeyPath {
        radar,
        key: rule.number,
    };
    match integer_at(table, rule.name.text()) {
        None => match rule.default {
            Some(default) => Ok(default),
            None => Err(SettingsFault::Missing(path)),
        },
        Some(None) => Err(SettingsFault::Kind(path)),
        Some(Some(number)) => {
            if rule.least <= number && number <= rule.greatest {
                Ok(number)
            } else {
                Err(SettingsFault::Range(path))
            }
        }
    }
}

/// The numbers that a table gives the keys of some rules, in their order.
///
/// It is refused exactly where something is wrong at a key, by what is wrong at the first such.
pub fn numbers<const N: usize>(
    radar: Option<u8>,
    table: &Table,
    rules: &[KeyRule; N],
) -> Result<[i64; N], SettingsFault>
    ensures ok { IfOk result (λ numbers. Gives (table_view table.now) (keys_of_rules rules.now) numbers) }
    ensures err { IfErr result (λ fault. IsFirst fault (faults radar (table_view table.now) (keys_of_rules rules.now))) }
{
    let mut numbers = [0; N];
    for (index, rule) in rules.iter().enumerate() {
        numbers[index] = number(radar, table, rule)?;
    }
    Ok(numbers)
}

// Whether some rule's key has this name.
fn is_key(rules: &[KeyRule], name: &str) -> bool
    ensures { result ≡ is_key (keys_of_rules rules.now) name.now }
{
    rules.iter().any(|rule| rule.name.text() == name)
}

/// Whether a table has no keys but those of some rules.
pub fn has_only(rules: &[KeyRule], table: &Table) -> bool
    ensures { result ≡ has_only (keys_of_rules rules.now) (table_view table.now) }
{
    table.keys().all(|name| is_key(rules, name.as_str()))
}
