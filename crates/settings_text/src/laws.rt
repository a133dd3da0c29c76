// What the definitions themselves promise, and that the program's table of the keys is theirs.
ghost use Rattle.std.specs.Prelude.{◌≡◌, ℕ, List};
ghost use Rattle.settings_text.specs.declared.keys.TheConstants.{RADAR_KEYS, SYSTEM_KEYS};
ghost use Rattle.settings_text.specs.Keys.{radar_keys, system_keys};
ghost use Rattle.settings_text.specs.Rules.{keys_of_rules};
ghost use Rattle.settings_text.specs.Answers.{HasOneSettingsAnswer};

/// Whatever the octets are, they have exactly one answer: settings, or one first fault.
///
/// With the clauses of `read_settings` it follows that each answer comes exactly where it's defined
/// to, unless memory is wanting.
pub fn one_settings_answer()
    ensures { (octets : List ℕ) → HasOneSettingsAnswer octets }
{}

/// The program's table of the keys is the definition's list, key by key: number, name, least and
/// greatest value, and default.
pub fn one_table()
    ensures system { keys_of_rules SYSTEM_KEYS ≡ system_keys }
    ensures radar { keys_of_rules RADAR_KEYS ≡ radar_keys }
{}
