// The faults as they are told.
use crate::faults::{KeyPath, SettingsFault};
use std::fmt;

impl fmt::Display for KeyPath {
    ghost use Rattle.std.specs.Prelude.{Some};
    ghost use Rattle.settings_text.specs.Texts.{path_text};

    ghost output = { λ path. Some (path_text path) };

    fn fmt<W: fmt::Write>(&self, f: &mut fmt::Formatter<W>) -> fmt::Result {
        let key = self.key;
        match self.radar {
            None => write!(f, "key {key}"),
            Some(radar) => write!(f, "key {key} of radar {radar}"),
        }
    }
}

/// One line, without its end.
impl fmt::Display for SettingsFault {
    ghost use Rattle.std.specs.Prelude.{Some};
    ghost use Rattle.settings_text.specs.Texts.{fault_text};

    ghost output = { λ fault. Some (fault_text fault) };

    fn fmt<W: fmt::Write>(&self, f: &mut fmt::Formatter<W>) -> fmt::Result {
        match self {
            SettingsFault::Syntax => write!(f, "settings: not a document"),
            SettingsFault::Missing(path) => write!(f, "settings: missing {path}"),
            SettingsFault::Kind(path) => write!(f, "settings: kind of {path}"),
            SettingsFault::Range(path) => write!(f, "settings: range of {path}"),
            SettingsFault::Unknown => write!(f, "settings: unknown key"),
            SettingsFault::Duplicate { radar, first } => {
                write!(f, "settings: radar {radar} repeats radar {first}")
            }
        }
    }
}
