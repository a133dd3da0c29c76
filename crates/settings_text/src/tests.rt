// Documents and what is told of them: a table a file, gone over by one loop.
mod faults;
mod ranges;
mod reading;

use crate::*;
use std::alloc::{AllocError, Global};

const SYSTEM: &str = "[system]\nsac = 1\nsic = 99\nservice = 1\nhits = 1\n";

const RADAR: &str =
    "[[radar]]\nsac = 1\nsic = 1\nx = 0\ny = 0\nrange_sigma = 50\nazimuth_sigma = 12\n";

// What is wrong with the settings of a text, or nothing.
fn fault_of(alloc: Global, text: &str) -> Result<Option<SettingsFault>, AllocError> {
    match read_settings(alloc, text.as_bytes()) {
        Ok(_) => Ok(None),
        Err(SettingsError::Fault(fault)) => Ok(Some(fault)),
        Err(SettingsError::NoMemory) => Err(AllocError),
    }
}

// Whether this is told of the settings of a text: nothing where they have no fault.
fn tells(alloc: Global, text: &str, want: &str) -> Result<bool, AllocError> {
    match fault_of(alloc, text)? {
        None => Ok(want.is_empty()),
        Some(fault) => {
            let told = format!(in alloc; "{fault}")?;
            Ok(told.as_str() == want)
        }
    }
}

// The parts of a text in one.
fn joined(alloc: Global, parts: &[&str]) -> Result<String, AllocError> {
    let mut text = String::new(alloc);
    for part in parts {
        text.push_str(part)?;
    }
    Ok(text)
}

// So many radars as an inline array, and then some more entries.
fn entries(alloc: Global, count: u8, more: &str) -> Result<String, AllocError> {
    let mut text = String::from_str(alloc, "radar = [\n")?;
    for sic in 0..count {
        let entry = format!(in alloc;
            "{{ sic = {sic}, sac = 1, x = 0, y = 0, range_sigma = 50, azimuth_sigma = 12 }},\n"
        )?;
        text.push_str(entry.as_str())?;
    }
    text.push_str(more)?;
    text.push_str("]\n")?;
    Ok(text)
}
