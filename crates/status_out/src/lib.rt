//! Messages on the system's own state, written and read: the states of the radars, category 063
//! (EUROCONTROL ASTERIX, Part 10), and the state of the service and the end of a batch, category 065
//! (Part 15), in the profile that this system writes.
#![tactic(auto)]

mod laws;
mod radar_line;
mod sensor_reader;
mod sensor_writer;
mod service_line;
mod service_reader;
mod service_writer;
mod written;

pub use laws::{one_sensor_reading, one_service_reading};
pub use radar_line::RadarLine;
pub use sensor_reader::read063;
pub use sensor_writer::write063;
pub use service_line::Line065;
pub use service_reader::read065;
pub use service_writer::{write065_end, write065_status};

#[cfg(test)]
mod tests;
