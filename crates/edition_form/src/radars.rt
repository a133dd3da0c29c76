// The states of the radars.
ghost use Rattle.std.specs.Prelude.{◌≡◌, ◌≤◌, length, unsigned_abs, ◌==◌, IfOk};
ghost use Rattle.std.specs.List.{list_any};
ghost use Rattle.edition_form.specs.Datagrams.{con, milliseconds, nogo, radar_line, radar_lines};

use plot_geometry::{Bias, RadarSettings};
use status_out::RadarLine;
use std::alloc::Global;
use trk_base::{NoMemory, round_div};

// A radar is operational for 12 s after a service message, in 1/128 s.
const SERVICE_AGE: u64 = 1_536;

// The lines of the radars at a time, each with the biases that hold and the last tick at its newest
// service message.
pub(crate) fn radar_lines(
    alloc: Global,
    radars: &[RadarSettings],
    biases: &[Bias],
    services: &[Option<u64>],
    time: u64,
) -> Result<Vec<RadarLine>, NoMemory>
    requires biases { length biases.now ≡ length radars.now }
    requires services { length services.now ≡ length radars.now }
    ensures lines { IfOk result (λ v. v.items ≡ radar_lines time radars.now biases.now services.now) }
    ensures count { IfOk result (λ v. length v.items ≡ length radars.now) }
{
    let mut lines = Vec::with_capacity(alloc, radars.len())?;
    for (index, radar) in radars.iter().enumerate() {
        lines.push(radar_line(radar, biases[index], services[index], time))?;
    }
    Ok(lines)
}

// The line of one radar.
fn radar_line(radar: &RadarSettings, bias: Bias, service: Option<u64>, time: u64) -> RadarLine
    ensures { result ≡ radar_line time radar.now bias service }
{
    let con = con(time, service);
    state_with(
        radar.sac,
        radar.sic,
        con,
        milliseconds(radar.time_bias),
        bias,
    )
}

// The line of a radar with these values.
fn state_with(sac: u8, sic: u8, con: u8, time_ms: i16, bias: Bias) -> RadarLine
    requires { con ≤ 3 }
    ensures { result ≡ record { sac = sac; sic = sic; con = con; time_ms = time_ms; gain = bias.gain; range = bias.range; azimuth = bias.azimuth } }
{
    RadarLine {
        sac,
        sic,
        con,
        time_ms,
        gain: bias.gain,
        range: bias.range,
        azimuth: bias.azimuth,
    }
}

// The state of a radar's connection (I063/060 CON): 3 is not connected, 0 operational, 1 degraded.
fn con(time: u64, service: Option<u64>) -> u8
    ensures value { result ≡ con time service }
    ensures range { result ≤ 3 }
{
    match service {
        None => 3,
        Some(heard) if time.saturating_sub(heard) <= SERVICE_AGE => 0,
        Some(_) => 1,
    }
}

// A time bias in 1/128 s, in ms (I063/070).
fn milliseconds(bias: i16) -> i16
    requires { unsigned_abs bias ≤ 1280 }
    ensures { result ≡ milliseconds bias }
{
    round_div(1000 * i128::from(bias), 128) as i16
}

// The state of the service (I065/040 NOGO): 0 is operational, where some radar is, and 1 degraded.
pub(crate) fn nogo(radars: &[RadarLine]) -> u8
    ensures value { result ≡ nogo radars.now }
    ensures range { result ≤ 1 }
{
    if has_operational(radars) { 0 } else { 1 }
}

// Whether some radar is operational.
fn has_operational(radars: &[RadarLine]) -> bool
    ensures { result ≡ list_any (λ l. l.con == 0) radars.now }
{
    radars.iter().any(|line| line.con == 0)
}
