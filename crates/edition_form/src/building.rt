// How what an edition shows is made.
ghost use Rattle.std.specs.Prelude.{◌≡◌, ◌%◌, length, IfOk};
ghost use Rattle.trk_base.specs.Numbers.{day};
ghost use Rattle.edition_form.specs.Pictures.{AreEarlier, HaveOwnNumbers, picture};
ghost use Rattle.edition_form.specs.Lines.{RiseByNumber};
ghost use Rattle.edition_form.specs.Datagrams.{ArePictured, lines_in};

use crate::datagrams::datagrams;
use crate::picture::shown_lines;
use crate::radars::radar_lines;
use crate::{Pictured, ShownLine};
use admission_log::Settings;
use cat062_out::Stamp;
use plot_geometry::Bias;
use std::alloc::Global;
use track_life::Table;
use trk_base::{DAY, NoMemory, Sequence};

/// The datagrams of what is shown at a time, and the lines of the tracks that it shows.
///
/// `biases` are those that hold for each radar, and `services` the last tick at the newest service
/// message of each, in the order of the settings. `time` is the log's last tick in 1/128 s, and no
/// plot of the table is as late. `number` is the edition's number, and `old` the lines that were
/// shown at the edition before it, in rising number and birth.
///
/// Its one error is want of memory.
pub fn pictured(
    alloc: Global,
    settings: &Settings,
    biases: &[Bias],
    table: &Table,
    services: &[Option<u64>],
    time: u64,
    number: u64,
    old: &[ShownLine],
) -> Result<Pictured, NoMemory>
    requires biases { length biases.now ≡ length settings.now.radars }
    requires services { length services.now ≡ length settings.now.radars }
    requires numbers { HaveOwnNumbers table.now }
    requires earlier { AreEarlier time table.now }
    requires old { RiseByNumber old.now }
    ensures datagrams { IfOk result (λ p. ArePictured settings.now (picture settings.now biases.now table.now services.now time) old.now number p.datagrams) }
    ensures shown { IfOk result (λ p. p.shown ≡ lines_in (picture settings.now biases.now table.now services.now time)) }
    ensures rising { IfOk result (λ p. RiseByNumber p.shown) }
{
    let shown = shown_lines(alloc, table, &settings.life, time)?;
    let radars = radar_lines(alloc, settings.radars.as_slice(), biases, services, time)?;
    let stamp = stamp(settings.sac, settings.sic, settings.service, time);
    let datagrams = datagrams(alloc, &stamp, number, old, &shown, &radars)?;
    Ok(Pictured {
        datagrams,
        shown: Sequence::of(shown),
    })
}

// Who tells an edition, and at which time of day.
fn stamp(sac: u8, sic: u8, service: u8, time: u64) -> Stamp
    ensures { result ≡ record { sac = sac; sic = sic; service = service; tod = time % day } }
{
    Stamp {
        sac,
        sic,
        service,
        tod: (time % DAY) as u32,
    }
}
