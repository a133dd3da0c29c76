// The state of the service, and the end of a batch.
use cat062_out::Stamp;

/// What one record of category 065 tells of the service.
#[derive(Clone, Copy, Debug, PartialEq, Eq)]
pub enum Line065 {
    /// The state of the service, with I065/040 NOGO: 0 is operational, 1 degraded.
    Status(Stamp, u8),
    /// The end of a batch, with its number, I065/020.
    End(Stamp, u8),
}
