//! A caller that has the clauses of a step of a device.

ghost use Rattle.std.specs.Prelude.{◌≡◌};
ghost use Rattle.emtp_case.specs.held.Control.{AreKnown};
ghost use Rattle.emtp_case.specs.declared.control.Device.{Device};
ghost use Rattle.emtp_devices.specs.held.Devices.{IsDeviceAt};

use emtp_devices::Devices;

/// The next output of a device as the control computes it at its turn; `NONE` where it is out of range.
fn output(devices: &mut Devices<'_>, extra: usize, step: u32, values: &[i64]) -> i64
    requires device { (x : Device) × IsDeviceAt devices.old.case extra x }
    requires values { AreKnown devices.old.case values.now }
    ensures { devices.new.case ≡ devices.old.case }
{
    match devices.step(extra, step, values) {
        Ok(y) => y,
        Err(_) => NONE,
    }
}

/// What stands for an output that is out of range.
const NONE: i64 = i64::MIN;
